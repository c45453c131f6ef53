//! The end of a run whose input flows.

ghost use Rattle.std.specs.Prelude.{IfOk};
ghost use Rattle.pawk_code.specs.ProgramViews.{code_view};
ghost use Rattle.pawk_store.specs.Globals.{calls};
ghost use Rattle.pawk_store.specs.LeftViews.{left_view};
ghost use Rattle.pawk_store.specs.Runs.{after_records};
ghost use Rattle.pawk_sequential.specs.Ends.{end_view};
ghost use Rattle.pawk_sequential.specs.RunEnds.{Answers, Finishes};
ghost use Rattle.pawk_pieces.specs.Pieces.{end_between};

use crate::flow::Flow;
use pawk_sequential::{Finish, Job, Left, Outcome, Output, Run, run_after_records};
use pawk_store::Globals;
use std::alloc::{AllocError, Global};
use std::mem;

/// Goes on after the records of a run; gives what it leaves beside the globals.
fn end_run(
    alloc: Global,
    job: Job<'_>,
    left: Left,
    globals: &mut Globals,
    run: &mut Run<'_>,
) -> Result<Finish, AllocError>
    ensures { IfOk result (Finishes (after_records calls (code_view job.entry.code.now).expressions
        (code_view job.entry.code.now) job.entry.budget (left_view left)
        (end_view globals.old run.old left)) globals.new) }
{
    let ending = run_after_records(job, left, globals, run)?;
    let specials = run.state.specials(alloc)?;
    let output = mem::replace(&mut run.output, Vec::new(alloc));
    Ok(Finish {
        output: Output::whole(alloc, output)?,
        specials,
        ending,
    })
}

/// Goes on after the last piece, which was left so: with END, unless it ended in a fault. A fault is at the record that was
/// read last. The error comes where memory was refused.
///
/// POSIX.1-2017, awk, "Overall Program Structure" and "Actions" (exit).
pub fn finish_flow(job: Job<'_>, flow: Flow, left: Left) -> Result<Outcome, AllocError>
    ensures { IfOk result (Answers (after_records calls (code_view job.entry.code.now).expressions
        (code_view job.entry.code.now) job.entry.budget (left_view left) (end_between flow))) }
{
    let Flow {
        alloc,
        globals,
        state,
    } = flow;
    let (mut globals, mut state) = (globals, state);
    let mut run = Run::new(alloc, state.lend(), job.budget, job.code.expressions.len())?;
    let finish = end_run(alloc, job, left, &mut globals, &mut run)?;
    Ok(Outcome::of(finish, globals))
}
