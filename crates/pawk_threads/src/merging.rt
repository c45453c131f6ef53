//! Records that were run in chunks, and what follows them.

ghost use Rattle.std.specs.Prelude.{◌≡◌, ◌↔◌, ◌++◌, IfOk, IsTrue};
ghost use Rattle.pawk_code.specs.ProgramViews.{code_view};
ghost use Rattle.pawk_store.specs.Globals.{calls};
ghost use Rattle.pawk_store.specs.StateViews.{state_of};
ghost use Rattle.pawk_store.specs.LeftViews.{left_view};
ghost use Rattle.pawk_store.specs.Runs.{after_records};
ghost use Rattle.pawk_store.specs.Outputs.{in_a_row};
ghost use Rattle.pawk_merge.specs.MergeViews as merges;
ghost use Rattle.pawk_sequential.specs.RunEnds.{Answers, Finishes};
ghost use Rattle.pawk_merge_law.specs.Gathered.{after_output};

use pawk_merge::{JoinStop, Merged};
use pawk_routes::Prologue;
use pawk_sequential::{Finish, Job, Outcome, Output, Run, run_after_records};
use pawk_store::Globals;
use std::alloc::{AllocError, Global};
use std::mem;

/// Whether a merge stopped because memory was refused.
pub(crate) fn lacks_memory(stop: JoinStop) -> bool
    ensures { IsTrue result ↔ stop ≡ JoinStop.Memory }
{
    match stop {
        JoinStop::Memory => true,
        JoinStop::Cell => false,
        JoinStop::Fault => false,
        JoinStop::Clash => false,
    }
}

/// The output of a run: what `BEGIN` wrote, the outputs of the chunks, and what END wrote.
fn output_of(
    alloc: Global,
    before: Vec<u8>,
    outputs: Vec<Vec<u8>>,
    behind: Vec<u8>,
) -> Result<Output, AllocError>
    ensures { IfOk result (λ output.
        output ≡ (before.items ++ in_a_row outputs.items) ++ behind.items) }
{
    let mut outputs = outputs;
    let mut parts = Vec::with_capacity(alloc, outputs.len().saturating_add(2))?;
    parts.push(before)?;
    parts.append(&mut outputs)?;
    parts.push(behind)?;
    Ok(Output::of(parts))
}

/// Goes on after records that were merged into the globals; gives what the run leaves beside them.
fn end_merged<'a>(
    job: Job<'_>,
    globals: &mut Globals,
    run: &mut Run<'a>,
    merged: Merged<'a>,
) -> Result<Finish, AllocError>
    ensures { IfOk result (Finishes (after_records calls
        (code_view job.entry.code.now).expressions (code_view job.entry.code.now)
        job.entry.budget (left_view merged.entry.left)
        (after_output run.old.output.items (merges.end_view globals.old merged.entry)))
        globals.new) }
{
    let alloc = run.alloc;
    let before = mem::replace(&mut run.output, Vec::new(alloc));
    run.state = merged.state;
    let ending = run_after_records(job, merged.left, globals, run)?;
    let specials = run.state.specials(alloc)?;
    let behind = mem::replace(&mut run.output, Vec::new(alloc));
    Ok(Finish {
        output: output_of(alloc, before, merged.outputs, behind)?,
        specials,
        ending,
    })
}

/// Goes on after records that were merged into the globals.
pub(crate) fn go_on_merged<'a>(
    job: Job<'_>,
    prologue: Prologue<'a>,
    merged: Merged<'a>,
) -> Result<Outcome, AllocError>
    ensures { IfOk result (Answers (after_records calls
        (code_view job.entry.code.now).expressions (code_view job.entry.code.now)
        job.entry.budget (left_view merged.entry.left)
        (after_output prologue.entry.run.output.items
        (merges.end_view prologue.entry.globals merged.entry)))) }
{
    let Prologue {
        globals,
        run,
        left: _,
    } = prologue;
    let (mut globals, mut run) = (globals, run);
    let finish = end_merged(job, &mut globals, &mut run, merged)?;
    Ok(Outcome::of(finish, globals))
}
