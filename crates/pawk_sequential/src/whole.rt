//! Whole runs.

ghost use Rattle.std.specs.Prelude.{◌≡◌, ◌<◌, ◌≤◌, [], length, IfOk, MatchOption};
ghost use Rattle.pawk_code.specs.ProgramViews.{code_view};
ghost use Rattle.pawk_input.specs.Input.{IsReady, files_of, items};
ghost use Rattle.pawk_store.specs.Slots.{rs_slot};
ghost use Rattle.pawk_store.specs.StateViews.{state_of};
ghost use Rattle.pawk_value.specs.Conversion.{text_of};
ghost use Rattle.pawk_store.specs.Records.{run_part};
ghost use Rattle.pawk_store.specs.Records as record_spec;
ghost use Rattle.pawk_store.specs.Runs.{ends_from, after_begin, after_records, records_by_rs};
ghost use Rattle.pawk_store.specs.Runs as spec;
ghost use Rattle.pawk_store.specs.LeftViews.{left_view};
ghost use Rattle.pawk_store.specs.declared.left.Left.TheVariants.{Through};
ghost use Rattle.pawk_sequential.specs.Ends.{end_view};
ghost use Rattle.pawk_sequential.specs.RunEnds.{Finishes, finish_view, run_and_end};

use crate::ending::{Ending, Place};
use crate::finish::Finish;
use crate::{Job, Left, actions, run_records};
use itoa::Buffer;
use pawk_code::slots::RS;
use pawk_input::Input;
use pawk_runtime::Run;
use pawk_value::{Fault, text_in};
use pawk_world::World;
use std::alloc::AllocError;

/// Runs the actions of END.
fn run_end<W: World>(job: Job<'_>, world: &mut W, run: &mut Run<'_>) -> Result<Ending, AllocError>
    ensures { IfOk result (λ ending. ends_from W.calls (code_view job.entry.code.now).expressions
        (code_view job.entry.code.now) job.entry.budget
        (end_view (W.state world.old) run.old Through)
        ≡ finish_view (W.state world.new) run.new ending) }
{
    let left = actions(
        job.context(),
        job.code.ends.as_slice(),
        job.budget,
        world,
        run,
    )?;
    match left {
        Left::Through => Ok(Ending::Status(run.state.status)),
        Left::NextFile => Ok(Ending::Status(run.state.status)),
        Left::Exit(status) => Ok(Ending::Status(status)),
        Left::Fault(fault) => Ok(Ending::Fault(fault, Place::End)),
        Left::Clash => Ok(Ending::Disallowed),
    }
}

/// Goes on after records that were left so: with END, unless they ended in a fault or did what the world
/// does not allow. A fault is at the record that was read last.
///
/// POSIX.1-2017, awk, "Actions" (exit).
pub fn run_after_records<W: World>(
    job: Job<'_>,
    left: Left,
    world: &mut W,
    run: &mut Run<'_>,
) -> Result<Ending, AllocError>
    ensures { IfOk result (λ ending. after_records W.calls
        (code_view job.entry.code.now).expressions (code_view job.entry.code.now)
        job.entry.budget (left_view left)
        (end_view (W.state world.old) run.old left)
        ≡ finish_view (W.state world.new) run.new ending) }
{
    match left {
        Left::Through => run_end(job, world, run),
        Left::NextFile => run_end(job, world, run),
        Left::Exit(_) => run_end(job, world, run),
        Left::Fault(fault) => Ok(Ending::Fault(fault, Place::Record(run.state.nr))),
        Left::Clash => Ok(Ending::Disallowed),
    }
}

/// Takes RS as it is now, and gives its bytes.
///
/// POSIX.1-2017, awk, "Variables and Special Variables" (RS).
fn take_separator<W: World>(world: &W, run: &mut Run<'_>) -> Result<Vec<u8>, AllocError>
    ensures text { IfOk result (λ rs.
        rs.items ≡ text_of (W.calls.look rs_slot (W.state world.now))) }
    ensures taken { IfOk result (λ rs. spec.take_separator rs.items
        (end_view (W.state world.now) run.old Through)
        ≡ end_view (W.state world.now) run.new Through) }
{
    let mut buffer = Buffer::new();
    let rs = Vec::from_slice(run.alloc, text_in(world.scalar(RS), &mut buffer))?;
    run.state.taken = Some(Vec::from_slice(run.alloc, rs.as_slice())?);
    Ok(rs)
}

/// Takes RS as it is now and makes the input ready for it, and gives its bytes; nothing where they are
/// several. The input's names and bytes stay as they are.
///
/// POSIX.1-2017, awk, "Variables and Special Variables" (RS).
pub fn make_ready<W: World>(
    world: &W,
    input: &mut Input,
    run: &mut Run<'_>,
) -> Result<Option<Vec<u8>>, AllocError>
    ensures taken { IfOk result (λ _. spec.take_separator
        (text_of (W.calls.look rs_slot (W.state world.now)))
        (end_view (W.state world.now) run.old Through)
        ≡ end_view (W.state world.now) run.new Through) }
    ensures ready { IfOk result (λ found. MatchOption found
        (1 < length (text_of (W.calls.look rs_slot (W.state world.now))))
        (λ rs. (rs.items ≡ text_of (W.calls.look rs_slot (W.state world.now)))
        × (length rs.items ≤ 1) × IsReady rs.items input.new)) }
    ensures same { files_of input.new ≡ files_of input.old }
{
    let rs = take_separator(world, run)?;
    if rs.len() > 1 {
        return Ok(None);
    }
    input.mend(rs.as_slice())?;
    Ok(Some(rs))
}

/// Runs all records, as this RS ends them, and then END. The output is taken out of the run.
fn run_mended<'a, W: World>(
    job: Job<'_>,
    rs: &[u8],
    input: &'a Input,
    world: &mut W,
    run: &mut Run<'a>,
) -> Result<Finish, AllocError>
    requires one_byte { length rs.now ≤ 1 }
    requires ready { IsReady rs.now input.now }
    ensures { IfOk result (Finishes (run_and_end W.calls
        (code_view job.entry.code.now) job.entry.budget
        (items rs.now (files_of input.now)) (end_view (W.state world.old) run.old Through))
        (W.state world.new)) }
{
    let left = run_records(job, input.records(rs), world, run)?;
    let ending = run_after_records(job, left, world, run)?;
    Finish::of(run, ending)
}

/// Reads and runs all records, by RS as it is now, and then END.
fn run_input<W: World>(
    job: Job<'_>,
    input: &mut Input,
    world: &mut W,
    run: Run<'_>,
) -> Result<Finish, AllocError>
    ensures ends { IfOk result (Finishes (records_by_rs W.calls
        (code_view job.entry.code.now).expressions
        (code_view job.entry.code.now) job.entry.budget
        (text_of (W.calls.look rs_slot (W.state world.old))) (files_of input.old)
        (end_view (W.state world.old) run.entry Through)) (W.state world.new)) }
    ensures same { files_of input.new ≡ files_of input.old }
{
    let mut run = run;
    match make_ready(world, input, &mut run)? {
        Some(rs) => run_mended(job, rs.as_slice(), input, world, &mut run),
        None => Finish::of(&mut run, Ending::Fault(Fault::Rs, Place::Record(1))),
    }
}

/// Runs the actions of BEGIN. The output is appended to what is there.
///
/// POSIX.1-2017, awk, "Overall Program Structure".
pub fn run_begin<W: World>(
    job: Job<'_>,
    world: &mut W,
    run: &mut Run<'_>,
) -> Result<Left, AllocError>
    ensures { IfOk result (λ left. run_part (record_spec.actions W.calls
        (code_view job.entry.code.now).expressions (code_view job.entry.code.now).functions
        (code_view job.entry.code.now).begins) job.entry.budget
        (W.state world.old) (state_of run.old.state) run.old.output.items
        ≡ end_view (W.state world.new) run.new left) }
{
    let bodies = job.code.begins.as_slice();
    actions(job.context(), bodies, job.budget, world, run)
}

/// Runs the actions of END, the last of a run.
fn close<W: World>(job: Job<'_>, world: &mut W, run: Run<'_>) -> Result<Finish, AllocError>
    ensures { IfOk result (Finishes (ends_from W.calls (code_view job.entry.code.now).expressions
        (code_view job.entry.code.now) job.entry.budget
        (end_view (W.state world.old) run.entry Through)) (W.state world.new)) }
{
    let mut run = run;
    let ending = run_end(job, world, &mut run)?;
    Finish::of(&mut run, ending)
}

/// Goes on after BEGIN that was left so: with each record of the input and then END, or with END where
/// BEGIN was left by `exit` or no record is read. The output is appended to what is there. The input's names
/// and bytes stay as they are.
///
/// POSIX.1-2017, awk, "Overall Program Structure" and "Actions" (exit).
pub fn run_after_begin<W: World>(
    job: Job<'_>,
    left: Left,
    input: &mut Input,
    world: &mut W,
    run: Run<'_>,
) -> Result<Finish, AllocError>
    ensures ends { IfOk result (Finishes (after_begin W.calls
        (code_view job.entry.code.now).expressions
        (code_view job.entry.code.now) job.entry.budget (files_of input.old) (left_view left)
        (end_view (W.state world.old) run.entry left)) (W.state world.new)) }
    ensures same { files_of input.new ≡ files_of input.old }
{
    let mut run = run;
    match left {
        Left::Through => {
            if job.reads_records() {
                run_input(job, input, world, run)
            } else {
                close(job, world, run)
            }
        }
        Left::NextFile => close(job, world, run),
        Left::Exit(_) => close(job, world, run),
        Left::Fault(fault) => Finish::of(&mut run, Ending::Fault(fault, Place::Begin)),
        Left::Clash => Finish::of(&mut run, Ending::Disallowed),
    }
}

/// Runs a program: BEGIN, then each record of the input, then END, over a world and from a run whose
/// output is empty. The input's names and bytes stay as they are.
///
/// POSIX.1-2017, awk, "Overall Program Structure".
pub fn run_program<W: World>(
    job: Job<'_>,
    input: &mut Input,
    world: &mut W,
    run: Run<'_>,
) -> Result<Finish, AllocError>
    requires { run.output.items ≡ [] }
    ensures ends { IfOk result (Finishes (spec.run W.calls
        (code_view job.entry.code.now).expressions
        (code_view job.entry.code.now) job.entry.budget (files_of input.old)
        (W.state world.old) (state_of run.entry.state)) (W.state world.new)) }
    ensures same { files_of input.new ≡ files_of input.old }
{
    let mut run = run;
    let left = run_begin(job, world, &mut run)?;
    run_after_begin(job, left, input, world, run)
}
