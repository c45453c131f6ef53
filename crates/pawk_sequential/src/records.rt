//! Records one after the other.

ghost use Rattle.std.specs.Prelude.{◌≡◌, ◌≤◌, ℕ, length, IfOk, OnOk, None};
ghost use Rattle.pawk_code.specs.ProgramViews.{code_view};
ghost use Rattle.pawk_input.specs.Input.{item_of};
ghost use Rattle.pawk_input.specs.Walk.{items_left};
ghost use Rattle.pawk_store.specs.Runs.{records_from};
ghost use Rattle.pawk_store.specs.Runs as spec;
ghost use Rattle.pawk_store.specs.LeftViews.{left_view};
ghost use Rattle.pawk_store.specs.declared.left.Left.{Left};
ghost use Rattle.pawk_store.specs.declared.left.Left.TheVariants.{Through};
ghost use Rattle.pawk_sequential.specs.Ends.{end_view};
ghost use Rattle.pawk_sequential.specs.Ends as ends;
ghost use Rattle.pawk_code.specs.Programs.{Code};
ghost use Rattle.pawk_prefilter.specs.Passages.{IsPassage};

use crate::job::Job;
use crate::part::record;
use pawk_input::{Item, Records};
use pawk_prefilter::Passage;
use pawk_runtime::Run;
use pawk_store::Left;
use pawk_world::World;
use std::alloc::AllocError;

/// Whether a record is of the file whose rest is left unread.
fn is_skipped(skip: Option<usize>, item: &Item<'_>) -> bool
    ensures { result ≡ spec.is_skipped skip (item_of item.now) }
{
    match skip {
        Some(file) => item.file == file,
        None => false,
    }
}

/// The file whose rest is left unread after this record.
fn file_left(left: Left, item: &Item<'_>) -> Option<usize>
    ensures { result ≡ ends.file_left (left_view left) item.now.file }
{
    match left {
        Left::Through => None,
        Left::NextFile => Some(item.file),
        Left::Exit(_) => None,
        Left::Fault(_) => None,
        Left::Clash => None,
    }
}

/// Whether no record is read after a part that is left so.
fn ends_records(left: Left) -> bool
    ensures { result ≡ ends.ends_records (left_view left) }
{
    match left {
        Left::Through => false,
        Left::NextFile => false,
        Left::Exit(_) => true,
        Left::Fault(_) => true,
        Left::Clash => true,
    }
}

/// Passes over records that no rule is for, unless those of a file are left unread.
#[inline(always)]
fn pass_over<W: World>(
    passage: &mut Passage,
    skip: Option<usize>,
    records: &mut Records<'_>,
    world: &W,
    run: &mut Run<'_>,
) -> Result<(), AllocError>
    ensures same { passage.new ≡ passage.old }
    ensures fewer { length (items_left records.new) ≤ length (items_left records.old) }
    ensures passed { OnOk result ((code : Code) → IsPassage code passage.old →
        (budget : ℕ) (left : Left) →
        records_from W.calls code.expressions code budget skip
        (end_view (W.state world.now) run.new left) (items_left records.new)
        ≡ records_from W.calls code.expressions code budget skip
        (end_view (W.state world.now) run.old left) (items_left records.old)) }
{
    match skip {
        Some(_) => Ok(()),
        None => passage.pass_over(records, world, &mut run.state),
    }
}

/// Runs the rules on each record, of which none is passed over.
fn run_each<'a, W: World>(
    job: Job<'_>,
    records: Records<'a>,
    world: &mut W,
    run: &mut Run<'a>,
) -> Result<Left, AllocError>
    ensures { IfOk result (λ left. records_from W.calls (code_view job.entry.code.now).expressions
        (code_view job.entry.code.now) job.entry.budget None
        (end_view (W.state world.old) run.old Through) (items_left records.entry)
        ≡ end_view (W.state world.new) run.new left) }
{
    let context = job.context();
    let rules = job.code.rules.as_slice();
    let mut skip = None;
    let mut left = Left::Through;
    for item in records {
        if is_skipped(skip, &item) {
            continue;
        }
        left = record(context, rules, job.budget, &item, world, run)?;
        if ends_records(left) {
            return Ok(left);
        }
        skip = file_left(left, &item);
    }
    Ok(left)
}

/// Runs the rules on each record that they may be for; the others are passed over.
#[inline(never)]
fn run_needed<'a, W: World>(
    job: Job<'_>,
    passage: Passage,
    records: Records<'a>,
    world: &mut W,
    run: &mut Run<'a>,
) -> Result<Left, AllocError>
    requires { IsPassage (code_view job.code.now) passage }
    ensures { IfOk result (λ left. records_from W.calls (code_view job.entry.code.now).expressions
        (code_view job.entry.code.now) job.entry.budget None
        (end_view (W.state world.old) run.old Through) (items_left records.entry)
        ≡ end_view (W.state world.new) run.new left) }
{
    let context = job.context();
    let rules = job.code.rules.as_slice();
    let mut passage = passage;
    let mut records = records;
    let mut skip = None;
    let mut left = Left::Through;
    loop {
        pass_over(&mut passage, skip, &mut records, world, run)?;
        let Some(item) = records.next() else {
            return Ok(left);
        };
        if is_skipped(skip, &item) {
            continue;
        }
        left = record(context, rules, job.budget, &item, world, run)?;
        if ends_records(left) {
            return Ok(left);
        }
        skip = file_left(left, &item);
    }
}

/// Runs the rules on each record, which may take the steps that the job allows; the output is appended to what is
/// there. `nextfile` leaves the rest of its file unread.
///
/// POSIX.1-2017, awk, "Overall Program Structure".
pub fn run_records<'a, W: World>(
    job: Job<'_>,
    records: Records<'a>,
    world: &mut W,
    run: &mut Run<'a>,
) -> Result<Left, AllocError>
    ensures { IfOk result (λ left. records_from W.calls (code_view job.entry.code.now).expressions
        (code_view job.entry.code.now) job.entry.budget None
        (end_view (W.state world.old) run.old Through) (items_left records.entry)
        ≡ end_view (W.state world.new) run.new left) }
{
    let passage = Passage::of(run.alloc, job.code)?;
    if passage.passes_none() {
        return run_each(job, records, world, run);
    }
    run_needed(job, passage, records, world, run)
}
