//! Records of a piece that are run.

ghost use Rattle.std.specs.Prelude.{◌≡◌, ◌<◌, ◌≤◌, None, drop, flat_map, length, OnOk, IfOk};
ghost use Rattle.pawk_board.specs.Limits.{most_chunks, IsCrew};
ghost use Rattle.pawk_code.specs.ProgramViews.{code_view};
ghost use Rattle.pawk_input.specs.Input.{files_of};
ghost use Rattle.pawk_input.specs.Plan.{AreConsecutive, ArePlaced, chunk_items};
ghost use Rattle.pawk_store.specs.Globals.{calls};
ghost use Rattle.pawk_store.specs.Records.{through};
ghost use Rattle.pawk_store.specs.Runs.{records_from};
ghost use Rattle.pawk_store.specs.declared.left.Left.TheVariants.{Through};
ghost use Rattle.pawk_pieces.specs.Ends.{end_view};
ghost use Rattle.pawk_chunks.specs.Task.{IsChunked, items_in};
ghost use Rattle.pawk_routes.specs.Prologue.{end_of};
ghost use Rattle.pawk_flow.specs.Stages.{IsFarFrom};

use pawk_admit::Roles;
use pawk_chunks::{Chunked, Gate, Opening, run_chunks};
use pawk_merge::{Extent, merge_far};
use pawk_pieces::{Job, Left, PieceRefusal, Run, run_records};
use pawk_routes::Prologue;
use pawk_store::RecordState;
use pawk_world::World;
use std::alloc::AllocError;
use std::mem;
use std::sync::Wait;
use std::thread::Threads;

/// Runs the records of the chunks from a place on, one after the other; the output is appended to what is there.
///
/// The error comes where memory was refused.
pub(crate) fn run_from<'a>(
    job: Job<'_>,
    prologue: &mut Prologue<'a>,
    source: Chunked<'_, 'a>,
    place: usize,
) -> Result<(), AllocError>
    requires through { (end_of prologue.old).left ≡ through }
    requires chunked { IsChunked source }
    requires placed { ArePlaced source.rs.now (files_of source.input.now) source.plan.now }
    requires consecutive { AreConsecutive source.rs.now (files_of source.input.now)
        source.plan.now }
    requires chunk { place < length source.plan.now }
    ensures { OnOk result (records_from calls (code_view job.entry.code.now).expressions
        (code_view job.entry.code.now) job.entry.budget None (end_of prologue.old)
        (flat_map (chunk_items source.entry.rs.now (files_of source.entry.input.now))
        (drop place source.entry.plan.now)) ≡ end_of prologue.new) }
{
    let records = source.plan.walk_from(source.input, source.rs, place);
    prologue.left = run_records(job, records, &mut prologue.globals, &mut prologue.run)?;
    Ok(())
}

/// Runs the records of all chunks, one after the other, over a world; the output is appended to what is there.
///
/// The error comes where memory was refused.
pub(crate) fn run_all<'a, W: World>(
    job: Job<'_>,
    world: &mut W,
    run: &mut Run<'a>,
    source: Chunked<'_, 'a>,
) -> Result<Left, AllocError>
    requires chunked { IsChunked source }
    requires placed { ArePlaced source.rs.now (files_of source.input.now) source.plan.now }
    requires consecutive { AreConsecutive source.rs.now (files_of source.input.now)
        source.plan.now }
    ensures { IfOk result (λ left. records_from W.calls (code_view job.entry.code.now).expressions
        (code_view job.entry.code.now) job.entry.budget None
        (end_view (W.state world.old) run.old Through) (items_in source.entry)
        ≡ end_view (W.state world.new) run.new left) }
{
    if source.plan.len() == 0 {
        return Ok(Left::Through);
    }
    let records = source.plan.walk_from(source.input, source.rs, 0);
    run_records(job, records, world, run)
}

/// Runs the chunks of a plan by workers, and merges what they leave as far as it can be. The output stays as it is.
///
/// `Memory` comes where memory was refused, and `Thread` where a worker could not be started, which the gate did not allow.
pub(crate) fn merge_chunks<'a, G: Gate + Sync, R: Threads + Wait>(
    rt: &R,
    job: Job<'_>,
    prologue: &mut Prologue<'a>,
    roles: &Roles,
    source: Chunked<'_, 'a>,
    workers: usize,
    gate: &G,
) -> Result<Extent<'a>, PieceRefusal>
    requires chunked { IsChunked source }
    requires few { length source.plan.now ≤ most_chunks }
    requires workers { IsCrew workers }
    ensures far { IfOk result (IsFarFrom job.entry roles.now source.entry prologue.old
        prologue.new.globals) }
    ensures output { IfOk result (λ _.
        prologue.new.run.output.items ≡ prologue.old.run.output.items) }
{
    let alloc = prologue.run.alloc;
    let opening = Opening {
        job,
        globals: &prologue.globals,
        roles,
        state: &prologue.run.state,
    };
    let results = run_chunks(rt, alloc, opening, source, workers, gate)?;
    let state = mem::replace(&mut prologue.run.state, RecordState::new(alloc, 0)?);
    Ok(merge_far(alloc, &mut prologue.globals, state, results)?)
}
