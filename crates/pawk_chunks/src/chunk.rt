//! The run of a chunk.

ghost use Rattle.std.specs.Prelude.{◌≡◌, ◌<◌, ◌≤◌, [], None, length, slice_get, IfOk, IfSome};
ghost use Rattle.std.specs.Option.{option_map};
ghost use Rattle.pawk_input.specs.Input.{IsReady, files_of};
ghost use Rattle.pawk_input.specs.Plan.{AreChunksOf};
ghost use Rattle.pawk_input.specs.Walk.{items_left};
ghost use Rattle.pawk_store.specs.StateViews.{state_of};
ghost use Rattle.pawk_frozen.specs.Frozens.{calls};
ghost use Rattle.pawk_store.specs.Runs.{records_from};
ghost use Rattle.pawk_chunks.specs.Openings.{opening_view};
ghost use Rattle.pawk_merge_law.specs.Chunks.{Leaves, chunk_begin, chunk_end};
ghost use Rattle.pawk_merge_law.specs.Chunks as spec;

use pawk_admit::Roles;
use pawk_frozen::Frozen;
use pawk_input::{Input, Plan, Records};
use pawk_merge::ChunkResult;
use pawk_record::Record;
use pawk_sequential::{Job, Run, run_records};
use pawk_store::{Globals, RecordState};
use std::alloc::{AllocError, Global};

/// What the chunks of a run begin with.
#[derive(Clone, Copy)]
pub struct Opening<'p, 'a> {
    pub job: Job<'p>,
    /// The globals that `BEGIN` left.
    pub globals: &'p Globals,
    /// What the records do with each of them.
    pub roles: &'p Roles,
    /// The record state that `BEGIN` left, with `RS` taken.
    pub state: &'p RecordState<'a>,
}

/// A copy of a text, if there is one.
fn copy_text(alloc: Global, text: &Option<Vec<u8>>) -> Result<Option<Vec<u8>>, AllocError>
    ensures { IfOk result (λ copy. option_map (λ bytes. bytes.items) copy
        ≡ option_map (λ bytes. bytes.items) text.now) }
{
    match text {
        Some(bytes) => Ok(Some(Vec::from_slice(alloc, bytes.as_slice())?)),
        None => Ok(None),
    }
}

/// The record state with which a chunk begins that comes after `nr` records.
fn chunk_state<'a>(
    alloc: Global,
    state: &RecordState<'a>,
    nr: u64,
) -> Result<RecordState<'a>, AllocError>
    ensures { IfOk result (λ copy. state_of copy ≡ spec.chunk_state nr (state_of state.now)) }
{
    Ok(RecordState {
        line: Record::new(alloc),
        nr,
        fnr: state.fnr,
        name: state.name,
        rstart: state.rstart,
        rlength: state.rlength,
        status: state.status,
        taken: copy_text(alloc, &state.taken)?,
        ranges: Vec::from_slice(alloc, state.ranges.as_slice())?,
    })
}

/// What the run of a chunk begins with that comes after `nr` records.
fn chunk_run<'a>(alloc: Global, opening: Opening<'_, 'a>, nr: u64) -> Result<Run<'a>, AllocError>
    ensures output { IfOk result (λ run. run.output.items ≡ []) }
    ensures state { IfOk result (λ run.
        state_of run.state ≡ spec.chunk_state nr (state_of opening.entry.state.now)) }
{
    let state = chunk_state(alloc, opening.state, nr)?;
    let expressions = opening.job.code.expressions.len();
    let run = Run::new(alloc, state, opening.job.budget, expressions)?;
    Ok(run)
}

/// Runs the records of a chunk that comes after `nr` records.
fn run_from<'a>(
    alloc: Global,
    opening: Opening<'_, 'a>,
    records: Records<'a>,
    nr: u64,
) -> Result<ChunkResult<'a>, AllocError>
    ensures { IfOk result (Leaves (records_from calls
        (opening_view opening.entry).code.expressions (opening_view opening.entry).code
        (opening_view opening.entry).budget None
        (chunk_begin (opening_view opening.entry).globals (opening_view opening.entry).roles nr
        (opening_view opening.entry).state) (items_left records.entry))) }
{
    let mut world = Frozen::new(alloc, opening.globals, opening.roles)?;
    let mut run = chunk_run(alloc, opening, nr)?;
    let left = run_records(opening.job, records, &mut world, &mut run)?;
    Ok(ChunkResult {
        output: run.output,
        table: world.table(),
        left,
        state: run.state,
    })
}

/// Runs the records of the chunk at a place of a plan, counted from 0, over the globals that
/// `BEGIN` left; `input` and `rs` are those that the plan was made of, and its chunks may come after
/// records of a larger input. No global is changed: what the records would change is noted.
///
/// POSIX.1-2017, awk, "Overall Program Structure".
pub fn run_chunk<'a>(
    alloc: Global,
    opening: Opening<'_, 'a>,
    plan: &Plan,
    input: &'a Input,
    rs: &[u8],
    place: usize,
) -> Result<ChunkResult<'a>, AllocError>
    requires chunk { place < length plan.now }
    requires plan { AreChunksOf rs.now (files_of input.now) plan.now }
    requires one_byte { length rs.now ≤ 1 }
    requires ready { IsReady rs.now input.now }
    ensures { IfOk result (λ left. IfSome (slice_get plan.now place) (λ c.
        Leaves (chunk_end (opening_view opening.entry) rs.now (files_of input.now) c) left)) }
{
    let records = plan.walk(input, rs, place);
    run_from(alloc, opening, records, plan.chunk(place).nr)
}
