//! Pieces that are run in chunks.

ghost use Rattle.std.specs.Prelude.{◌≡◌, ◌<◌, ◌≤◌, [], length, IfOk};
ghost use Rattle.pawk_board.specs.Limits.{most_chunks, IsCrew};
ghost use Rattle.pawk_code.specs.ProgramViews.{code_view};
ghost use Rattle.pawk_input.specs.Input.{files_of};
ghost use Rattle.pawk_input.specs.Plan.{AreConsecutive, ArePlaced};
ghost use Rattle.pawk_admit.specs.Roles.{roles_view};
ghost use Rattle.pawk_store.specs.StateViews.{state_of};
ghost use Rattle.pawk_merge_law.specs.Phases.{MayRun, in_order};
ghost use Rattle.pawk_merge_law.specs.Gathered.{AreNumbered};
ghost use Rattle.pawk_chunks.specs.Task.{IsChunked, items_in};
ghost use Rattle.pawk_routes.specs.Cuttings.{IsSized};
ghost use Rattle.pawk_routes.specs.Prologue.{end_of};
ghost use Rattle.pawk_pieces.specs.Pieces.{GoesInChunks, RunsPiece, phase_between, piece_end};
ghost use Rattle.pawk_flow.specs.Stages.{EndsAs, LeavesOut, RunsOn, WentFar, flow_end, phase_in};

use crate::stage::{merge_chunks, run_from};
use pawk_admit::Roles;
use pawk_chunks::{Chunked, Gate};
use pawk_input::Input;
use pawk_merge::{Extent, Merged};
use pawk_merge_law::window_law::{faults_follow, numbers_alike};
use pawk_pieces::{
    Flow, Job, Left, Piece, PieceEnd, PieceRefusal, PlainStore, Run, bytes_of, input_of,
    plan_after, results_merge_far,
};
use pawk_routes::{Prologue, Way, plan_of};
use pawk_store::{Globals, RecordState};
use std::alloc::{AllocError, Global};
use std::mem;
use std::sync::Wait;
use std::thread::Threads;

/// What the records of a piece leave beside the globals.
#[derive(Drop)]
struct Remnant<'a> {
    outputs: Vec<Vec<u8>>,
    left: Left,
    state: RecordState<'a>,
    is_stopped: bool,
}

/// Goes on after chunks that were merged: where all were, that is the end; else the others are run one after the other.
fn run_on<'a>(
    job: Job<'_>,
    prologue: &mut Prologue<'a>,
    source: Chunked<'_, 'a>,
    extent: Extent<'a>,
) -> Result<Remnant<'a>, AllocError>
    requires chunked { IsChunked source }
    requires placed { ArePlaced source.rs.now (files_of source.input.now) source.plan.now }
    requires consecutive { AreConsecutive source.rs.now (files_of source.input.now)
        source.plan.now }
    requires left { LeavesOut source extent }
    requires output { prologue.old.run.output.items ≡ [] }
    ensures { IfOk result (RunsOn (code_view job.entry.code.now) job.entry.budget source.entry
        prologue.old.globals extent.entry prologue.new.globals) }
{
    let Extent {
        merged,
        stop,
        noted: _,
    } = extent;
    let Merged {
        outputs,
        left,
        state,
    } = merged;
    if stop.is_none() {
        return Ok(Remnant {
            outputs,
            left,
            state,
            is_stopped: false,
        });
    }
    let alloc = prologue.run.alloc;
    let mut outputs = outputs;
    prologue.run.state = state;
    prologue.left = left;
    run_from(job, prologue, source, outputs.len())?;
    outputs.push(mem::replace(&mut prologue.run.output, Vec::new(alloc)))?;
    Ok(Remnant {
        outputs,
        left: prologue.left,
        state: mem::replace(&mut prologue.run.state, RecordState::new(alloc, 0)?),
        is_stopped: true,
    })
}

/// A run that goes on from these globals and this record state: nothing is written yet.
///
/// The error comes where memory was refused.
fn prologue_from<'a>(
    alloc: Global,
    job: Job<'_>,
    globals: Globals,
    state: RecordState<'a>,
) -> Result<Prologue<'a>, AllocError>
    ensures end { IfOk result (λ b.
        end_of b ≡ flow_end globals (state_of state.entry)) }
    ensures output { IfOk result (λ b. b.run.output.items ≡ []) }
{
    Ok(Prologue {
        globals,
        run: Run::new(alloc, state, job.budget, job.code.expressions.len())?,
        left: Left::Through,
    })
}

/// The end of a piece, which has the bytes of this input, and was cut into so many chunks: where there is none, no record
/// came, after `fnr` of the file; else the end's `fnr` is that of the last.
pub(crate) fn close(alloc: Global, end: PieceEnd, input: Input, chunks: usize, fnr: u64) -> PieceEnd
    ensures same { EndsAs end result }
    ensures none { chunks ≡ 0 → result.fnr ≡ fnr }
    ensures some { 0 < chunks → result.fnr ≡ end.fnr }
{
    let fnr = if chunks == 0 { fnr } else { end.fnr };
    PieceEnd {
        outputs: end.outputs,
        left: end.left,
        fnr,
        bytes: bytes_of(alloc, input),
        is_stopped: end.is_stopped,
        noted: end.noted,
    }
}

/// Runs the chunks of a source by workers as far as they can be merged, and the others one after the other. The end's `fnr`
/// is the record state's, and its bytes are not there yet.
///
/// `Memory` comes where memory was refused, and `Thread` where a worker could not be started, which the gate did not allow.
fn run_in_chunks<'a, G: Gate + Sync, R: Threads + Wait>(
    rt: &R,
    job: Job<'_>,
    prologue: Prologue<'a>,
    roles: &Roles,
    source: Chunked<'_, 'a>,
    workers: usize,
    gate: &G,
) -> Result<(Flow, PieceEnd), PieceRefusal>
    requires chunked { IsChunked source }
    requires few { length source.plan.now ≤ most_chunks }
    requires placed { ArePlaced source.rs.now (files_of source.input.now) source.plan.now }
    requires consecutive { AreConsecutive source.rs.now (files_of source.input.now)
        source.plan.now }
    requires workers { IsCrew workers }
    requires output { prologue.run.output.items ≡ [] }
    requires ready { MayRun (phase_in job roles.now prologue) }
    requires numbered { AreNumbered prologue.run.state.nr (items_in source) }
    ensures ends { IfOk result (λ r. in_order (phase_in job.entry roles.now prologue.entry)
        (items_in source.entry) ≡ piece_end r.0 r.1) }
    ensures fnr { IfOk result (λ r. r.1.fnr ≡ r.0.state.fnr) }
    ensures went { IfOk result (λ r. WentFar (phase_in job.entry roles.now prologue.entry)
        (items_in source.entry) (piece_end r.0 r.1) r.1.is_stopped) }
{
    results_merge_far();
    let alloc = prologue.run.alloc;
    let mut prologue = prologue;
    let extent = merge_chunks(rt, job, &mut prologue, roles, source, workers, gate)?;
    let noted = extent.noted;
    let remnant = run_on(job, &mut prologue, source, extent)?;
    let fnr = remnant.state.fnr;
    let flow = Flow {
        alloc,
        globals: prologue.globals,
        state: remnant.state.keep(alloc)?,
    };
    let end = PieceEnd {
        outputs: remnant.outputs,
        left: remnant.left,
        fnr,
        bytes: Vec::new(alloc),
        is_stopped: remnant.is_stopped,
        noted,
    };
    Ok((flow, end))
}

/// Runs the next piece of a file in chunks of at least the way's size, by its workers, and merges what they leave; where a
/// chunk cannot be merged, it and the records after it are run one after the other. What the records do with each global is
/// given by the roles. The gate is called round each chunk that is run, on its worker's thread; all threads have ended when
/// this returns. What was lent is unchanged.
///
/// `Memory` comes where memory was refused, `Thread` where a worker could not be started, which the gate did not allow, and
/// `Input` where the records cannot be counted on.
///
/// POSIX.1-2017, awk, "Overall Program Structure".
pub fn run_piece_in_chunks<G: Gate + Sync, R: Threads + Wait>(
    rt: &R,
    job: Job<'_>,
    flow: Flow,
    roles: &Roles,
    piece: Piece<'_>,
    way: Way<'_>,
    gate: &G,
) -> Result<(Flow, PieceEnd), PieceRefusal>
    requires one_byte { length piece.rs.now ≤ 1 }
    requires sized { IsSized way.cutting.now }
    requires workers { IsCrew way.workers }
    requires ready { MayRun
        (phase_between (code_view job.code.now) (roles_view roles.now) job.budget flow) }
    ensures runs { IfOk result (λ r. RunsPiece (code_view job.entry.code.now) job.entry.budget
        piece.entry flow r.0 r.1) }
    ensures goes { IfOk result (λ r. GoesInChunks (code_view job.entry.code.now)
        (roles_view roles.now) job.entry.budget piece.entry flow r.0 r.1.is_stopped) }
{
    numbers_alike::<PlainStore>();
    faults_follow();
    let Flow {
        alloc,
        globals,
        state: kept,
    } = flow;
    let mut kept = kept;
    let (rs, fnr) = (piece.rs, piece.fnr);
    let input = input_of(alloc, piece.name, piece.bytes)?;
    let plan = plan_of(rt, alloc, &input, rs, way, gate)?;
    let state = kept.lend();
    let plan = plan_after(plan, &input, rs, state.nr, fnr)?;
    let source = Chunked {
        input: &input,
        plan: &plan,
        rs,
    };
    let prologue = prologue_from(alloc, job, globals, state)?;
    let (flow, end) = run_in_chunks(rt, job, prologue, roles, source, way.workers, gate)?;
    let chunks = plan.len();
    Ok((flow, close(alloc, end, input, chunks, fnr)))
}
