//! Pieces whose records are run one after the other.

ghost use Rattle.std.specs.Prelude.{◌≡◌, ◌+◌, ◌≤◌, false, length, IfOk, None};
ghost use Rattle.pawk_code.specs.ProgramViews.{code_view};
ghost use Rattle.pawk_input.specs.Input.{files_of};
ghost use Rattle.pawk_input.specs.Plan.{AreConsecutive, ArePlaced};
ghost use Rattle.pawk_store.specs.LeftViews.{left_view};
ghost use Rattle.pawk_store.specs.Records.{through};
ghost use Rattle.pawk_store.specs.Runs.{records_from};
ghost use Rattle.pawk_store.specs.declared.left.Left.TheVariants.{Through};
ghost use Rattle.pawk_pieces.specs.Ends.{end_view};
ghost use Rattle.pawk_chunks.specs.Task.{IsChunked, items_in};
ghost use Rattle.pawk_merge_law.specs.Flows.{FnrLaw, NumbersLaw};
ghost use Rattle.pawk_pieces.specs.Pieces.{RunsPiece, passed_end, piece_items, piece_records};
ghost use Rattle.pawk_flow.specs.Stages.{flow_end};

use crate::stage::run_all;
use crate::window::close;
use pawk_chunks::Chunked;
use pawk_merge_law::window_law::numbers_alike;
use pawk_pieces::{
    Flow, Job, Piece, PieceEnd, PieceRefusal, PlainStore, Run, input_of, plan_after, plan_of_one,
};
use pawk_store::KeptState;
use pawk_world::World;
use std::alloc::{AllocError, Global};

/// Runs the chunks of a source over a world, one record after the other, from a run without output. Gives the record state
/// and the end, whose `fnr` is the record state's, and whose bytes are not there yet.
///
/// The error comes where memory was refused.
fn run_in_turn<'a, W: World>(
    job: Job<'_>,
    world: &mut W,
    run: Run<'a>,
    source: Chunked<'_, 'a>,
) -> Result<(KeptState, PieceEnd), AllocError>
    requires chunked { IsChunked source }
    requires placed { ArePlaced source.rs.now (files_of source.input.now) source.plan.now }
    requires consecutive { AreConsecutive source.rs.now (files_of source.input.now)
        source.plan.now }
    ensures ends { IfOk result (λ r. records_from W.calls
        (code_view job.entry.code.now).expressions (code_view job.entry.code.now)
        job.entry.budget None (end_view (W.state world.old) run.entry Through)
        (items_in source.entry) ≡ passed_end (W.state world.new) r.0 r.1) }
    ensures fnr { IfOk result (λ r. r.1.fnr ≡ r.0.fnr) }
    ensures goes { IfOk result (λ r. r.1.is_stopped ≡ false) }
{
    let alloc = run.alloc;
    let mut run = run;
    let left = run_all(job, world, &mut run, source)?;
    let mut outputs = Vec::new(alloc);
    outputs.push(run.output)?;
    let fnr = run.state.fnr;
    let end = PieceEnd {
        outputs,
        left,
        fnr,
        bytes: Vec::new(alloc),
        is_stopped: false,
        noted: 0,
    };
    Ok((run.state.keep(alloc)?, end))
}

/// Runs a piece over a world, one record after the other, from the record state that the records before it left; gives the
/// one that it leaves, and its end. That records may be numbered otherwise over the world is the caller's to know.
///
/// `Memory` comes where memory was refused, and `Input` where the records cannot be counted on.
///
/// POSIX.1-2017, awk, "Overall Program Structure".
pub(crate) fn run_piece_over<W: World>(
    alloc: Global,
    job: Job<'_>,
    world: &mut W,
    kept: KeptState,
    piece: Piece<'_>,
) -> Result<(KeptState, PieceEnd), PieceRefusal>
    requires one_byte { length piece.rs.now ≤ 1 }
    requires numbers { NumbersLaw W.calls }
    requires fnr { FnrLaw W.calls }
    ensures ends { IfOk result (λ r. records_from W.calls
        (code_view job.entry.code.now).expressions (code_view job.entry.code.now)
        job.entry.budget None (flow_end (W.state world.old) kept) (piece_items piece.entry)
        ≡ passed_end (W.state world.new) r.0 r.1) }
    ensures counts { IfOk result (λ r. left_view r.1.left ≡ through
        → r.1.fnr ≡ piece.entry.fnr + length (piece_records piece.entry)) }
    ensures goes { IfOk result (λ r. r.1.is_stopped ≡ false) }
{
    let mut kept = kept;
    let (rs, fnr) = (piece.rs, piece.fnr);
    let input = input_of(alloc, piece.name, piece.bytes)?;
    let plan = plan_of_one(alloc, &input, rs)?;
    let plan = plan_after(plan, &input, rs, fnr, fnr)?;
    let source = Chunked {
        input: &input,
        plan: &plan,
        rs,
    };
    let run = Run::new(alloc, kept.lend(), job.budget, job.code.expressions.len())?;
    let (state, end) = run_in_turn(job, world, run, source)?;
    let chunks = plan.len();
    Ok((state, close(alloc, end, input, chunks, fnr)))
}

/// Runs the next piece of a file one record after the other.
///
/// `Memory` comes where memory was refused, and `Input` where the records cannot be counted on.
///
/// POSIX.1-2017, awk, "Overall Program Structure".
pub fn run_piece_in_turn(
    job: Job<'_>,
    flow: Flow,
    piece: Piece<'_>,
) -> Result<(Flow, PieceEnd), PieceRefusal>
    requires one_byte { length piece.rs.now ≤ 1 }
    ensures runs { IfOk result (λ r. RunsPiece (code_view job.entry.code.now) job.entry.budget
        piece.entry flow r.0 r.1) }
    ensures goes { IfOk result (λ r. r.1.is_stopped ≡ false) }
{
    numbers_alike::<PlainStore>();
    let Flow {
        alloc,
        globals,
        state,
    } = flow;
    let mut globals = globals;
    let (state, end) = run_piece_over(alloc, job, &mut globals, state, piece)?;
    let flow = Flow {
        alloc,
        globals,
        state,
    };
    Ok((flow, end))
}
