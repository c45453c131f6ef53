//! One worker.

ghost use Rattle.std.specs.Prelude.{◌≡◌, ◌<◌, length, All, IfOk, MatchOption, OnErr};
ghost use Rattle.pawk_board.specs.Claims.{IsUndone, HasClaimed};
ghost use Rattle.pawk_chunks.specs.Task.{IsTask};
ghost use Rattle.pawk_chunks.specs.Worker.{HasWorked, IsResultOf, Runs, Skips, stops};

use crate::run_chunk;
use crate::task::Task;
use pawk_board::{BoardSeat, Claim};
use pawk_merge::ChunkResult;
use pawk_store::Left;
use pawk_workers::Gate;
use std::alloc::{AllocError, Global};

/// Whether no chunk after one that was left so is wanted.
fn is_stop(left: Left) -> bool
    ensures { result ≡ stops left }
{
    match left {
        Left::Through => false,
        _ => true,
    }
}

/// Runs a chunk between the calls of the gate.
fn run_watched<'a, G: Gate>(
    alloc: Global,
    task: &Task<'_, 'a>,
    gate: &G,
    chunk: u64,
) -> Result<ChunkResult<'a>, AllocError>
    requires task { IsTask task.now }
    requires chunk { chunk < length task.now.source.plan.now }
    ensures { IfOk result (λ r. IsResultOf task.now (chunk, r)) }
{
    let source = task.source;
    gate.enter(chunk);
    match run_chunk(
        alloc,
        task.opening,
        source.plan,
        source.input,
        source.rs,
        chunk as usize,
    ) {
        Ok(result) => {
            gate.leave(chunk, Some(result.output.as_slice()));
            Ok(result)
        }
        Err(error) => {
            gate.leave(chunk, None);
            Err(error)
        }
    }
}

/// Runs a chunk that was drawn, unless a stop below it is seen.
fn one_chunk<'a, G: Gate>(
    alloc: Global,
    task: &Task<'_, 'a>,
    seat: &mut BoardSeat,
    gate: &G,
    chunk: u64,
) -> Result<Option<ChunkResult<'a>>, AllocError>
    requires task { IsTask task.now }
    requires board { seat.old.board ≡ task.now.board.now.id }
    requires drawn { HasClaimed task.now.board.now.chunks seat.old.hand chunk }
    ensures board { seat.new.board ≡ seat.old.board }
    ensures seat { IfOk result (λ o. MatchOption o (Skips seat.old.hand chunk seat.new.hand)
        (λ r. IsResultOf task.now (chunk, r)
        × Runs seat.old.hand chunk (stops r.left) seat.new.hand)) }
    ensures drawn { OnErr result (seat.new.hand.drawn ≡ seat.old.hand.drawn) }
{
    if task.board.past_stop(seat, chunk) {
        return Ok(None);
    }
    let result = run_watched(alloc, task, gate, chunk)?;
    if is_stop(result.left) {
        task.board.stop_at(seat, chunk);
    }
    Ok(Some(result))
}

/// One worker, for a thread of any caller: it draws chunks from the task's board until none is left, runs each that it sees
/// no stop below, and gives the results with the chunks' numbers, counted from 0, in the order in which it drew them. Where
/// a chunk was not left through, it reports a stop there to the board. The gate is called round each chunk that is run.
///
/// The plan is of the task's input by its `RS`, of at most one byte, the board has as many chunks as the plan, and the
/// seat is the board's and was not told that none is left.
///
/// The error comes where memory was refused; it then draws no more, and the seat was not told that none is left.
pub fn work<'a, G: Gate>(
    alloc: Global,
    task: &Task<'_, 'a>,
    seat: &mut BoardSeat,
    gate: &G,
) -> Result<Vec<(u64, ChunkResult<'a>)>, AllocError>
    requires task { IsTask task.now }
    requires board { seat.old.board ≡ task.now.board.now.id }
    requires undone { IsUndone task.now.board.now.chunks seat.old.hand }
    ensures board { seat.new.board ≡ seat.old.board }
    ensures worked { IfOk result (λ v.
        HasWorked task.now.board.now.chunks seat.old.hand seat.new.hand v.items) }
    ensures results { IfOk result (λ v. All (IsResultOf task.now) v.items) }
    ensures undone { OnErr result (IsUndone task.now.board.now.chunks seat.new.hand) }
{
    let mut results = Vec::new(alloc);
    loop {
        match task.board.claim(seat) {
            Claim::Done => return Ok(results),
            Claim::Chunk(chunk) => match one_chunk(alloc, task, seat, gate, chunk)? {
                Some(result) => results.push((chunk, result))?,
                None => {}
            },
        }
    }
}
