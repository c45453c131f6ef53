//! The results of all workers, brought together.

ghost use Rattle.std.specs.Prelude.{◌≡◌, ◌≤◌, ◌++◌, nat_lt, length, map, filter, All, IfOk, IsOk};
ghost use Rattle.std.specs.List.{flat_map};
ghost use Rattle.pawk_board.specs.Limits.{most_chunks};
ghost use Rattle.pawk_merge_law.specs.Chunks.{AreResults};
ghost use Rattle.pawk_chunks.specs.Shifts.{limit_of, results_of};
ghost use Rattle.pawk_board.specs.Limits.{IsCrew};
ghost use Rattle.pawk_chunks.specs.Task.{IsChunked, end_in};

use crate::Opening;
use crate::shifts::{Shift, all_work};
use crate::task::{Chunked, Task};
use pawk_board::{Board, BoardSeat};
use pawk_merge::ChunkResult;
use pawk_workers::{CrewRefusal, Gate};
use std::alloc::{AllocError, Global};
use std::sync::Wait;
use std::thread::Threads;

/// The seats and the results of all shifts, each result with its chunk's number.
fn join_shifts<'a>(
    alloc: Global,
    shifts: Vec<Shift<'a>>,
) -> Result<(Vec<BoardSeat>, Vec<(u64, ChunkResult<'a>)>), AllocError>
    ensures seats { IfOk result (λ r. r.0.items ≡ map (λ s. s.seat) shifts.entry.items) }
    ensures results { IfOk result (λ r. r.1.items ≡ flat_map results_of shifts.entry.items) }
    ensures all { IfOk result (λ r. All (λ s. IsOk s.results) shifts.entry.items) }
{
    let mut seats = Vec::with_capacity(alloc, shifts.len())?;
    let mut results = Vec::new(alloc);
    for shift in shifts {
        let Shift {
            seat,
            results: done,
        } = shift;
        results = join_results(results, done?)?;
        seats.push(seat)?;
    }
    Ok((seats, results))
}

/// How many chunks count: those up to the stop, or all.
fn limit(stop: u64, chunks: u64) -> u64
    ensures { result ≡ limit_of stop chunks }
{
    if stop < chunks { stop + 1 } else { chunks }
}

/// Drops the results of the chunks at the limit and past it.
fn keep_below(results: &mut Vec<(u64, ChunkResult<'_>)>, limit: u64)
    ensures { results.new.items ≡ filter (λ r. nat_lt r.0 limit) results.old.items }
{
    results.retain(|numbered| numbered.0 < limit);
}

/// The first results with the others after them, in the space of the first as far as it goes.
fn join_results<'a>(
    first: Vec<(u64, ChunkResult<'a>)>,
    mut others: Vec<(u64, ChunkResult<'a>)>,
) -> Result<Vec<(u64, ChunkResult<'a>)>, AllocError>
    ensures { IfOk result (λ v. v.items ≡ first.entry.items ++ others.entry.items) }
{
    if first.is_empty() {
        return Ok(others);
    }
    let mut results = first;
    results.append(&mut others)?;
    Ok(results)
}

/// The results without the chunks' numbers.
fn without_numbers<'a>(
    alloc: Global,
    results: Vec<(u64, ChunkResult<'a>)>,
) -> Result<Vec<ChunkResult<'a>>, AllocError>
    ensures { IfOk result (λ v. v.items ≡ map (λ r. r.1) results.entry.items) }
{
    let mut bare = Vec::with_capacity(alloc, results.len())?;
    for (_, result) in results {
        bare.push(result)?;
    }
    Ok(bare)
}

/// Runs the chunks of a plan, each over what the opening holds, in `workers` threads, or fewer where there are fewer
/// chunks; gives their results in the order of the chunks, up to the first that is not left through. The gate is called
/// round each chunk that is run, also of those past that one.
///
/// The plan is of the input by its `RS`, of at most one byte, and of at most 1,048,576 chunks; there are 1 to 64 workers.
///
/// `Memory` comes where memory was refused, and `Thread` where a worker could not be started, which the gate did not allow.
///
/// POSIX.1-2017, awk, "Overall Program Structure".
pub fn run_chunks<'a, G: Gate + Sync, R: Threads + Wait>(
    rt: &R,
    alloc: Global,
    opening: Opening<'_, 'a>,
    source: Chunked<'_, 'a>,
    workers: usize,
    gate: &G,
) -> Result<Vec<ChunkResult<'a>>, CrewRefusal>
    requires source { IsChunked source }
    requires few { length source.plan.now ≤ most_chunks }
    requires workers { IsCrew workers }
    ensures { IfOk result (λ v.
        AreResults (end_in opening.entry source.entry) source.entry.plan.now v.items) }
{
    let chunks = source.plan.len() as u64;
    let crew = workers.min(source.plan.len()).max(1);
    let (board, seats) = Board::new(alloc, chunks, crew)?;
    let task = Task {
        opening,
        source,
        board: &board,
    };
    let shifts = all_work(rt, alloc, &task, seats, gate)?;
    let (seats, mut results) = join_shifts(alloc, shifts)?;
    let tally = board.finish(seats);
    let stop = tally.stop();
    keep_below(&mut results, limit(stop, chunks));
    results.sort_unstable_by_key(|numbered| numbered.0);
    Ok(without_numbers(alloc, results)?)
}
