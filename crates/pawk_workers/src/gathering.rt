//! The counts of all workers, brought together.

ghost use Rattle.std.specs.Prelude.{◌≡◌, ◌<◌, ◌≤◌, length, map, vec_len, All, IfOk, IsOk};
ghost use Rattle.std.specs.List.{flat_map};
ghost use Rattle.pawk_board.specs.Limits.{most_workers};
ghost use Rattle.pawk_input.specs.Input.{IsReady, files_of};
ghost use Rattle.pawk_input.specs.Counts.{block_counts};
ghost use Rattle.pawk_workers.specs.Counting.{Enters, EntersMore, numbered_of};
ghost use Rattle.pawk_workers.specs.Sizes.{blocks_in, most_blocks};

use crate::shifts::CountShift;
use crate::size::block_number;
use crate::task::CountTask;
use crate::{CrewRefusal, Gate, all_labour};
use pawk_board::{Board, BoardSeat};
use pawk_input::Input;
use std::alloc::{AllocError, Global};
use std::sync::Wait;
use std::thread::Threads;

/// Puts each count at its block's number.
fn enter_counts(counts: &mut [u64], numbered: &[(u64, u64)])
    requires within { All (λ r. r.0 < length counts.old) numbered.now }
    ensures len { length counts.new ≡ length counts.old }
    ensures entered { EntersMore numbered.now counts.old counts.new }
{
    for (number, count) in numbered {
        counts[*number as usize] = *count;
    }
}

/// The seats of all shifts, and the counts of the blocks, each at its block's number.
fn gather(
    alloc: Global,
    shifts: Vec<CountShift>,
    blocks: usize,
) -> Result<(Vec<BoardSeat>, Vec<u64>), AllocError>
    requires within { All (λ s. All (λ r. r.0 < blocks) (numbered_of s)) shifts.items }
    ensures seats { IfOk result (λ r. r.0.items ≡ map (λ s. s.seat) shifts.items) }
    ensures len { IfOk result (λ r. vec_len r.1 ≡ blocks) }
    ensures counts { IfOk result
        (λ r. Enters (flat_map numbered_of shifts.items) r.1.items) }
    ensures all { IfOk result (λ r. All (λ s. IsOk s.counts) shifts.items) }
{
    let mut counts = vec![in alloc; 0; blocks]?;
    let mut seats = Vec::with_capacity(alloc, shifts.len())?;
    for shift in shifts {
        let CountShift {
            seat,
            counts: numbered,
        } = shift;
        enter_counts(&mut counts, numbered?.as_slice());
        seats.push(seat)?;
    }
    Ok((seats, counts))
}

/// Counts the records that begin in each block of `block` bytes of each file, the last block of a file shorter, file by file,
/// in `workers` threads, or fewer where there are fewer blocks; a single worker counts on this thread. The gate is
/// called round each block.
///
/// `rs` holds the byte at which records end, or none for paragraphs. There are at most 1,048,576 blocks, and 1 to 64 workers.
///
/// `Memory` comes where memory was refused, and `Thread` where a worker could not be started, which the gate did not allow.
pub fn count_records<G: Gate + Sync, R: Threads + Wait>(
    rt: &R,
    alloc: Global,
    input: &Input,
    rs: &[u8],
    block: usize,
    workers: usize,
    gate: &G,
) -> Result<Vec<u64>, CrewRefusal>
    requires one_byte { length rs.now ≤ 1 }
    requires ready { IsReady rs.now input.now }
    requires some { 0 < block }
    requires few { blocks_in block (files_of input.now) ≤ most_blocks }
    requires workers { (1 ≤ workers) × (workers ≤ most_workers) }
    ensures { IfOk result
        (λ counts. counts.items ≡ block_counts rs.now block (files_of input.now)) }
{
    let blocks = block_number(input, block);
    let crew = workers.min(blocks as usize).max(1);
    let (board, seats) = Board::new(alloc, blocks, crew)?;
    let task = CountTask {
        input,
        rs,
        block,
        board: &board,
    };
    let shifts = all_labour(rt, alloc, &task, seats, gate)?;
    let (seats, counts) = gather(alloc, shifts, blocks as usize)?;
    board.finish(seats);
    Ok(counts)
}
