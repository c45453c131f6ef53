//! One worker that counts.

ghost use Rattle.std.specs.Prelude.{◌≡◌, ◌<◌, All, IfOk, OnErr};
ghost use Rattle.pawk_board.specs.Claims.{IsUndone};
ghost use Rattle.pawk_board.specs.Views.{fresh};
ghost use Rattle.pawk_input.specs.Input.{files_of};
ghost use Rattle.pawk_workers.specs.Counting.{HasDrawn, IsCountIn, IsCountTask, counts_in, numbers};
ghost use Rattle.pawk_workers.specs.Places.{HasBlock};

use crate::Gate;
use crate::place::FilePlace;
use crate::task::CountTask;
use pawk_board::{BoardSeat, Claim};
use std::alloc::{AllocError, Global};

/// Counts the records that begin in a block of the place's file, between the calls of the gate.
fn count_watched<G: Gate>(task: &CountTask<'_>, place: FilePlace, number: u64, gate: &G) -> u64
    requires task { IsCountTask task.now }
    requires place { HasBlock task.now.block (files_of task.now.input.now) number place }
    ensures { IsCountIn (counts_in task.now) (number, result) }
{
    gate.enter_block(number);
    let count = place.count(task.input, task.rs, task.block, number);
    gate.leave_block(number);
    count
}

/// One worker: it draws blocks from the task's board until none is left, and gives the count of each with its number, counted
/// from 0, in the order in which it drew them. The gate is called round each block.
///
/// The error comes where memory was refused; it then draws no more, and was not told that no block is left.
pub(crate) fn count_drawn<G: Gate>(
    alloc: Global,
    task: &CountTask<'_>,
    seat: &mut BoardSeat,
    gate: &G,
) -> Result<Vec<(u64, u64)>, AllocError>
    requires task { IsCountTask task.now }
    requires seat { seat.old ≡ fresh task.now.board.now.id }
    ensures board { seat.new.board ≡ task.now.board.now.id }
    ensures drawn { IfOk result
        (λ v. HasDrawn task.now.board.now.chunks seat.new.hand (numbers v.items)) }
    ensures counts { IfOk result (λ v. All (IsCountIn (counts_in task.now)) v.items) }
    ensures undone { OnErr result (IsUndone task.now.board.now.chunks seat.new.hand) }
{
    let mut counts = Vec::new(alloc);
    let mut place = FilePlace { file: 0, before: 0 };
    loop {
        match task.board.claim(seat) {
            Claim::Done => return Ok(counts),
            Claim::Chunk(number) => {
                place = place.seek(task.input, task.block, number);
                counts.push((number, count_watched(task, place, number, gate)))?;
            }
        }
    }
}
