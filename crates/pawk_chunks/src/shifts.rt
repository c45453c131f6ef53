//! Workers in threads.

ghost use Rattle.std.specs.Prelude.{◌≡◌, All, IfOk, vec_len};
ghost use Rattle.pawk_board.specs.Views.{fresh};
ghost use Rattle.pawk_chunks.specs.Shifts.{Worked};
ghost use Rattle.pawk_chunks.specs.Task.{IsTask};

use crate::limits::STACK_BYTES;
use crate::task::Task;
use crate::worker::work;
use pawk_board::BoardSeat;
use pawk_merge::ChunkResult;
use pawk_workers::{CrewRefusal, Gate, Labour, all_labour};
use std::alloc::{AllocError, Global};
use std::sync::Wait;
use std::thread::{Promise, Threads};

/// What a worker's thread hands back: its seat, and the results of the chunks that it ran.
#[derive(Drop)]
pub struct Shift<'a> {
    /// Its seat.
    pub seat: BoardSeat,
    /// The results with the chunks' numbers, counted from 0, in the order in which it drew them; the error where memory was
    /// refused.
    pub results: Result<Vec<(u64, ChunkResult<'a>)>, AllocError>,
}

/// A task is the promise that a shift is of it.
impl<'p, 'a> Promise<Shift<'a>> for Task<'p, 'a> {
    ghost use Rattle.pawk_chunks.specs.Shifts.{Worked};

    ghost kept_by = { λ t s. Worked t s };
}

impl<'p, 'a> Labour<Shift<'a>> for Task<'p, 'a> {
    ghost use Rattle.pawk_board.specs.Views.{fresh};
    ghost use Rattle.pawk_chunks.specs.Task.{IsTask};

    ghost IsReady = { IsTask };

    ghost first = { λ t. fresh t.board.now.id };

    /// A program with functions may call them inside each other, for which the system's stack is not deep enough.
    fn stack_bytes(&self) -> Option<usize> {
        if self.opening.job.code.functions.is_empty() {
            return None;
        }
        Some(STACK_BYTES)
    }

    fn labour<G: Gate>(&self, alloc: Global, mut seat: BoardSeat, gate: &G) -> Shift<'a> {
        let results = work(alloc, self, &mut seat, gate);
        Shift { seat, results }
    }
}

/// A worker for each seat, the last one on this thread and each other in a thread of its own, or on this one where it cannot be
/// started and the gate allows that; else that is reported as `Thread`. Each has ended when this returns. `Memory` comes where
/// memory was refused before a thread was started.
pub fn all_work<'a, G: Gate + Sync, R: Threads + Wait>(
    rt: &R,
    alloc: Global,
    task: &Task<'_, 'a>,
    seats: Vec<BoardSeat>,
    gate: &G,
) -> Result<Vec<Shift<'a>>, CrewRefusal>
    requires task { IsTask task.now }
    requires seats { All (λ s. s ≡ fresh task.now.board.now.id) seats.items }
    ensures len { IfOk result (λ v. vec_len v ≡ vec_len seats) }
    ensures worked { IfOk result (λ v. All (Worked task.now) v.items) }
{
    all_labour(rt, alloc, task, seats, gate)
}
