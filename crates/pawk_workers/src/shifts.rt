//! Workers that count, in threads.

use crate::task::CountTask;
use crate::worker::count_drawn;
use crate::{Gate, Labour};
use pawk_board::BoardSeat;
use std::alloc::{AllocError, Global};
use std::thread::Promise;

/// What a worker's thread hands back: its seat, and the counts of the blocks that it drew with the blocks' numbers; the error
/// where memory was refused.
#[derive(Drop)]
pub(crate) struct CountShift {
    pub(crate) seat: BoardSeat,
    pub(crate) counts: Result<Vec<(u64, u64)>, AllocError>,
}

/// A task is the promise that a shift is of it.
impl<'p> Promise<CountShift> for CountTask<'p> {
    ghost use Rattle.pawk_workers.specs.Counting.{HasCounted};

    ghost kept_by = { λ t s. HasCounted t s };
}

impl<'p> Labour<CountShift> for CountTask<'p> {
    ghost use Rattle.pawk_board.specs.Views.{fresh};
    ghost use Rattle.pawk_workers.specs.Counting.{IsCountTask};

    ghost IsReady = { IsCountTask };

    ghost first = { λ t. fresh t.board.now.id };

    fn labour<G: Gate>(&self, alloc: Global, mut seat: BoardSeat, gate: &G) -> CountShift {
        let counts = count_drawn(alloc, self, &mut seat, gate);
        CountShift { seat, counts }
    }
}
