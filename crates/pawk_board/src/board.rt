//! The board and its seats.
ghost use Rattle.std.specs.Prelude.{◌≡◌, ◌<◌, ◌≤◌, replicate, All, IfOk, vec_len};
ghost use Rattle.pawk_board.specs.Limits.{most_chunks, most_workers};
ghost use Rattle.pawk_board.specs.History.{tells, Lawful, EachOnce, DoneMeansAll, PastMeansTold};
ghost use Rattle.pawk_board.specs.Views.{fresh, hands_in};
ghost use Rattle.pawk_board.specs.Claims.{IsUndone, HasClaimed, Claims, LooksPast};

use crate::hand::Terms;
use crate::rule::{BoardRule, Deal, Draw, Enter, Gather, Hands, Look, Tell};
use crate::tally::Tally;
use atomic_table::{Seat, Table};
use std::alloc::{AllocError, Global};
use std::marker::Model;

/// Where the counter lies among the board's words.
const COUNTER: usize = 0;

/// Where the stop lies among the board's words.
const STOP: usize = 1;

/// The right of one thread to step on one board. It has no bytes of its own, and may be moved to any thread.
#[derive(Drop)]
pub struct BoardSeat {
    seat: Seat<u8, Hands>,
}

impl Model for BoardSeat {
    ghost use Rattle.std.specs.Prelude.{◌≡◌, [], ◌∷◌};
    ghost use Rattle.pawk_board.specs.Views.{SeatView};
    ghost use Rattle.pawk_board.specs.Rule.{hand_in};

    ghost Value = { SeatView };

    ghost view = { λ s. record { board = s.seat.table_id; hand = hand_in s.seat.me.0 } };

    ghost invariant = { λ s. s.seat.me ≡ (hand_in s.seat.me.0 ∷ [], []) };
}

/// Hands out the numbers of the chunks. Threads share it by reference.
#[derive(Drop)]
pub struct Board {
    table: Table<u8, Hands, Terms, BoardRule, Global>,
    chunks: u64,
    workers: u64,
}

impl Model for Board {
    ghost use Rattle.pawk_board.specs.Rule.{Fits};
    ghost use Rattle.pawk_board.specs.Views.{BoardView};

    ghost Value = { BoardView };

    ghost view = { λ b. record { id = b.table.shared.table_id; chunks = b.chunks; workers = b.workers } };

    ghost invariant = { λ b. Fits b.table.shared.table_id b.table.shared.key b.chunks b.workers };
}

/// The answer to a seat.
#[derive(Clone, Copy, PartialEq, Eq)]
pub enum Claim {
    /// The number of a chunk, counted from 0, which is now this seat's own.
    Chunk(u64),
    /// No chunk is left.
    Done,
}

impl Board {
    /// A board of `chunks` chunks, at most 1,048,576, and its seats, `workers` of them, 1 to 64. The seats have done
    /// nothing. The error comes where memory ran out, and nothing is left of the board then.
    pub fn new(
        alloc: Global,
        chunks: u64,
        workers: usize,
    ) -> Result<(Board, Vec<BoardSeat>), AllocError>
        requires chunks { chunks ≤ most_chunks }
        requires workers { (0 < workers) × (workers ≤ most_workers) }
        ensures board { IfOk result (λ r. (r.0.chunks ≡ chunks) × (r.0.workers ≡ workers)) }
        ensures seats { IfOk result (λ r. r.1.items ≡ replicate workers (fresh r.0.id)) }
    {
        let mut seats = Vec::with_capacity(alloc, workers)?;
        let terms = Terms {
            chunks,
            workers: workers as u64,
        };
        let (table, mut rest) = Table::of_words(alloc, &[0, chunks], &terms)?;
        for _ in 0..workers {
            let seat = table.shared.split_seat::<Deal>(&mut rest);
            seats.push(BoardSeat { seat })?;
        }
        let board = Board {
            table,
            chunks,
            workers: workers as u64,
        };
        Ok((board, seats))
    }

    /// Draws the next number. It is the seat's own: no other draw, of whatever seat, is given it. The answer is
    /// `Chunk` of it where it is below the count of chunks, else `Done`, and then the seat claims no more.
    pub fn claim(&self, seat: &mut BoardSeat) -> Claim
        requires board { seat.old.board ≡ self.now.id }
        requires undone { IsUndone self.now.chunks seat.old.hand }
        ensures { Claims self.now.chunks seat.old seat.new result }
    {
        let n = self
            .table
            .shared
            .fetch_add::<Draw>(&mut seat.seat, COUNTER, 1);
        if n < self.chunks {
            Claim::Chunk(n)
        } else {
            Claim::Done
        }
    }

    /// Tells that no chunk past `n` is wanted, where `n` is a chunk that this seat claimed. The stop is `n` from
    /// then on, unless a lesser one was reported.
    pub fn stop_at(&self, seat: &mut BoardSeat, n: u64)
        requires board { seat.old.board ≡ self.now.id }
        requires claimed { HasClaimed self.now.chunks seat.old.hand n }
        ensures { seat.new ≡ record seat.old { hand = tells seat.old.hand n } }
    {
        self.table.shared.fetch_min::<Tell>(&mut seat.seat, STOP, n);
    }

    /// Whether a stop below `n` is seen: only where such a stop was reported, and surely where this seat reported or
    /// saw one. A stop that another seat reported a moment ago may not be seen yet.
    pub fn past_stop(&self, seat: &mut BoardSeat, n: u64) -> bool
        requires { seat.old.board ≡ self.now.id }
        ensures { LooksPast self.now.chunks seat.old seat.new n result }
    {
        let stop = self.table.shared.load::<Look>(&mut seat.seat, STOP);
        stop < n && stop < self.chunks
    }

    /// Closes the board, when all its seats have come back, in any order. What is promised of the tally speaks of
    /// the lists of these seats.
    pub fn finish(self, seats: Vec<BoardSeat>) -> Tally
        requires board { All (λ s. s.board ≡ self.id) seats.items }
        requires all { vec_len seats ≡ self.workers }
        ensures lawful { Lawful self.chunks result.counter result.stop (hands_in seats.items) }

        // No number was drawn twice, and none was passed over.
        ensures once { EachOnce result.counter (hands_in seats.items) }

        // Where a seat got `Done`, all chunks were drawn.
        ensures done { DoneMeansAll self.chunks (hands_in seats.items) }

        // Where a number was found past the stop, a stop below it was reported, and it is past the stop of the tally.
        ensures past { PastMeansTold self.chunks result.stop (hands_in seats.items) }
    {
        let Board {
            table,
            chunks: _,
            workers: _,
        } = self;
        let (_, mut all) = table.shared.load_new_seat::<Enter>(COUNTER);
        for seat in seats {
            let BoardSeat { seat } = seat;
            table.shared.join_seat::<Gather>(&mut all, seat);
        }
        let closed = table.close_with(all);
        let counter = closed.word(COUNTER);
        let stop = closed.word(STOP);
        closed.free();
        Tally::new(counter, stop)
    }
}
