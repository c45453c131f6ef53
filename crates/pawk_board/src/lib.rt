//! A board from which any number of threads draw the numbers of chunks of work, each once, and on which they report
//! each other past which chunk no work is wanted.
//!
//! The board is two words of memory. The counter is the next number to be drawn. The stop is the least chunk that
//! was reported as the last one wanted, or the count of chunks where none was reported. A thread steps with a seat.
//! Each call on the board is one atomic step, sequentially consistent: `claim` is one `fetch_add` on the counter,
//! `stop_at` one `fetch_min` on the stop, `past_stop` one load of the stop. None of them waits or takes memory.
//!
//! What a seat has drawn, reported and seen is kept in lists that contracts alone see (`Hand`). However the steps of
//! the threads interleave, the words and the lists of all seats are `Lawful` between any two steps.
#![tactic(auto)]

mod board;
mod hand;
mod rule;
mod tally;

pub use board::{Board, BoardSeat, Claim};
pub use hand::Hand;
pub use tally::Tally;
