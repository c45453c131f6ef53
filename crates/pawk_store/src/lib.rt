//! The state of a run, and what a program means over any world: the globals of one thread by slots, the record state, and
//! the law by which two worlds go in step through a program.
//!
//! `inline(always)` and `inline` mark what every record or number that is assigned passes through (counted by bench/).
#![tactic(auto)]

mod appending;
mod copies;
mod globals;
mod kept;
pub mod law;
mod left;
mod listing;
pub mod listing_law;
mod moving;
mod openings;
mod reading;
mod specials;
mod state;

pub use globals::Globals;
pub use kept::KeptState;
pub use left::Left;
pub use listing::{Content, Named, Names};
pub use pawk_array::Seed;
pub use specials::Specials;
pub use state::RecordState;
