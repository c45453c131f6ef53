//! The globals of a chunk: those that `BEGIN` left, and what it notes in place of changing them.
//!
//! `inline(always)` and `inline` mark what each amount that a record adds passes through (counted by bench/).
#![tactic(auto)]

mod frozen;
mod mark;
mod marks;
mod table;

pub use frozen::Frozen;
pub use mark::{CellMark, Sums};
pub use marks::{ElementMarks, LentPairs, MarkPairs};
pub use table::Table;
