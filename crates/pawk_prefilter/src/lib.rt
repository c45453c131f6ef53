//! What a record must hold for a rule to be for it, so that other records are passed over unread.
//!
//! `inline(always)` marks what every record passes through (counted by bench/).
#![tactic(auto)]

mod law;
mod needs;
mod passage;
mod resets;

pub use law::pass_law;
pub use passage::Passage;
