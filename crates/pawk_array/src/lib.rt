//! The arrays of awk: elements by their keys, walked in the order of the bytes.
//!
//! `inline` marks what each element passes through, `inline(never)` what is rare, so that the locals of rare arms are
//! not cleared in hot functions (counted by bench/).
#![tactic(auto)]

mod array;
mod headed;
pub mod laws;
mod pieces;
mod texts;

pub use array::{AssociativeArray, Element};
pub use pawk_keyed_map::{Key, Query, Seed};
pub use texts::Texts;
