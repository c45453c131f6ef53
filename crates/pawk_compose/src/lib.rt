//! Tables that were noted one after the other, as one table.
#![tactic(auto)]

mod array;
mod composition;
mod mark;

pub use composition::Composition;
