//! The canonical text of a program.
#![tactic(auto)]

mod expression;
pub mod item;
pub mod laws;
mod statement;
mod writing;
