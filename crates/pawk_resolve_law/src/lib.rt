//! The laws of resolved code: it is another writing of the tree, in a normal form, and the only
//! one.
#![tactic(auto)]

pub mod expressions;
pub mod programs;
pub mod refused;
pub mod statements;
pub mod tables;
