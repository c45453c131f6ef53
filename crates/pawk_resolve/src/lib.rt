//! The code of a program that was read, as a definition: names become slots by tables and scopes,
//! and expressions are sorted by what they give.
#![tactic(auto)]

pub mod builtin;
pub mod lists;
pub mod operation;
pub mod scope;
pub mod sorted;
pub mod table;
