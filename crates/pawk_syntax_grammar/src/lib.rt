//! Reads the tokens of statements, items and programs, and what is looked at in the tokens: open
//! brackets and the regular expressions between slashes.
#![tactic(auto)]

pub mod body;
pub mod brackets;
pub mod build;
pub mod expression_laws;
pub mod expressions;
pub mod item;
pub mod laws;
pub mod part;
pub mod print;
pub mod statement;
