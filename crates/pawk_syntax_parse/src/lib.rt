//! Reads the tokens of an awk program as its syntax tree.
#![tactic(auto)]

pub mod build;
pub mod cursor;
pub mod expression;
pub mod lookahead;
pub mod phrase;
