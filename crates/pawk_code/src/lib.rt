//! The code of an awk program that is ready to run: names are slots, kinds of names are types, and
//! expressions are sorted by what they give.
#![tactic(auto)]

pub mod expression;
pub mod format;
pub mod leaf;
pub mod name;
pub mod program;
pub mod slots;
pub mod statement;
pub mod word;
