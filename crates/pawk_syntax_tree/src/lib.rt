//! The syntax tree of an awk program: expressions, statements and items, and the grammar that says
//! which tokens derive them. POSIX.1-2017, awk, "Grammar".
#![tactic(auto)]

pub mod item;
pub mod laws;
pub mod levels;
pub mod program_laws;
pub mod statement;
pub mod tree;
