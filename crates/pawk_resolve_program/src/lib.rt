//! The code of programs: of expressions and statements by a walk over their trees, of items, and
//! the tables of their names.
#![tactic(auto)]

pub mod actions;
pub mod calm;
pub mod expression;
pub mod globals;
pub mod items;
pub mod laws;
pub mod names;
pub mod program;
pub mod simple;
pub mod small;
pub mod statement;
pub mod vectors;
