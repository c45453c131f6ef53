//! Awk programs: the reading of a program text as its tree, with all that is checked before it runs,
//! and the canonical text of a program.
#![tactic(auto)]

mod canonical;
pub mod laws;
mod program;
mod reading;
mod text;

pub use canonical::show;
pub use pawk_lex::refusal::{Cause, SyntaxRefusal};
pub use program::Program;
pub use text::parse;
