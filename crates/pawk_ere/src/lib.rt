//! Extended regular expressions, leftmost and longest.
//!
//! `inline(never)` keeps the cases of a recursion and a rare search in functions of their own, so that frames stay
//! small and the locals of rare arms are not cleared in hot functions (counted by bench/).
#![tactic(auto)]

mod cache;
mod literal;
mod loan;
mod matcher;
mod run;
mod words;

pub use crate::cache::Cache;
pub use crate::loan::Loan;
pub use crate::matcher::Matcher;
pub use crate::words::needed_words_of;
pub use pawk_ere_automaton::Misses;
pub use pawk_ere_syntax::{Ere, EreRefusal, laws};
