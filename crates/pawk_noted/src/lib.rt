//! The globals of a run of one thread, which note where a reference creates an element.
//!
//! `inline(always)` and `inline` mark what each value or amount passes through, `inline(never)` what is rare.
#![tactic(auto)]

mod noted;
mod trail;

pub use noted::NotedGlobals;
