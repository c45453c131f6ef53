//! Keys of bytes, and what maps by such keys hold.
//!
//! `inline(always)` marks what each element passes through, `inline(never)` what is long, so that the callers stay small
//! (counted by bench/).
#![tactic(auto)]

mod hasher;
mod key;
mod place;
mod seed;

pub use key::{Key, Query};
pub use place::{KeyedMap, place_of};
pub use seed::Seed;
