//! The record and its fields, which are looked for as they are asked for.
//!
//! `inline(always)` marks what every record or byte passes through and `inline` what other crates call for each field,
//! `inline(never)` what is rare or large, so that the locals of rare arms are not cleared in hot functions (counted by
//! bench/).
#![tactic(auto)]

mod layout;
mod limits;
mod places;
mod record;
mod splitter;

pub use limits::{GREATEST_FIELD, limits_law};
pub use record::Record;
