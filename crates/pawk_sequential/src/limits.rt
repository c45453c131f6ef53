//! The limits of a run.

/// The most calls of functions inside each other.
pub(crate) const GREATEST_CALLS: u64 = 200;
