//! What the proofs say of a seat. No value of these types is kept with a seat at run time.
use std::collections::LinkedList;

/// What one seat has done, each list in the order of its steps: the numbers that it drew, the stops that it reported
/// and the stops that it saw. Contracts alone speak of it: no value of it is made.
pub struct Hand {
    pub drawn: LinkedList<u64>,
    pub told: LinkedList<u64>,
    pub saw: LinkedList<u64>,
}

/// How many chunks and how many seats a board has.
#[derive(Clone, Copy)]
pub(crate) struct Terms {
    pub(crate) chunks: u64,
    pub(crate) workers: u64,
}
