//! What is asked of a run over streams.

use pawk_store::Seed;
use pawk_threads::Cutting;

/// What is asked of a run over streams.
#[derive(Clone, Copy)]
pub struct Request<'a> {
    /// The program's text.
    pub text: &'a [u8],
    /// What is assigned before BEGIN, in this order: names, and what they are given, in which the escapes
    /// of strings are read.
    ///
    /// POSIX.1-2017, awk, "OPTIONS" (-v).
    pub assigns: &'a [(Vec<u8>, Vec<u8>)],
    /// How many steps BEGIN, each record and END may take, 1 to 1,000,000,000,000.
    pub budget: u64,
    /// How the input is to be cut into chunks.
    pub cutting: &'a Cutting,
    /// How many workers there are at most, 1 to 64.
    pub workers: usize,
    /// What the keys of elements are hashed by: where others choose the input, another in each run. What a run gives
    /// does not depend on it.
    pub seed: Seed,
}
