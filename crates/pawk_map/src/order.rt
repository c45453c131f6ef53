//! What is asked of a run over a shard.

use pawk_sequential::Job;
use pawk_settings::Assignment;
use pawk_tables::Shard;

/// What is asked of a run over a shard of an input.
#[derive(Clone, Copy)]
pub struct MapOrder<'p> {
    /// The program, its steps and its seed.
    pub job: Job<'p>,
    /// The program's text, by which the file names it.
    pub program: &'p [u8],
    /// What is assigned before BEGIN.
    pub assignments: &'p [Assignment],
    /// What is assigned after BEGIN, before RS is taken.
    pub first: &'p [Assignment],
    /// Which shard it is, and of how many, where that is known.
    pub shard: Option<Shard>,
    /// How many records the shards before have.
    pub before: u64,
    /// How many bytes a chunk has at least, 1 or more.
    pub chunk: u64,
    /// How many workers there are at most, 1 to 64.
    pub workers: usize,
    /// How many bytes a window has, 1 or more.
    pub window: usize,
}
