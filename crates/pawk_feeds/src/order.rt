//! What is asked of a run whose input flows.

use pawk_sequential::Job;
use pawk_settings::Assignment;

/// What is asked of a run whose input flows.
#[derive(Clone, Copy)]
pub struct Order<'p> {
    /// The program, its steps and its seed.
    pub job: Job<'p>,
    /// What is assigned before BEGIN.
    pub assignments: &'p [Assignment],
    /// What is assigned after BEGIN, before RS is taken.
    pub first: &'p [Assignment],
    /// What is assigned after the last file, before END.
    pub last: &'p [Assignment],
    /// How many bytes a chunk has at least, 1 or more.
    pub chunk: u64,
    /// How many workers there are at most, 1 to 64.
    pub workers: usize,
    /// How many bytes a window has, 1 or more.
    pub window: usize,
}
