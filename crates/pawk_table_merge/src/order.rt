//! What is asked of a run over tables.

use pawk_sequential::Job;
use pawk_settings::Assignment;

/// What is asked of a run over tables.
#[derive(Clone, Copy)]
pub struct MergeOrder<'p> {
    /// The program, its steps and its seed.
    pub job: Job<'p>,
    /// What is assigned before BEGIN.
    pub assignments: &'p [Assignment],
    /// What is assigned after BEGIN, before RS is taken.
    pub first: &'p [Assignment],
}
