//! What a run takes of its host.

use crate::deep::Depth;
use pawk_par::Seed;

/// What a run takes of its host.
#[derive(Clone, Copy)]
pub struct Host {
    /// What the keys of elements are hashed by.
    pub seed: Seed,
    /// How deep the stack of the run's thread is.
    pub depth: Depth,
}
