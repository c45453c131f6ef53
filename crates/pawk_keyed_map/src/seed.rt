//! Seeds of maps.

use crate::hasher::KeyHasher;
use std::hash::BuildHasher;

/// What the maps of a run hash their keys by: where it is another number in each run, nobody can choose keys
/// that meet in a map. What a map holds does not depend on it.
#[derive(Clone, Copy)]
pub struct Seed {
    initial: KeyHasher,
}

impl Seed {
    /// The seed of a number.
    pub fn new(number: u64) -> Seed {
        Seed {
            initial: KeyHasher::new(number),
        }
    }
}

impl BuildHasher for Seed {
    type Hasher = KeyHasher;

    ghost build_hasher = { λ s. s.initial };

    fn build_hasher(&self) -> KeyHasher {
        self.initial
    }
}
