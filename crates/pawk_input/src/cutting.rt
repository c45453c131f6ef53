//! Chunks of the input, and why a cutting is refused.

use std::alloc::{AllocError, AllocFailed};
use std::ops::Range;
use thiserror::Error;

/// The most chunks that a plan may have.
pub const MOST_CHUNKS: usize = 1_048_576;

/// A run of records of one file: the bytes of a range that begins where its first record begins.
#[derive(Drop)]
pub struct Chunk {
    /// The file's place in the list of files, counted from 0.
    pub file: usize,
    /// The bytes of the file that the chunk holds, counted from 0.
    pub range: Range<usize>,
    /// How many records of the input come before the chunk (`NR`).
    pub nr: u64,
    /// How many records of its file come before the chunk (`FNR`).
    pub fnr: u64,
}

/// Why a plan was not made.
#[derive(Clone, Copy, Debug, PartialEq, Eq, Drop, Error)]
pub enum CutRefusal {
    /// No record after the file's first begins at a cut.
    #[error("no record begins at a cut")]
    NoRecord = 1,
    /// A cut does not come after the cut before it.
    #[error("a cut is not after the one before it")]
    NotRising = 2,
    /// The plan would have more chunks than a plan may have.
    #[error("too many chunks")]
    TooMany = 3,
    /// Memory was refused.
    #[error("out of memory")]
    Memory = 4,
}

impl From<AllocError> for CutRefusal {
    ghost use Rattle.std.specs.Prelude.{◌≡◌};
    ghost use Rattle.pawk_input.specs.declared.cutting.CutRefusal.TheVariants.{Memory};

    ghost from_gives = { λ _ refusal. refusal ≡ Memory };

    fn from(_error: AllocError) -> CutRefusal {
        CutRefusal::Memory
    }
}

impl<T: Drop> From<AllocFailed<T>> for CutRefusal {
    ghost use Rattle.std.specs.Prelude.{◌≡◌};
    ghost use Rattle.pawk_input.specs.declared.cutting.CutRefusal.TheVariants.{Memory};

    ghost from_gives = { λ _ refusal. refusal ≡ Memory };

    fn from(_error: AllocFailed<T>) -> CutRefusal {
        CutRefusal::Memory
    }
}
