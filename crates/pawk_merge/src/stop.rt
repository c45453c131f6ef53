//! Why chunks are not joined.

ghost use Rattle.std.specs.Prelude.{◌≡◌};

use std::alloc::{AllocError, AllocFailed};
use thiserror::Error;

/// Why what chunks noted is not joined to the globals.
#[derive(Clone, Copy, Debug, PartialEq, Eq, Drop, Error)]
pub enum JoinStop {
    /// The value of a cell has no number, or a sum on the way is none of the language.
    #[error("the value of a cell has no number, or a sum is out of range")]
    Cell,
    /// A chunk ended in a fault.
    #[error("a chunk ended in a fault")]
    Fault,
    /// A chunk did what its world does not allow.
    #[error("a chunk did what its world does not allow")]
    Clash,
    /// Memory was refused.
    #[error("out of memory")]
    Memory,
}

/// Why a chunk is not merged.
#[derive(Clone, Copy, Debug, PartialEq, Eq)]
pub enum MergeStop {
    /// A cell does not take what the chunk noted of it.
    Cell,
    /// The chunk ended in a fault.
    Fault,
    /// The chunk did what its world does not allow, or left the rest of a file unread.
    Clash,
}

impl From<AllocError> for JoinStop {
    ghost use Rattle.pawk_merge.specs.declared.stop.JoinStop.TheVariants.{Memory};

    ghost from_gives = { λ _ stop. stop ≡ Memory };

    fn from(_error: AllocError) -> JoinStop {
        JoinStop::Memory
    }
}

impl<T: Drop> From<AllocFailed<T>> for JoinStop {
    ghost use Rattle.pawk_merge.specs.declared.stop.JoinStop.TheVariants.{Memory};

    ghost from_gives = { λ _ stop. stop ≡ Memory };

    fn from(_error: AllocFailed<T>) -> JoinStop {
        JoinStop::Memory
    }
}
