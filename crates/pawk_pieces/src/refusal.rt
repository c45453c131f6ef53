//! Why a piece was not run.

use pawk_routes::{CrewRefusal, Refusal};
use std::alloc::{AllocError, AllocFailed};
use thiserror::Error;

/// Why a piece was not run to its end.
#[derive(Clone, Copy, Debug, PartialEq, Eq, Drop, Error)]
pub enum PieceRefusal {
    /// Memory was refused.
    #[error("out of memory")]
    Memory,
    /// A worker could not be started, which the gate did not allow.
    #[error("a worker could not be started")]
    Thread,
    /// More records came than an input may have bytes.
    #[error("the input is too large")]
    Input,
}

impl From<AllocError> for PieceRefusal {
    fn from(_error: AllocError) -> PieceRefusal {
        PieceRefusal::Memory
    }
}

impl<T: Drop> From<AllocFailed<T>> for PieceRefusal {
    fn from(_error: AllocFailed<T>) -> PieceRefusal {
        PieceRefusal::Memory
    }
}

impl From<CrewRefusal> for PieceRefusal {
    fn from(refusal: CrewRefusal) -> PieceRefusal {
        match refusal {
            CrewRefusal::Memory => PieceRefusal::Memory,
            CrewRefusal::Thread => PieceRefusal::Thread,
        }
    }
}

impl From<Refusal> for PieceRefusal {
    fn from(refusal: Refusal) -> PieceRefusal {
        match refusal {
            Refusal::Memory => PieceRefusal::Memory,
            Refusal::Thread => PieceRefusal::Thread,
            // (a size of at least so many bytes always has a plan of one file)
            Refusal::Cutting => PieceRefusal::Input,
        }
    }
}
