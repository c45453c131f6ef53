//! Why a run over a shard was refused.

use pawk_admit::Reason;
use pawk_chunks::CrewRefusal;
use pawk_pieces::PieceRefusal;
use pawk_routes::Refusal;
use pawk_tables::TableRefusal;
use pawk_window::FillError;
use std::alloc::{AllocError, AllocFailed};
use thiserror::Error;

/// Why a run over a shard was refused. What was written then is no whole table file.
#[derive(Clone, Copy, Debug, PartialEq, Eq, Drop, Error)]
pub enum MapRefusal {
    /// Memory was refused.
    #[error("out of memory")]
    Memory,
    /// A worker could not be started, which the gate did not allow.
    #[error("a worker could not be started")]
    Thread,
    /// A read failed.
    #[error("a read failed")]
    Read,
    /// A write failed.
    #[error("a write failed")]
    Write,
    /// More records came than can be counted.
    #[error("the input is too large")]
    Input,
    /// The records may not be run in chunks, for this reason. Nothing was written.
    #[error("the records may not be run in chunks")]
    NotAdmitted(Reason),
    /// Something was noted that no line can say.
    #[error("something was noted that no line can say")]
    Damage,
}

impl From<AllocError> for MapRefusal {
    fn from(_error: AllocError) -> MapRefusal {
        MapRefusal::Memory
    }
}

impl<T: Drop> From<AllocFailed<T>> for MapRefusal {
    fn from(_error: AllocFailed<T>) -> MapRefusal {
        MapRefusal::Memory
    }
}

impl From<CrewRefusal> for MapRefusal {
    fn from(refusal: CrewRefusal) -> MapRefusal {
        match refusal {
            CrewRefusal::Memory => MapRefusal::Memory,
            CrewRefusal::Thread => MapRefusal::Thread,
        }
    }
}

impl From<Refusal> for MapRefusal {
    fn from(refusal: Refusal) -> MapRefusal {
        match refusal {
            Refusal::Memory => MapRefusal::Memory,
            Refusal::Thread => MapRefusal::Thread,
            // A size of at least so many bytes always has a plan of one file.
            Refusal::Cutting => MapRefusal::Input,
        }
    }
}

impl From<PieceRefusal> for MapRefusal {
    fn from(refusal: PieceRefusal) -> MapRefusal {
        match refusal {
            PieceRefusal::Memory => MapRefusal::Memory,
            PieceRefusal::Thread => MapRefusal::Thread,
            PieceRefusal::Input => MapRefusal::Input,
        }
    }
}

impl From<FillError> for MapRefusal {
    fn from(error: FillError) -> MapRefusal {
        match error {
            FillError::Memory => MapRefusal::Memory,
            FillError::Failed => MapRefusal::Read,
        }
    }
}

impl From<TableRefusal> for MapRefusal {
    fn from(refusal: TableRefusal) -> MapRefusal {
        match refusal {
            TableRefusal::Memory => MapRefusal::Memory,
            TableRefusal::Damage => MapRefusal::Damage,
        }
    }
}
