//! Why tables are not merged.

use pawk_admit::Reason;
use pawk_flow::PieceRefusal;
use pawk_par::StreamRefusal;
use pawk_tables::TableRefusal;
use std::alloc::{AllocError, AllocFailed};
use thiserror::Error;

/// Why a run over tables was refused. What was written then is a beginning of the output.
#[derive(Clone, Copy, Debug, PartialEq, Eq, Drop, Error)]
pub enum MergeRefusal {
    /// Memory was refused.
    #[error("out of memory")]
    Memory,
    /// More records came than can be counted.
    #[error("the input is too large")]
    Input,
    /// A write failed.
    #[error("a write failed")]
    Write,
    /// The program may not run in chunks, for this reason.
    #[error("no tables are made of the program: {0}")]
    NotAdmitted(Reason),
    /// The bytes are no sections of a table of this program.
    #[error("the table is damaged, or of another program")]
    Damage,
    /// The table says that other records come before its own than have come, and the program reads `NR`.
    #[error("the table is of records after {before} others, and {come} have come")]
    Before {
        /// How many records come before its own, as the table says.
        before: u64,
        /// How many have come.
        come: u64,
    },
}

impl From<AllocError> for MergeRefusal {
    fn from(_error: AllocError) -> MergeRefusal {
        MergeRefusal::Memory
    }
}

impl<T: Drop> From<AllocFailed<T>> for MergeRefusal {
    fn from(_error: AllocFailed<T>) -> MergeRefusal {
        MergeRefusal::Memory
    }
}

impl From<TableRefusal> for MergeRefusal {
    fn from(refusal: TableRefusal) -> MergeRefusal {
        match refusal {
            TableRefusal::Memory => MergeRefusal::Memory,
            TableRefusal::Damage => MergeRefusal::Damage,
        }
    }
}

impl From<PieceRefusal> for MergeRefusal {
    fn from(refusal: PieceRefusal) -> MergeRefusal {
        match refusal {
            PieceRefusal::Memory => MergeRefusal::Memory,
            // (no worker is started for a piece that is run by one)
            PieceRefusal::Thread | PieceRefusal::Input => MergeRefusal::Input,
        }
    }
}

impl From<StreamRefusal> for MergeRefusal {
    fn from(refusal: StreamRefusal) -> MergeRefusal {
        match refusal {
            StreamRefusal::Write(_) => MergeRefusal::Write,
            // (an output is refused where it has 2^64 bytes, and for nothing else)
            _ => MergeRefusal::Memory,
        }
    }
}
