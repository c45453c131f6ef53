//! Why tables are not joined.

use pawk_map::MapRefusal;
use pawk_pieces::PieceRefusal;
use pawk_tables::TableRefusal;
use std::alloc::{AllocError, AllocFailed};
use thiserror::Error;

/// Why tables are not joined. What was written then is no whole table.
#[derive(Clone, Copy, Debug, PartialEq, Eq, Drop, Error)]
pub enum JoinRefusal {
    /// A part could not be read, run or written.
    #[error("{0}")]
    Part(MapRefusal),
    /// The table says that other records come before its own than there are, and the program reads `NR`.
    #[error("the table is of records after {before} others, and there are {come}")]
    Before {
        /// How many records come before its own, as the table says.
        before: u64,
        /// How many there are.
        come: u64,
    },
}

impl From<MapRefusal> for JoinRefusal {
    fn from(refusal: MapRefusal) -> JoinRefusal {
        JoinRefusal::Part(refusal)
    }
}

impl From<PieceRefusal> for JoinRefusal {
    fn from(refusal: PieceRefusal) -> JoinRefusal {
        JoinRefusal::Part(MapRefusal::from(refusal))
    }
}

impl From<TableRefusal> for JoinRefusal {
    fn from(refusal: TableRefusal) -> JoinRefusal {
        JoinRefusal::Part(MapRefusal::from(refusal))
    }
}

impl From<AllocError> for JoinRefusal {
    fn from(error: AllocError) -> JoinRefusal {
        JoinRefusal::Part(MapRefusal::from(error))
    }
}

impl<T: Drop> From<AllocFailed<T>> for JoinRefusal {
    fn from(_error: AllocFailed<T>) -> JoinRefusal {
        JoinRefusal::Part(MapRefusal::Memory)
    }
}

/// Why tables are not joined, and the table where that was found.
#[derive(Clone, Copy, Drop)]
pub struct JoinStop<'a> {
    /// The name of its file.
    pub name: &'a str,
    pub refusal: JoinRefusal,
}

/// An answer, or the stop at the table of this name.
pub(crate) fn at<'a, T>(name: &'a str, answer: Result<T, JoinRefusal>) -> Result<T, JoinStop<'a>> {
    match answer {
        Ok(value) => Ok(value),
        Err(refusal) => Err(JoinStop { name, refusal }),
    }
}
