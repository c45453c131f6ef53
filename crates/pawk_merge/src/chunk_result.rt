//! What a chunk leaves.

use pawk_frozen::Table;
use pawk_store::{Left, RecordState};

/// What a chunk leaves.
#[derive(Drop)]
pub struct ChunkResult<'a> {
    pub output: Vec<u8>,
    /// What the chunk noted of globals.
    pub table: Table,
    /// How its last record was left.
    pub left: Left,
    pub state: RecordState<'a>,
}
