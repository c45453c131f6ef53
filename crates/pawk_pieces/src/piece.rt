//! Pieces of a file.

use pawk_sequential::Left;

/// Consecutive records of a file, by their bytes.
#[derive(Drop)]
pub struct Piece<'p> {
    /// The bytes of `RS`, at most one.
    pub rs: &'p [u8],
    /// The file's name.
    pub name: &'p [u8],
    /// How many records of the file came before.
    pub fnr: u64,
    /// The bytes of whole records.
    pub bytes: Vec<u8>,
}

/// What a piece of a file leaves beside the flow.
#[derive(Drop)]
pub struct PieceEnd {
    /// What the records wrote, in parts, one after the other.
    pub outputs: Vec<Vec<u8>>,
    /// How the last record was left.
    pub left: Left,
    /// How many records of the file have come, where all were left through.
    pub fnr: u64,
    /// The piece's bytes, whose memory the next one may use.
    pub bytes: Vec<u8>,
    /// Whether records that were to be run in chunks were run one after the other, from some record on.
    pub is_stopped: bool,
    /// Of how many elements the chunks that were merged noted something, each for itself.
    pub noted: usize,
}
