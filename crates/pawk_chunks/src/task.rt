//! What the workers of a run share.

use crate::Opening;
use pawk_board::Board;
use pawk_input::{Input, Plan};

/// An input that is cut into chunks: a plan of it by an `RS` of at most one byte, for which the input is ready. Its chunks
/// may come after records of a larger input (`Plan::after`).
#[derive(Clone, Copy)]
pub struct Chunked<'p, 'a> {
    /// The input.
    pub input: &'a Input,
    /// The plan of the input.
    pub plan: &'p Plan,
    /// The bytes of `RS`.
    pub rs: &'p [u8],
}

/// What the workers of a run share: what each chunk begins with, an input that is cut into chunks, and a board with as
/// many chunks as the plan.
#[derive(Clone, Copy)]
pub struct Task<'p, 'a> {
    /// What each chunk begins with.
    pub opening: Opening<'p, 'a>,
    /// The input and its chunks.
    pub source: Chunked<'p, 'a>,
    /// The board that hands out the numbers of the plan's chunks.
    pub board: &'p Board,
}
