//! What the workers that count share.

use pawk_board::Board;
use pawk_input::Input;

/// What the workers that count share.
#[derive(Clone, Copy)]
pub(crate) struct CountTask<'p> {
    /// The input.
    pub(crate) input: &'p Input,
    /// The bytes of `RS`.
    pub(crate) rs: &'p [u8],
    /// How many bytes a block has.
    pub(crate) block: usize,
    /// The board that hands out the numbers of the blocks.
    pub(crate) board: &'p Board,
}
