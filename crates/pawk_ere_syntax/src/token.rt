// The tokens of an expression's text.

use crate::byte_set::ByteSet;

/// A token.
#[derive(Clone, Copy)]
pub enum EreToken {
    /// A byte, a `.`, an escape or a bracket expression.
    Leaf(ByteSet),
    /// A repetition: the least number of turns, and the most.
    Times(u8, Option<u8>),
    Bar,
    Open,
    Close,
    Caret,
    Dollar,
}
