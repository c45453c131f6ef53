//! Pieces of a text.

ghost use Rattle.std.specs.Prelude.{◌≤◌, length, IfOk, OnOk};
ghost use Rattle.pawk_array.specs.Texts.{AreWithin};

use std::alloc::{AllocError, Global};
use std::ops::Range;

/// Adds the range of a piece.
fn push_piece(
    text: &[u8],
    start: usize,
    end: usize,
    pieces: &mut Vec<Range<usize>>,
) -> Result<(), AllocError>
    requires rising { start ≤ end }
    requires end { end ≤ length text.now }
    requires within { AreWithin text.now pieces.old.items }
    ensures { OnOk result (AreWithin text.now pieces.new.items) }
{
    Ok(pieces.push(start..end)?)
}

/// The ranges of a text between the places of a byte.
pub fn pieces_between(
    alloc: Global,
    text: &[u8],
    separator: u8,
) -> Result<Vec<Range<usize>>, AllocError>
    ensures { IfOk result (λ pieces. AreWithin text.now pieces.items) }
{
    let mut pieces = Vec::new(alloc);
    let mut start = 0;
    for (place, byte) in text.iter().enumerate() {
        if *byte == separator {
            push_piece(text, start, place, &mut pieces)?;
            start = place + 1;
        }
    }
    push_piece(text, start, text.len(), &mut pieces)?;
    Ok(pieces)
}
