//! Counting the fields of a record.

ghost use Rattle.std.specs.Prelude.{◌≡◌, ◌≤◌, count_by, length, IfSome};
ghost use Rattle.memchr.specs.Find.{is_byte2};
ghost use Rattle.pawk_fields.specs.FieldSeparator.{ranges_from};

use crate::blanks::count_fields;
use crate::separator::FieldSeparator;

/// How many bytes are counted at a time: so few that a `u8` counts them, which lets the processor
/// count many side by side.
const BLOCK: usize = 240;

/// How many of a few bytes are one of two.
#[inline]
fn count_block(block: &[u8], byte: u8, other: u8) -> u8
    requires { length block.now ≤ BLOCK }
    ensures { result ≡ count_by (is_byte2 byte other) block.now }
{
    let mut count = 0;
    for b in block {
        if *b == byte || *b == other {
            count += 1;
        }
    }
    count
}

/// How many bytes of a text are one of two.
fn count_bytes(text: &[u8], byte: u8, other: u8) -> usize
    ensures value { result ≡ count_by (is_byte2 byte other) text.now }
    ensures bound { result ≤ length text.now }
{
    let mut count = 0;
    let mut rest = text;
    while rest.len() > BLOCK {
        let (block, later) = rest.split_at(BLOCK);
        count += usize::from(count_block(block, byte, other));
        rest = later;
    }
    count + usize::from(count_block(rest, byte, other))
}

/// How many fields there are from a place of a record on, as [`FieldSeparator::next_field`] gives them one after the other;
/// none from no place on. Takes no memory.
pub fn count_from(separator: FieldSeparator, text: &[u8], next: Option<usize>) -> usize
    requires { IfSome next (λ place. place ≤ length text.now) }
    ensures { result ≡ length (ranges_from separator text.now next) }
{
    let Some(place) = next else {
        return 0;
    };
    let (_, rest) = text.split_at(place);
    match separator {
        FieldSeparator::Blanks => count_fields(rest),
        FieldSeparator::Byte(byte) => count_bytes(rest, byte, byte) + 1,
        FieldSeparator::ByteOrNewline(byte) => count_bytes(rest, byte, b'\n') + 1,
    }
}
