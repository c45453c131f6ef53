//! Records between empty lines.

ghost use Rattle.std.specs.Prelude.{◌≡◌, ℕ, ◌+◌, ◌<◌, ◌≤◌, [], ◌∷◌, length, drop, IfSome, MatchOption};
ghost use Rattle.std.specs.List.{prefix_len};
ghost use Rattle.memchr.specs.Find.{IsFirst, is_byte};
ghost use Rattle.pawk_records.specs.Records.{newline, paragraphs};
ghost use Rattle.pawk_records.specs.Begins.{BeginsAt, begins_at};
ghost use Rattle.pawk_records.specs.Paragraph as spec;

use crate::line_ends::{BLOCK, block_ends};
use memchr::memchr;

pub(crate) const NEWLINE: u8 = b'\n';

/// How many newlines a text begins with.
#[inline]
fn newline_length(text: &[u8]) -> usize
    ensures value { result ≡ prefix_len (is_byte newline) text.now }
    ensures bound { result ≤ length text.now }
{
    for (i, b) in text.iter().enumerate() {
        if *b != NEWLINE {
            return i;
        }
    }
    text.len()
}

/// How many bytes of a text are before the newline that ends it: one at its end, or before
/// another. It is not among the first `start` bytes, and few are left after them.
#[inline(never)]
fn late_length(text: &[u8], start: usize) -> usize
    requires within { start ≤ length text.now }
    requires none { spec.paragraph_length text.now
        ≡ start + spec.paragraph_length (drop start text.now) }
    ensures value { result ≡ spec.paragraph_length text.now }
    ensures bound { result ≤ length text.now }
{
    let mut from = start;
    while from < text.len() {
        let (_, rest) = text.split_at(from);
        let Some(line) = memchr(NEWLINE, rest) else {
            return text.len();
        };
        let end = from + line;
        if end + 1 == text.len() || text[end + 1] == NEWLINE {
            return end;
        }
        from = end + 1;
    }
    text.len()
}

/// How many bytes of a text are before the newline that ends it: one at its end, or before
/// another.
#[inline(always)]
fn paragraph_length(text: &[u8]) -> usize
    ensures value { result ≡ spec.paragraph_length text.now }
    ensures bound { result ≤ length text.now }
{
    let mut from = 0;
    while BLOCK <= text.len() - from {
        let ends = block_ends(text, from, NEWLINE);
        // A newline with another directly after it.
        let pairs = ends & (ends >> 1);
        if pairs != 0 {
            return from + pairs.trailing_zeros() as usize;
        }
        // The last byte is looked at again, as the one after it was not seen.
        from += BLOCK - 1;
    }
    late_length(text, from)
}

/// The first paragraph of a text and what follows it, if there is one.
#[inline]
pub(crate) fn split_paragraph(text: &[u8]) -> Option<(&[u8], &[u8])>
    ensures cut { MatchOption result (paragraphs text.now ≡ [])
        (λ parts. paragraphs text.now ≡ parts.0.now ∷ paragraphs parts.1.now) }
    ensures short { IfSome result
        (λ parts. length parts.0.now + length parts.1.now ≤ length text.now) }
    ensures less { IfSome result (λ parts. length parts.1.now < length text.now) }
{
    let (_, rest) = text.split_at(newline_length(text));
    if rest.is_empty() {
        return None;
    }
    Some(rest.split_at(paragraph_length(rest)))
}

/// Whether a paragraph begins at a place of the bytes.
pub(crate) fn begins_paragraph(bytes: &[u8], place: usize) -> bool
    requires { place < length bytes.now }
    ensures { result ≡ begins_at [] bytes.now place }
{
    (place == 0 || bytes[place - 1] == NEWLINE)
        && (place <= 1 || bytes[place - 2] == NEWLINE)
        && bytes[place] != NEWLINE
}

/// Whether a paragraph begins at a place of the bytes with two bytes or more in front of it. All three are looked at, which
/// lets the processor look at many places side by side.
#[inline(always)]
pub(crate) fn begins_far_paragraph(bytes: &[u8], place: usize) -> bool
    requires behind { 2 ≤ place }
    requires within { place < length bytes.now }
    ensures { result ≡ begins_at [] bytes.now place }
{
    (bytes[place - 1] == NEWLINE) & (bytes[place - 2] == NEWLINE) & (bytes[place] != NEWLINE)
}

/// The first place from `from` on at which a paragraph begins.
pub(crate) fn next_paragraph(bytes: &[u8], from: usize) -> Option<usize>
    ensures { IsFirst (BeginsAt [] bytes.now) from (length bytes.now) result }
{
    let mut place = from;
    while place < bytes.len() {
        if begins_paragraph(bytes, place) {
            return Some(place);
        }
        let (_, rest) = bytes.split_at(place);
        let Some(line) = memchr(NEWLINE, rest) else {
            return None;
        };
        place += line + 1;
    }
    None
}
