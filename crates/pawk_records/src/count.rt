//! Counting the records of bytes.

ghost use Rattle.std.specs.Prelude.{◌≡◌, ◌+◌, ◌≤◌, [], ◌∷◌, count_by, length};
ghost use Rattle.memchr.specs.Find.{is_byte};
ghost use Rattle.pawk_records.specs.Records.{paragraphs, records};
ghost use Rattle.pawk_records.specs.Begins.{begins_within};

use crate::paragraphs::{begins_far_paragraph, begins_paragraph, split_paragraph};

/// How many bytes are counted at a time: so few that a `u8` counts them, which lets the processor
/// count many side by side.
const BLOCK: usize = 224;

/// How many of a few bytes are `byte`.
#[inline]
fn count_block(block: &[u8], byte: u8) -> u8
    requires { length block.now ≤ BLOCK }
    ensures { result ≡ count_by (is_byte byte) block.now }
{
    let mut count = 0;
    for b in block {
        if *b == byte {
            count += 1;
        }
    }
    count
}

/// How many of the bytes are `byte`.
#[inline(never)]
pub(crate) fn count_byte(bytes: &[u8], byte: u8) -> usize
    ensures { result ≡ count_by (is_byte byte) bytes.now }
{
    let mut count = 0;
    let mut rest = bytes;
    while rest.len() > BLOCK {
        let (block, later) = rest.split_at(BLOCK);
        count += usize::from(count_block(block, byte));
        rest = later;
    }
    count + usize::from(count_block(rest, byte))
}

/// How many records the bytes hold.
pub(crate) fn count_lines(bytes: &[u8], separator: u8) -> usize
    ensures { result ≡ length (records separator bytes.now) }
{
    if bytes.is_empty() {
        return 0;
    }
    let ends = count_byte(bytes, separator);
    if bytes[bytes.len() - 1] == separator {
        ends
    } else {
        ends + 1
    }
}

/// How many paragraphs the bytes hold.
pub(crate) fn count_paragraphs(bytes: &[u8]) -> usize
    ensures { result ≡ length (paragraphs bytes.now) }
{
    let mut count = 0;
    let mut rest = bytes;
    while let Some((_, later)) = split_paragraph(rest) {
        count += 1;
        rest = later;
    }
    count
}

/// How many lines begin from place `start` up to place `end`: one at the first byte, and one after
/// each separator.
pub(crate) fn count_line_begins(bytes: &[u8], start: usize, end: usize, separator: u8) -> usize
    requires rising { start ≤ end }
    requires within { end ≤ length bytes.now }
    ensures { result ≡ length (begins_within (separator ∷ []) bytes.now start end) }
{
    if start == end {
        return 0;
    }
    if start == 0 {
        return 1 + count_byte(&bytes[..end - 1], separator);
    }
    count_byte(&bytes[start - 1..end - 1], separator)
}

/// How many paragraphs begin from place `start` up to place `end`: a few places, with two bytes or more in front of them.
#[inline]
fn count_block_begins(bytes: &[u8], start: usize, end: usize) -> u8
    requires behind { 2 ≤ start }
    requires rising { start ≤ end }
    requires within { end ≤ length bytes.now }
    requires few { end ≤ start + BLOCK }
    ensures { result ≡ length (begins_within [] bytes.now start end) }
{
    let mut count = 0;
    for place in start..end {
        count += u8::from(begins_far_paragraph(bytes, place));
    }
    count
}

/// How many paragraphs begin from place `start` up to place `end`, with two bytes or more in front of them.
fn count_far_begins(bytes: &[u8], start: usize, end: usize) -> usize
    requires behind { 2 ≤ start }
    requires rising { start ≤ end }
    requires within { end ≤ length bytes.now }
    ensures { result ≡ length (begins_within [] bytes.now start end) }
{
    let mut count = 0;
    let mut from = start;
    while from < end {
        let next = from + BLOCK.min(end - from);
        count += usize::from(count_block_begins(bytes, from, next));
        from = next;
    }
    count
}

/// How many paragraphs begin from place `start` up to place `end`.
pub(crate) fn count_paragraph_begins(bytes: &[u8], start: usize, end: usize) -> usize
    requires rising { start ≤ end }
    requires within { end ≤ length bytes.now }
    ensures { result ≡ length (begins_within [] bytes.now start end) }
{
    if start >= end {
        return 0;
    }
    if start >= 2 {
        return count_far_begins(bytes, start, end);
    }
    let first = usize::from(begins_paragraph(bytes, start));
    first + count_paragraph_begins(bytes, start + 1, end)
}
