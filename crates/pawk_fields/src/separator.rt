//! Fields by what separates them, as ranges of the record.

ghost use Rattle.std.specs.Prelude.{◌≡◌, ◌≤◌, ◌<◌, ◌∷◌, [], length, drop, None, Some};
ghost use Rattle.std.specs.Prelude.{MatchOption, IfSome};
ghost use Rattle.memchr.specs.Find.{IsFirstByte};
ghost use Rattle.pawk_fields.specs.Splits.{pieces_after, pieces_from, separates, words_from};
ghost use Rattle.pawk_fields.specs.FieldSeparator.{ranges_by, ranges_from};

use crate::blanks::blank_length;
use crate::ends::word_end;
use memchr::{memchr, memchr2};

const NEWLINE: u8 = b'\n';

/// What separates the fields of a record, where it is no expression. POSIX.1-2017, awk, "Variables
/// and Special Variables" (`FS`).
#[derive(Clone, Copy)]
pub enum FieldSeparator {
    /// Runs of spaces, tabs and newlines; those at both ends are skipped.
    Blanks,
    /// Each occurrence of this byte.
    Byte(u8),
    /// Each occurrence of this byte, and each newline: a single byte in paragraph mode.
    ByteOrNewline(u8),
}

/// A field, as a range of the record in bytes counted from 0, and where a walk goes on after it.
#[derive(Clone, Copy)]
pub struct FieldStep {
    /// The first byte of the field.
    pub start: usize,
    /// The byte after it.
    pub end: usize,
    /// The place from which on the next field is looked for, if there may be one.
    pub next: Option<usize>,
}

/// The first byte of a text that separates.
#[inline(always)]
fn find_separator(text: &[u8], byte: u8, paragraph: bool) -> Option<usize>
    ensures { IsFirstByte (separates byte paragraph) text.now result }
{
    if paragraph && byte != NEWLINE {
        memchr2(byte, NEWLINE, text)
    } else {
        memchr(byte, text)
    }
}

/// The first word from a place on.
#[inline]
fn next_word(text: &[u8], from: usize) -> Option<FieldStep>
    requires { from ≤ length text.now }
    ensures step { MatchOption result (words_from None from (drop from text.now) ≡ [])
        (λ f. words_from None from (drop from text.now)
        ≡ (f.start, f.end) ∷ words_from None f.end (drop f.end text.now)) }
    ensures next { IfSome result (λ f. f.next ≡ Some f.end) }
    ensures within { IfSome result
        (λ f. (from ≤ f.start) × (f.start < f.end) × (f.end ≤ length text.now)) }
{
    let (_, rest) = text.split_at(from);
    let start = from + blank_length(rest);
    if start >= text.len() {
        return None;
    }
    let end = word_end(text, start);
    Some(FieldStep {
        start,
        end,
        next: Some(end),
    })
}

/// The piece that begins at a place, up to the first byte that separates.
#[inline]
fn next_piece(text: &[u8], from: usize, byte: u8, paragraph: bool) -> FieldStep
    requires { from ≤ length text.now }
    ensures step { pieces_from (separates byte paragraph) from from (drop from text.now)
        ≡ (result.start, result.end) ∷ pieces_after byte paragraph text.now result.next }
    ensures within { (result.start ≡ from) × (from ≤ result.end)
        × (result.end ≤ length text.now) }
    ensures next { IfSome result.next (λ p. (from < p) × (p ≤ length text.now)) }
{
    let (_, rest) = text.split_at(from);
    match find_separator(rest, byte, paragraph) {
        Some(length) => FieldStep {
            start: from,
            end: from + length,
            next: Some(from + length + 1),
        },
        None => FieldStep {
            start: from,
            end: text.len(),
            next: None,
        },
    }
}

impl FieldSeparator {
    /// The place from which on the first field is looked for, in bytes counted from 0; an empty
    /// record has none.
    #[inline]
    pub fn first_place(self, text: &[u8]) -> Option<usize>
        ensures ranges { ranges_from self text.now result ≡ ranges_by self text.now }
        ensures within { IfSome result (λ p. p ≤ length text.now) }
    {
        if text.is_empty() { None } else { Some(0) }
    }

    /// The first field from a place of the record on, in bytes counted from 0, or `None` where
    /// none is left. Takes no memory.
    #[inline(always)]
    pub fn next_field(self, text: &[u8], from: usize) -> Option<FieldStep>
        requires { from ≤ length text.now }
        ensures step { MatchOption result (ranges_from self text.now (Some from) ≡ [])
            (λ f. ranges_from self text.now (Some from)
            ≡ (f.start, f.end) ∷ ranges_from self text.now f.next) }
        ensures within { IfSome result
            (λ f. (f.start ≤ f.end) × (f.end ≤ length text.now)) }
        ensures next { IfSome result
            (λ f. IfSome f.next (λ p. (from < p) × (p ≤ length text.now))) }
    {
        match self {
            FieldSeparator::Blanks => next_word(text, from),
            FieldSeparator::Byte(byte) => Some(next_piece(text, from, byte, false)),
            FieldSeparator::ByteOrNewline(byte) => Some(next_piece(text, from, byte, true)),
        }
    }
}
