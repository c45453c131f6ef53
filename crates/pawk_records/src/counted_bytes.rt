//! Bytes with a census of the text in which they lie.

ghost use Rattle.std.specs.Prelude.{◌≡◌, ◌+◌, ◌-◌, ◌≤◌, [], ◌∷◌, length, take, drop, count_by};
ghost use Rattle.memchr.specs.Find.{is_byte};
ghost use Rattle.pawk_records.specs.Records.{newline};
ghost use Rattle.pawk_records.specs.Begins.{begins_within};
ghost use Rattle.pawk_records.specs.Separator.{rs_of};
ghost use Rattle.pawk_records.specs.Census.{IsCensus};

use crate::census::{Census, SEGMENT, count_newlines};
use crate::count::count_byte;
use crate::paragraphs::NEWLINE;
use crate::separator::Separator;
use std::marker::Model;

/// The bytes of a text from a place on, lent, with a census of the text.
#[derive(Drop)]
pub struct CountedBytes<'a> {
    text: &'a [u8],
    from: usize,
    counts: &'a [usize],
}

impl<'a> Model for CountedBytes<'a> {
    ghost use Rattle.std.specs.Prelude.{List, ℕ, ◌≤◌, drop, length};
    ghost use Rattle.pawk_records.specs.Census.{IsCensus};

    ghost Value = { List ℕ };

    ghost view = { λ b. drop b.from b.text.now };

    ghost invariant = { λ b. (b.from ≤ length b.text.now) × IsCensus b.counts.now b.text.now };
}

impl<'a> CountedBytes<'a> {
    /// The bytes of a text from a place on, counted from 0.
    pub fn new(text: &'a [u8], from: usize, census: &'a Census) -> Self
        requires within { from ≤ length text.now }
        requires census { IsCensus census.now text.now }
        ensures { result ≡ drop from text.now }
    {
        CountedBytes {
            text,
            from,
            counts: census.counts(),
        }
    }

    /// All bytes of a text of which nothing was counted.
    pub fn plain(text: &'a [u8]) -> Self
        ensures { result ≡ text.now }
    {
        CountedBytes {
            text,
            from: 0,
            counts: &[],
        }
    }

    /// The bytes, without what is counted of them.
    pub fn bytes(&self) -> &'a [u8]
        ensures { result.now ≡ self.now }
    {
        let (_, bytes) = self.text.split_at(self.from);
        bytes
    }

    /// How many newlines lie from place `start` up to place `end`.
    fn count_newlines_within(&self, start: usize, end: usize) -> usize
        requires rising { start ≤ end }
        requires within { end ≤ length self.now }
        ensures { result
            ≡ count_by (is_byte newline) (take (end - start) (drop start self.now)) }
    {
        let from = self.from + start;
        let to = self.from + end;
        let first = from.div_ceil(SEGMENT);
        let last = self.counts.len().min(to / SEGMENT);
        if first >= last {
            return count_byte(&self.text[from..to], NEWLINE);
        }
        let head = &self.text[from..first * SEGMENT];
        let rest = &self.text[first * SEGMENT..to];
        count_byte(head, NEWLINE) + count_newlines(rest, &self.counts[first..last])
    }

    /// How many lines begin from place `start` up to place `end`: one at the first byte, and one after each newline.
    fn count_lines_within(&self, start: usize, end: usize) -> usize
        requires rising { start ≤ end }
        requires within { end ≤ length self.now }
        ensures { result ≡ length (begins_within (newline ∷ []) self.now start end) }
    {
        if start == end {
            return 0;
        }
        if start == 0 {
            return 1 + self.count_newlines_within(0, end - 1);
        }
        self.count_newlines_within(start - 1, end - 1)
    }

    /// How many records of the bytes begin from place `start` up to place `end`. Where a newline ends a record, it looks at
    /// none of the segments that were counted, but for the first and the last that lie there in part.
    pub fn count_begins(&self, separator: Separator, start: usize, end: usize) -> usize
        requires rising { start ≤ end }
        requires within { end ≤ length self.now }
        ensures { result ≡ length (begins_within (rs_of separator) self.now start end) }
    {
        match separator {
            Separator::Byte(NEWLINE) => self.count_lines_within(start, end),
            _ => separator.count_begins(self.bytes(), start, end),
        }
    }
}
