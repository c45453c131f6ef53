//! What ends a record.

ghost use Rattle.std.specs.Prelude.{◌≡◌, ◌+◌, ◌<◌, ◌≤◌, [], ◌∷◌, length, IfSome, MatchOption};
ghost use Rattle.memchr.specs.Find.{IsFirst};
ghost use Rattle.pawk_records.specs.Records.{records_by};
ghost use Rattle.pawk_records.specs.Begins.{BeginsAt, begins_within};
ghost use Rattle.pawk_records.specs.Begins as spec;
ghost use Rattle.pawk_records.specs.LineEnds.{AreEnds};
ghost use Rattle.pawk_records.specs.Separator.{rs_of};

use crate::line_ends::LineEnds;
use crate::{count, lines, paragraphs};

/// What ends a record, as `RS` says it. POSIX.1-2017, awk, "Variables and Special Variables".
#[derive(Clone, Copy)]
pub enum Separator {
    /// This byte, or the end of a file that is not empty after the last such byte.
    Byte(u8),
    /// An empty `RS`: two or more newlines; newlines at both ends of a file are taken away.
    Paragraph,
}

impl Separator {
    /// The separator of the bytes of `RS`: that byte, or paragraphs where there is none.
    pub fn of(rs: &[u8]) -> Self
        requires { length rs.now ≤ 1 }
        ensures { rs_of result ≡ rs.now }
    {
        match rs {
            [] => Separator::Paragraph,
            [byte, ..] => Separator::Byte(*byte),
        }
    }

    /// The first record of a text and what follows it, if there is one, by the ends of lines that were seen in the
    /// text; afterwards they are those of what follows the record.
    #[inline(always)]
    pub fn split_record_with<'a>(
        self,
        text: &'a [u8],
        ends: &mut LineEnds,
    ) -> Option<(&'a [u8], &'a [u8])>
        requires { AreEnds (rs_of self) ends.old text.now }
        ensures cut { MatchOption result (records_by (rs_of self) text.now ≡ [])
            (λ parts. records_by (rs_of self) text.now
            ≡ parts.0.now ∷ records_by (rs_of self) parts.1.now) }
        ensures short { IfSome result
            (λ parts. length parts.0.now + length parts.1.now ≤ length text.now) }
        ensures less { IfSome result (λ parts. length parts.1.now < length text.now) }
        ensures ends { MatchOption result (AreEnds (rs_of self) ends.new text.now)
            (λ parts. AreEnds (rs_of self) ends.new parts.1.now) }
    {
        match self {
            Separator::Byte(byte) => ends.split_line(text, byte),
            Separator::Paragraph => paragraphs::split_paragraph(text),
        }
    }

    /// The first place from `from` on, counted from 0, at which a record of the bytes begins.
    pub fn next_begin(self, bytes: &[u8], from: usize) -> Option<usize>
        ensures { IsFirst (BeginsAt (rs_of self) bytes.now) from (length bytes.now) result }
    {
        match self {
            Separator::Byte(byte) => lines::next_line(bytes, from, byte),
            Separator::Paragraph => paragraphs::next_paragraph(bytes, from),
        }
    }

    /// Whether a record begins at a place of the bytes, counted from 0.
    pub fn begins_at(self, bytes: &[u8], place: usize) -> bool
        requires { place < length bytes.now }
        ensures { result ≡ spec.begins_at (rs_of self) bytes.now place }
    {
        match self {
            Separator::Byte(byte) => place == 0 || bytes[place - 1] == byte,
            Separator::Paragraph => paragraphs::begins_paragraph(bytes, place),
        }
    }

    /// How many records of the bytes begin from place `start` up to place `end`. Of the bytes before
    /// `start` it looks at two at most, and at none from `end` on.
    pub fn count_begins(self, bytes: &[u8], start: usize, end: usize) -> usize
        requires rising { start ≤ end }
        requires within { end ≤ length bytes.now }
        ensures { result ≡ length (begins_within (rs_of self) bytes.now start end) }
    {
        match self {
            Separator::Byte(byte) => count::count_line_begins(bytes, start, end, byte),
            Separator::Paragraph => count::count_paragraph_begins(bytes, start, end),
        }
    }

    /// How many records the bytes hold.
    pub fn count_records(self, bytes: &[u8]) -> usize
        ensures { result ≡ length (records_by (rs_of self) bytes.now) }
    {
        match self {
            Separator::Byte(byte) => count::count_lines(bytes, byte),
            Separator::Paragraph => count::count_paragraphs(bytes),
        }
    }
}
