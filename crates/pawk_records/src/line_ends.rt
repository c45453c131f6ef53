//! The ends of lines, looked for in many bytes at a time.

ghost use Rattle.std.specs.Prelude.{◌≡◌, ◌≢◌, ℕ, ◌+◌, ◌<◌, ◌≤◌, [], ◌∷◌, length, take, drop};
ghost use Rattle.std.specs.Prelude.{List, IfSome, MatchOption};
ghost use Rattle.pawk_records.specs.Records.{NoSeparator, records};
ghost use Rattle.pawk_records.specs.LineEnds.{end_bits};

use crate::lines::split_line;
use std::simd::prelude::*;

/// How many bytes are looked at side by side.
const LANES: usize = 16;

/// The bit after those of the lanes.
const AFTER_LANES: u64 = 65_536;

/// How many bytes two such looks take in.
const PAIR: usize = 32;

/// The bit after those of two looks.
const AFTER_PAIR: u64 = 4_294_967_296;

/// How many bytes four looks take in: as many as there are bits.
pub(crate) const BLOCK: usize = 64;

/// The ends of lines among the bytes that are looked at side by side from a place on.
#[inline(always)]
fn lane_ends(text: &[u8], place: usize, separator: u8) -> u64
    requires { place + LANES ≤ length text.now }
    ensures { result ≡ end_bits separator (take LANES (drop place text.now)) }
{
    let here = u8x16::from_slice(&text[place..]);
    here.simd_eq(u8x16::splat(separator)).to_bitmask()
}

/// The ends of lines among the bytes of two looks from a place on.
#[inline(always)]
fn pair_ends(text: &[u8], place: usize, separator: u8) -> u64
    requires { place + PAIR ≤ length text.now }
    ensures { result ≡ end_bits separator (take PAIR (drop place text.now)) }
{
    let here = lane_ends(text, place, separator);
    let behind = lane_ends(text, place + LANES, separator);
    here + behind * AFTER_LANES
}

/// The ends of lines among the bytes of four looks from a place on.
#[inline(always)]
pub(crate) fn block_ends(text: &[u8], place: usize, separator: u8) -> u64
    requires { place + BLOCK ≤ length text.now }
    ensures { result ≡ end_bits separator (take BLOCK (drop place text.now)) }
{
    let here = pair_ends(text, place, separator);
    let behind = pair_ends(text, place + PAIR, separator);
    here + behind * AFTER_PAIR
}

/// The first line of a text and what follows it, if there is one. None ends within the first `from`
/// bytes, and few are left after them.
#[inline(never)]
fn late_line(text: &[u8], from: usize, separator: u8) -> Option<(&[u8], &[u8])>
    requires within { from ≤ length text.now }
    requires none { NoSeparator separator (take from text.now) }
    ensures cut { MatchOption result (records separator text.now ≡ [])
        (λ parts. records separator text.now ≡ parts.0.now ∷ records separator parts.1.now) }
    ensures short { IfSome result
        (λ parts. length parts.0.now + length parts.1.now ≤ length text.now) }
    ensures less { IfSome result (λ parts. length parts.1.now < length text.now) }
{
    split_line(text, from, separator)
}

/// Where lines end at the front of a text, as far as it was looked at: a bit for each byte that was
/// seen. It goes along as lines are cut off, so that one look serves all lines that end in it.
#[derive(Clone, Copy)]
pub struct LineEnds {
    bits: u64,
    seen: usize,
}

impl LineEnds {
    ghost use Rattle.pawk_records.specs.LineEnds.{AreEnds, AreLineEnds};

    /// No byte was seen, whatever the text is.
    #[inline(always)]
    pub fn none() -> Self
        ensures { (rs text : List ℕ) → AreEnds rs result text }
    {
        LineEnds { bits: 0, seen: 0 }
    }

    /// The first line of a text and what follows it. The bits are those of the bytes from a place
    /// on, before which no line ends.
    #[inline(always)]
    fn cut_line<'a>(&mut self, text: &'a [u8], from: usize, separator: u8) -> (&'a [u8], &'a [u8])
        requires within { from ≤ length text.now }
        requires none { NoSeparator separator (take from text.now) }
        requires ends { AreLineEnds separator self.old (drop from text.now) }
        requires some { self.old.bits ≢ 0 }
        ensures cut { records separator text.now
            ≡ result.0.now ∷ records separator result.1.now }
        ensures short { length result.0.now + length result.1.now ≤ length text.now }
        ensures less { length result.1.now < length text.now }
        ensures ends { AreLineEnds separator self.new result.1.now }
    {
        // The contract alone speaks of the separator.
        let _ = separator;
        let first = self.bits.trailing_zeros() as usize;
        let end = from + first;
        self.bits = (self.bits >> first) >> 1;
        self.seen -= first + 1;
        (&text[..end], &text[end + 1..])
    }

    /// The first line of a text and what follows it, if there is one. None ends within the bytes
    /// that were seen, so those after them are looked at.
    fn find_line<'a>(&mut self, text: &'a [u8], separator: u8) -> Option<(&'a [u8], &'a [u8])>
        requires ends { AreLineEnds separator self.old text.now }
        requires none { self.old.bits ≡ 0 }
        ensures cut { MatchOption result (records separator text.now ≡ [])
            (λ parts. records separator text.now
            ≡ parts.0.now ∷ records separator parts.1.now) }
        ensures short { IfSome result
            (λ parts. length parts.0.now + length parts.1.now ≤ length text.now) }
        ensures less { IfSome result (λ parts. length parts.1.now < length text.now) }
        ensures ends { MatchOption result (AreLineEnds separator self.new text.now)
            (λ parts. AreLineEnds separator self.new parts.1.now) }
    {
        let mut from = self.seen;
        while BLOCK <= text.len() - from {
            let bits = block_ends(text, from, separator);
            if bits != 0 {
                *self = LineEnds { bits, seen: BLOCK };
                return Some(self.cut_line(text, from, separator));
            }
            from += BLOCK;
        }
        *self = LineEnds::none();
        late_line(text, from, separator)
    }

    /// The first line of a text and what follows it, if there is one.
    #[inline(always)]
    pub(crate) fn split_line<'a>(
        &mut self,
        text: &'a [u8],
        separator: u8,
    ) -> Option<(&'a [u8], &'a [u8])>
        requires { AreLineEnds separator self.old text.now }
        ensures cut { MatchOption result (records separator text.now ≡ [])
            (λ parts. records separator text.now
            ≡ parts.0.now ∷ records separator parts.1.now) }
        ensures short { IfSome result
            (λ parts. length parts.0.now + length parts.1.now ≤ length text.now) }
        ensures less { IfSome result (λ parts. length parts.1.now < length text.now) }
        ensures ends { MatchOption result (AreLineEnds separator self.new text.now)
            (λ parts. AreLineEnds separator self.new parts.1.now) }
    {
        if self.bits != 0 {
            return Some(self.cut_line(text, 0, separator));
        }
        self.find_line(text, separator)
    }
}
