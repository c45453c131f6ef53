//! The blanks of a block of bytes, as bits.

ghost use Rattle.std.specs.Prelude.{◌≡◌, ◌+◌, ◌<◌, ◌≤◌, ◌++◌, ◌∷◌, [], length, take, drop};
ghost use Rattle.pawk_fields.specs.Blocks.{blank_bits, block_from};

use pawk_value::is_blank_byte;
use std::simd::prelude::*;

/// How many bytes are looked at side by side.
pub(crate) const LANES: usize = 16;

/// The bit after those of the lanes.
pub(crate) const AFTER_LANES: u64 = 65_536;

/// The blanks among the bytes that are looked at side by side from a place on.
#[inline(always)]
pub(crate) fn lane_blanks(text: &[u8], place: usize) -> u64
    requires { place + LANES ≤ length text.now }
    ensures { result ≡ blank_bits (take LANES (drop place text.now)) }
{
    let here = u8x16::from_slice(&text[place..]);
    let is_blank = here.simd_eq(u8x16::splat(b' '))
        | (here.simd_eq(u8x16::splat(b'\t')) | here.simd_eq(u8x16::splat(b'\n')));
    is_blank.to_bitmask()
}

/// The blanks of a short text, and one after it.
#[inline(never)]
fn short_blanks(text: &[u8]) -> u64
    requires { length text.now < LANES }
    ensures { result ≡ blank_bits (text.now ++ 32 ∷ []) }
{
    let mut bits: u64 = 1;
    let mut place = text.len();
    while 0 < place {
        place -= 1;
        bits = bits + bits + u64::from(is_blank_byte(text[place]));
    }
    bits
}

/// The blanks of the last bytes of a text, and one after them.
#[inline(always)]
fn last_blanks(text: &[u8], from: usize) -> u64
    requires long { LANES ≤ length text.now }
    requires near { length text.now < from + LANES }
    requires within { from ≤ length text.now }
    ensures { result ≡ blank_bits (drop from text.now ++ 32 ∷ []) }
{
    let last = text.len() - LANES;
    (lane_blanks(text, last) + AFTER_LANES) >> (from - last)
}

/// The blanks of a block that is longer than the lanes.
#[inline(always)]
fn wide_blanks(text: &[u8], from: usize) -> u64
    requires { from + LANES ≤ length text.now }
    ensures { result ≡ blank_bits (block_from text.now from) }
{
    let middle = from + LANES;
    let later = if text.len() - middle < LANES {
        last_blanks(text, middle)
    } else {
        lane_blanks(text, middle)
    };
    lane_blanks(text, from) + later * AFTER_LANES
}

/// The blanks of the block from a place on.
#[inline(always)]
pub(crate) fn block_blanks(text: &[u8], from: usize) -> u64
    requires { from ≤ length text.now }
    ensures { result ≡ blank_bits (block_from text.now from) }
{
    if LANES <= text.len() - from {
        return wide_blanks(text, from);
    }
    if LANES <= text.len() {
        return last_blanks(text, from);
    }
    short_blanks(&text[from..])
}
