//! Counting words.

ghost use Rattle.std.specs.Prelude.{◌≡◌, ◌+◌, ◌-◌, ◌≤◌, length, take, drop};
ghost use Rattle.pawk_fields.specs.Fields.{blank_fields};
ghost use Rattle.pawk_fields.specs.Words.{fields_left, word_begins};

use pawk_value::is_blank_byte;
use std::simd::prelude::*;

/// How many bytes are looked at side by side.
const LANES: usize = 16;

/// How many bytes from a place on, of those that are looked at side by side, begin a word.
#[inline(always)]
fn count_begins(text: &[u8], place: usize) -> usize
    requires behind { 1 ≤ place }
    requires room { place + LANES ≤ length text.now }
    ensures value { result
        ≡ word_begins (take LANES (drop (place - 1) text.now)) (take LANES (drop place text.now)) }
    ensures bound { result ≤ LANES }
{
    let space = u8x16::splat(b' ');
    let tab = u8x16::splat(b'\t');
    let newline = u8x16::splat(b'\n');
    let before = u8x16::from_slice(&text[place - 1..]);
    let here = u8x16::from_slice(&text[place..]);
    let is_after_blank = before.simd_eq(space) | (before.simd_eq(tab) | before.simd_eq(newline));
    let is_no_blank = here.simd_ne(space) & (here.simd_ne(tab) & here.simd_ne(newline));
    (is_after_blank & is_no_blank).to_bitmask().count_ones() as usize
}

/// How many words begin in what is left of a text, in the same steps for each byte.
#[inline]
fn count_later(rest: &[u8], starts_after_blank: bool) -> usize
    ensures value { result ≡ length (fields_left starts_after_blank rest.now) }
    ensures bound { result ≤ length rest.now }
{
    let mut count = 0;
    let mut after_blank = starts_after_blank;
    for byte in rest {
        let is_blank = is_blank_byte(*byte);
        count += usize::from(after_blank & !is_blank);
        after_blank = is_blank;
    }
    count
}

/// How many words a text has.
pub(crate) fn count_words(text: &[u8]) -> usize
    ensures { result ≡ length (blank_fields text.now) }
{
    if text.is_empty() {
        return 0;
    }
    let mut count = usize::from(!is_blank_byte(text[0]));
    let mut place = 1;
    while LANES <= text.len() - place {
        count += count_begins(text, place);
        place += LANES;
    }
    count + count_later(&text[place..], is_blank_byte(text[place - 1]))
}
