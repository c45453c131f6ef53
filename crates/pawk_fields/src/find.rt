//! Looking for words, a block of bytes after the other.

ghost use Rattle.std.specs.Prelude.{◌≡◌, ◌+◌, ◌<◌, ◌≤◌, ◌⊎◌, ◌++◌, length, map, drop, Some, None, OnErr, OnOk};
ghost use Rattle.std.specs.List.{prefix_len};
ghost use Rattle.std.specs.Option.{ForSome};
ghost use Rattle.pawk_fields.specs.Blocks.{blank_bits, block_from};
ghost use Rattle.pawk_fields.specs.Fields.{is_not_blank};
ghost use Rattle.pawk_fields.specs.FieldSeparator.{range_of, ranges_from};
ghost use Rattle.pawk_fields.specs.Splits.{words_from};
ghost use Rattle.pawk_fields.specs.declared.separator.FieldSeparator.{FieldSeparator};

use crate::blocks::block_blanks;
use crate::ends::word_end;
use std::alloc::AllocError;
use std::ops::Range;

/// Adds the ranges of the words that end within a block, until there are `count`. A word begins or ends where a byte
/// and the one before it are not both blanks or both none; a blank is before the block, and none after it.
#[inline(always)]
fn add_words(
    text: &[u8],
    blanks: u64,
    ranges: &mut Vec<Range<usize>>,
    place: &mut usize,
    count: usize,
) -> Result<(), AllocError>
    requires within { place.old ≤ length text.now }
    requires right { blanks ≡ blank_bits (block_from text.now place.old) }
    requires some { 0 < blanks }
    requires few { length ranges.old.items < count }
    ensures same { ranges.new.items
        ++ map range_of (words_from None place.new (drop place.new text.now))
        ≡ ranges.old.items
        ++ map range_of (words_from None place.old (drop place.old text.now)) }
    ensures on { OnOk result (place.old < place.new) }
    ensures more { length ranges.old.items ≤ length ranges.new.items }
{
    // The contract alone speaks of the text.
    let _ = text;
    let block = *place;
    let mut changes = blanks ^ (blanks + blanks + 1);
    while ranges.len() < count {
        let start = block + changes.trailing_zeros() as usize;
        changes &= changes - 1;
        if changes == 0 {
            *place = start;
            return Ok(());
        }
        let end = block + changes.trailing_zeros() as usize;
        ranges.push(start..end)?;
        changes &= changes - 1;
        *place = end;
    }
    Ok(())
}

/// Where a word ends that goes on at a place.
#[inline(never)]
fn long_end(text: &[u8], from: usize) -> usize
    requires { from ≤ length text.now }
    ensures { result ≡ from + prefix_len is_not_blank (drop from text.now) }
{
    word_end(text, from)
}

/// Adds the range of the word at a place, if no byte of the block there is a blank.
#[inline(always)]
fn add_long(
    text: &[u8],
    ranges: &mut Vec<Range<usize>>,
    place: &mut usize,
) -> Result<(), AllocError>
    requires some { place.old < length text.now }
    requires none { blank_bits (block_from text.now place.old) ≡ 0 }
    ensures same { ranges.new.items
        ++ map range_of (words_from None place.new (drop place.new text.now))
        ≡ ranges.old.items
        ++ map range_of (words_from None place.old (drop place.old text.now)) }
    ensures on { OnOk result (place.old < place.new) }
    ensures more { length ranges.old.items ≤ length ranges.new.items }
{
    let end = long_end(text, *place);
    ranges.push(*place..end)?;
    *place = end;
    Ok(())
}

/// Adds the ranges of the words that end within the block at a place, until there are `count`, or that of one long
/// word.
#[inline(always)]
fn find_block(
    text: &[u8],
    ranges: &mut Vec<Range<usize>>,
    place: &mut usize,
    count: usize,
) -> Result<(), AllocError>
    requires some { place.old < length text.now }
    requires few { length ranges.old.items < count }
    ensures same { ranges.new.items
        ++ map range_of (words_from None place.new (drop place.new text.now))
        ≡ ranges.old.items
        ++ map range_of (words_from None place.old (drop place.old text.now)) }
    ensures on { OnOk result (place.old < place.new) }
    ensures more { length ranges.old.items ≤ length ranges.new.items }
{
    let blanks = block_blanks(text, *place);
    if blanks == 0 {
        return add_long(text, ranges, place);
    }
    add_words(text, blanks, ranges, place, count)
}

/// Looks for words from a place on, until there are `count` ranges or none is left.
#[inline(always)]
fn find_from(
    text: &[u8],
    ranges: &mut Vec<Range<usize>>,
    place: &mut usize,
    count: usize,
) -> Result<(), AllocError>
    ensures same { ranges.new.items
        ++ map range_of (words_from None place.new (drop place.new text.now))
        ≡ ranges.old.items
        ++ map range_of (words_from None place.old (drop place.old text.now)) }
    ensures enough { OnOk result
        ((count ≤ length ranges.new.items) ⊎ (length text.now ≤ place.new)) }
    ensures more { length ranges.old.items ≤ length ranges.new.items }
{
    while *place < text.len() {
        if ranges.len() >= count {
            return Ok(());
        }
        find_block(text, ranges, place, count)?;
    }
    Ok(())
}

/// Looks for the words of a text from a place on, and adds their ranges, in bytes counted from 0, until there are
/// `count` ranges or no word is left. Then `next` is the place from which on the next word is looked for, or `None`.
/// What was added and what is left are together what was left, also where memory was refused.
///
/// POSIX.1-2017, awk, "Variables and Special Variables" (`FS`, the default).
#[inline(never)]
pub fn find_words(
    text: &[u8],
    ranges: &mut Vec<Range<usize>>,
    next: &mut Option<usize>,
    count: usize,
) -> Result<(), AllocError>
    requires { ForSome next.old (λ p. p ≤ length text.now) }
    ensures same { ranges.new.items
        ++ map range_of (ranges_from FieldSeparator.Blanks text.now next.new)
        ≡ ranges.old.items
        ++ map range_of (ranges_from FieldSeparator.Blanks text.now next.old) }
    ensures within { ForSome next.new (λ p. p ≤ length text.now) }
    ensures enough { OnOk result ((count ≤ length ranges.new.items) ⊎ (next.new ≡ None)) }
    ensures more { length ranges.old.items ≤ length ranges.new.items }
{
    let Some(from) = *next else {
        return Ok(());
    };
    let mut place = from;
    let answer = find_from(text, ranges, &mut place, count);
    *next = if place < text.len() {
        Some(place)
    } else {
        None
    };
    answer
}
