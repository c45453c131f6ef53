//! Where the fields lie in a line that is their texts with OFS between them.

ghost use Rattle.std.specs.Prelude.{◌≡◌, ◌<◌, ◌≤◌, true, length, map, slice_get, slice_range, Some, OnErr, OnOk};
ghost use Rattle.pawk_fields.specs.FieldSeparator.{range_of};
ghost use Rattle.pawk_record.specs.Lines.{AreJoined, IsAfter, MovesEnd, before_at, exchanged, moved};

use std::alloc::AllocError;
use std::mem;
use std::ops::Range;

/// The bytes of a text in a range, as far as there are any.
#[inline]
pub(crate) fn bytes_in(text: &[u8], start: usize, end: usize) -> &[u8]
    ensures { result.now ≡ slice_range text.now start end }
{
    let first = start.min(text.len());
    let past = end.min(text.len()).max(first);
    &text[first..past]
}

/// What is before a value, by the number of values before it.
#[inline]
pub(crate) fn before_at(ofs: &[u8], number: usize) -> &[u8]
    ensures { result.now ≡ before_at number ofs.now }
{
    if number == 0 { b"" } else { ofs }
}

/// Whether a field is in a line right after some bytes at a place.
#[inline]
fn is_field_after(text: &[u8], place: usize, before: &[u8], range: &Range<usize>) -> bool
    ensures { result ≡ true → IsAfter text.now place before.now range.now }
{
    range.start <= range.end
        && range.end <= text.len()
        && place <= range.start
        && &text[place..range.start] == before
}

/// Whether a line is the texts of fields that came from outside with `ofs` between them.
pub(crate) fn are_joined(text: &[u8], ranges: &[Range<usize>], ofs: &[u8]) -> bool
    ensures { result ≡ true → AreJoined ofs.now text.now ranges.now }
{
    let mut place = 0;
    for (number, range) in ranges.iter().enumerate() {
        if !is_field_after(text, place, before_at(ofs, number), range) {
            return false;
        }
        place = range.end;
    }
    if place != text.len() {
        return false;
    }
    true
}

/// Puts other bytes in the place of a part of a text. Where their lengths differ, the new text is put together in
/// `room`, which holds the old one afterwards.
pub(crate) fn exchange(
    text: &mut Vec<u8>,
    range: (usize, usize),
    bytes: &[u8],
    room: &mut Vec<u8>,
) -> Result<(), AllocError>
    requires order { range.0 ≤ range.1 }
    requires within { range.1 ≤ length text.old.items }
    ensures exchanged { OnOk result
        (text.new.items ≡ exchanged text.old.items range.0 range.1 bytes.now) }
    ensures refused { OnErr result (text.new.items ≡ text.old.items) }
{
    let (start, end) = range;
    if bytes.len() == end - start {
        text[start..end].copy_from_slice(bytes);
        return Ok(());
    }
    room.clear();
    room.extend_from_slice(&text[..start])?;
    room.extend_from_slice(bytes)?;
    room.extend_from_slice(&text[end..])?;
    mem::swap(text, room);
    Ok(())
}

/// Where a range lies after a place before it moved.
#[inline]
fn move_one(range: &Range<usize>, from: usize, to: usize) -> Range<usize>
    ensures { result ≡ moved from to range.now }
{
    let start = range.start.saturating_sub(from).saturating_add(to);
    start..range.end.saturating_sub(from).saturating_add(to)
}

/// Moves ranges by as much as a place before them moved.
fn move_all(ranges: &mut [Range<usize>], from: usize, to: usize)
    ensures { ranges.new ≡ map (moved from to) ranges.old }
{
    for range in ranges.iter_mut() {
        *range = move_one(range, from, to);
    }
}

/// Moves the end of the range with that number to a place, and those after it by as much.
pub(crate) fn move_end(
    ranges: &mut [Range<usize>],
    number: usize,
    range: (usize, usize),
    end: usize,
)
    requires range { slice_get ranges.old number ≡ Some (range_of range) }
    requires within { number < length ranges.old }
    ensures { MovesEnd number range end ranges.old ranges.new }
{
    if end == range.1 {
        return;
    }
    ranges[number] = range.0..end;
    move_all(&mut ranges[number + 1..], range.1, end);
}
