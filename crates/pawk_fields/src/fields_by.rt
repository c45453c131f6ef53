//! The fields of a record by any FS.

ghost use Rattle.std.specs.Prelude.{◌≡◌, ◌⊎◌, ◌≤◌, [], ℕ, List, length, IfErr, IfOk, OnErr, OnOk};
ghost use Rattle.pawk_fields.specs.FieldsOf.{AddsFields, IfFault, IsFaultOf};

use crate::append::append_between;
use crate::append_ranges;
use crate::finder::{Finder, expression_matcher, lend_matcher};
use crate::walk::byte_separator;
use pawk_ere::Cache;
use pawk_value::{Fault, Stop};
use std::alloc::{AllocError, Global};
use std::ops::Range;

/// Most records have no more fields than this, and their list never grows.
const FEW_FIELDS: usize = 16;

/// Appends the ranges of a record's fields by an FS that is no expression, or of an empty record.
fn append_plain(
    ranges: &mut Vec<Range<usize>>,
    text: &[u8],
    fs: &[u8],
    paragraph: bool,
) -> Result<(), Stop>
    requires plain { (length fs.now ≤ 1) ⊎ (text.now ≡ []) }
    ensures added { OnOk result
        (AddsFields fs.now paragraph text.now ranges.old.items ranges.new.items) }
    ensures refused { OnErr result (ranges.new.items ≡ ranges.old.items) }
    ensures fault { IfErr result (λ stop. IfFault stop (IsFaultOf fs.now text.now)) }
{
    if text.is_empty() {
        return Ok(());
    }
    match fs {
        [byte, ..] => Ok(append_ranges(ranges, byte_separator(*byte, paragraph), text)?),
        [] => Err(Stop::Fault(Fault::Fs)),
    }
}

/// Appends the ranges of a record's fields by any FS, each a begin and an end in the record, in
/// bytes counted from 0. An empty record has none, whatever FS is. An FS of one space separates by
/// runs of spaces, tabs and newlines, any other byte by each occurrence, and a longer FS by the
/// matches of that expression that are not empty: each the leftmost after the one before, and of
/// those at its start the longest. In paragraph mode a newline separates too.
///
/// Of a longer FS the finder answers for that expression. Fault `fs` where FS is empty, `ere` where
/// it spells no expression. After an `Err` the list is as before.
///
/// POSIX.1-2017, awk, "Variables and Special Variables" (`FS`, `RS`).
pub fn append_fields<F: Finder>(
    finder: &mut F,
    ranges: &mut Vec<Range<usize>>,
    text: &[u8],
    fs: &[u8],
    paragraph: bool,
) -> Result<(), Stop>
    requires ready { 2 ≤ length fs.now → F.answers_for finder.old fs.now }
    ensures added { OnOk result
        (AddsFields fs.now paragraph text.now ranges.old.items ranges.new.items) }
    ensures refused { OnErr result (ranges.new.items ≡ ranges.old.items) }
    ensures fault { IfErr result (λ stop. IfFault stop (IsFaultOf fs.now text.now)) }
    ensures finder { finder.new ≡ finder.old }
{
    if fs.len() < 2 || text.is_empty() {
        return append_plain(ranges, text, fs, paragraph);
    }
    append_between(finder, ranges, text, fs, paragraph)
}

/// Appends as [`append_fields`] does, with a matcher made for this call alone.
fn append_alone(
    alloc: Global,
    ranges: &mut Vec<Range<usize>>,
    text: &[u8],
    fs: &[u8],
    paragraph: bool,
) -> Result<(), Stop>
    ensures added { OnOk result
        (AddsFields fs.now paragraph text.now ranges.old.items ranges.new.items) }
    ensures fault { IfErr result (λ stop. IfFault stop (IsFaultOf fs.now text.now)) }
{
    if fs.len() < 2 || text.is_empty() {
        return append_plain(ranges, text, fs, paragraph);
    }
    let mut matcher = expression_matcher(alloc, fs)?;
    append_between(&mut matcher, ranges, text, fs, paragraph)
}

/// Appends as [`append_fields`] does, with a matcher that a cache lends for the whole record.
fn append_lent(
    cache: &mut Cache,
    ranges: &mut Vec<Range<usize>>,
    text: &[u8],
    fs: &[u8],
    paragraph: bool,
) -> Result<(), Stop>
    ensures added { OnOk result
        (AddsFields fs.now paragraph text.now ranges.old.items ranges.new.items) }
    ensures fault { IfErr result (λ stop. IfFault stop (IsFaultOf fs.now text.now)) }
    ensures capacity { cache.new ≡ cache.old }
{
    if fs.len() < 2 || text.is_empty() {
        return append_plain(ranges, text, fs, paragraph);
    }
    let mut loan = lend_matcher(cache, fs)?;
    let answer = append_between(&mut loan.matcher, ranges, text, fs, paragraph);
    cache.take_back(loan);
    answer
}

/// An empty list with space for a few fields, where a record may have any.
fn list_for(alloc: Global, text: &[u8]) -> Result<Vec<Range<usize>>, AllocError>
    ensures { IfOk result (λ ranges. ranges.items ≡ []) }
{
    if text.is_empty() {
        return Ok(Vec::new(alloc));
    }
    Vec::with_capacity(alloc, FEW_FIELDS)
}

/// The ranges of a record's fields by any FS, as [`append_fields`] appends them, with its faults.
///
/// POSIX.1-2017, awk, "Variables and Special Variables" (`FS`, `RS`).
pub fn split_fields(
    alloc: Global,
    text: &[u8],
    fs: &[u8],
    paragraph: bool,
) -> Result<Vec<Range<usize>>, Stop>
    ensures fields { IfOk result
        (λ ranges. AddsFields fs.now paragraph text.now [] ranges.items) }
    ensures fault { IfErr result (λ stop. IfFault stop (IsFaultOf fs.now text.now)) }
{
    let mut ranges = list_for(alloc, text)?;
    append_alone(alloc, &mut ranges, text, fs, paragraph)?;
    Ok(ranges)
}

/// What [`split_fields`] answers, with the matchers that a cache has. After an `Err` the cache
/// answers as before.
pub fn split_fields_with(
    alloc: Global,
    cache: &mut Cache,
    text: &[u8],
    fs: &[u8],
    paragraph: bool,
) -> Result<Vec<Range<usize>>, Stop>
    ensures fields { IfOk result
        (λ ranges. AddsFields fs.now paragraph text.now [] ranges.items) }
    ensures fault { IfErr result (λ stop. IfFault stop (IsFaultOf fs.now text.now)) }
    ensures capacity { cache.new ≡ cache.old }
{
    let mut ranges = list_for(alloc, text)?;
    append_lent(cache, &mut ranges, text, fs, paragraph)?;
    Ok(ranges)
}
