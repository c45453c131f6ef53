//! Replacing matches.

ghost use Rattle.std.specs.Prelude.{◌≡◌, ◌+◌, ◌^◌, ◌<◌, ◌≤◌, ◌++◌, [], false, true, ℕ, List, Ok, length, slice_range, IfErr, IfOk, IfSome, OnOk};
ghost use Rattle.pawk_ere_syntax.specs.Pattern.{Pattern};
ghost use Rattle.pawk_ere.specs.Answers.{AreMissesFor, IsFor};
ghost use Rattle.pawk_fields.specs.Search as search;
ghost use Rattle.pawk_store.specs.Builtins.{replaced};
ghost use Rattle.pawk_store.specs.Builtins as spec;
ghost use Rattle.pawk_builtins.specs.ReplaceWalks as spec_walks;
ghost use Rattle.pawk_builtins.specs.ReplaceWalks.{from_after, is_past, IsAhead, IsNextReplaced};
ghost use Rattle.pawk_builtins.specs.Replaces.{IsOrBothTooLong, Left};
ghost use Rattle.pawk_builtins.specs.MatcherViews.{AreOfTheirTexts, IsReplaced};
ghost use Rattle.pawk_ere.specs.Caches.{IsOfItsText};
ghost use Rattle.pawk_fields.specs.FieldsOf.{TellsNone};

use crate::replacement::{is_plain, push_piece, push_replacement};
use crate::slot::{fill_slot, lend_matcher};
use pawk_code::word::ReplacedMatches;
use pawk_ere::{Cache, Loan, Matcher, Misses};
use pawk_value::{LENGTH_LIMIT, Stop};
use std::alloc::{AllocError, Global};

/// Whether what is found is an empty match at a place where a match that is not empty ended.
fn is_used(found: Option<(usize, usize)>, from: usize, behind: bool) -> bool
    ensures { result ≡ spec_walks.is_used found from behind }
{
    match found {
        Some((_, end)) => behind && end == from,
        None => false,
    }
}

/// The next match from a place on that is replaced: not an empty one at the place, where a match that
/// is not empty ended there.
fn next_match(
    matcher: &mut Matcher,
    misses: &mut Misses,
    text: &[u8],
    from: usize,
    behind: bool,
) -> Result<Option<(usize, usize)>, AllocError>
    requires matcher { (e : Pattern) × IsFor e matcher.old }
    requires misses { AreMissesFor matcher.old text.now misses.old }
    requires within { from ≤ length text.now }
    ensures found { (e : Pattern) → IsFor e matcher.old
        → IfOk result (IsNextReplaced e text.now from behind) }
    ensures ahead { IfOk result (λ found. IfSome found (IsAhead text.now from behind)) }
    ensures misses { AreMissesFor matcher.old text.now misses.new }
    ensures matcher { matcher.new ≡ matcher.old }
{
    let found = matcher.find_next(misses, text, from)?;
    if !is_used(found, from, behind) {
        return Ok(found);
    }
    if from == text.len() {
        return Ok(None);
    }
    matcher.find_next(misses, text, from + 1)
}

/// Where matches are looked for after a match, and whether an empty one there is none.
fn place_past(text: &[u8], begin: usize, end: usize) -> (usize, bool)
    requires { end ≤ length text.now }
    ensures place { result ≡ (from_after text.now (begin, end), is_past text.now (begin, end)) }
    ensures within { (end ≤ result.0) × (result.0 ≤ length text.now) }
{
    if begin < end {
        (end, true)
    } else if end < text.len() {
        (end + 1, false)
    } else {
        (end, true)
    }
}

/// Appends the text from a place up to a match, and what stands for the match; no more of that where the
/// text is longer than a text may be. A `plain` replacement stands for itself.
#[inline(always)]
fn push_match(
    out: &mut Vec<u8>,
    text: &[u8],
    place: usize,
    found: (usize, usize),
    replacement: &[u8],
    plain: bool,
) -> Result<(), AllocError>
    requires place { place ≤ found.0 }
    requires plain { (match : List ℕ) → plain ≡ true → spec.replacement match replacement.now ≡ replacement.now }
    requires found { (found.0 ≤ found.1) × (found.1 ≤ length text.now) }
    ensures { OnOk result (IsOrBothTooLong out.new.items
        (out.old.items ++ slice_range text.now place found.0
        ++ spec.replacement (slice_range text.now found.0 found.1) replacement.now)) }
{
    push_piece(out, &text[place..found.0])?;
    if plain {
        return push_piece(out, replacement);
    }
    push_replacement(out, &text[found.0..found.1], replacement)
}

/// Writes a text with all matches replaced into `out`, which was empty, if there are some, and says how
/// many. It ends at a match with which the text is longer than a text may be.
fn replace_all(
    matcher: &mut Matcher,
    replacement: &[u8],
    text: &[u8],
    out: &mut Vec<u8>,
) -> Result<usize, AllocError>
    requires matcher { (e : Pattern) × IsFor e matcher.old }
    requires short { length text.now + 1 < 2 ^ 63 }
    requires empty { out.old.items ≡ [] }
    ensures text { (e : Pattern) → IsFor e matcher.old → IfOk result
        (λ n. Left out.new.items n (Ok (replaced ReplacedMatches.All e replacement.now text.now))) }
    ensures few { IfOk result (λ n. n < 2 ^ 63) }
    ensures matcher { matcher.new ≡ matcher.old }
{
    let mut place = 0;
    let mut from = 0;
    let mut behind = false;
    let mut count = 0;
    let mut misses = matcher.no_misses();
    let plain = is_plain(replacement);
    while let Some(found) = next_match(matcher, &mut misses, text, from, behind)? {
        push_match(out, text, place, found, replacement, plain)?;
        count += 1;
        place = found.1;
        (from, behind) = place_past(text, found.0, found.1);
        if out.len() > LENGTH_LIMIT {
            return Ok(count);
        }
    }
    if count > 0 {
        out.extend_from_slice(&text[place..])?;
    }
    Ok(count)
}

/// The first match.
fn first_match(matcher: &mut Matcher, text: &[u8]) -> Result<Option<(usize, usize)>, AllocError>
    requires matcher { (e : Pattern) × IsFor e matcher.old }
    ensures found { (e : Pattern) → IsFor e matcher.old
        → IfOk result (λ found. found ≡ search.find e text.now 0) }
    ensures ahead { IfOk result (λ found. IfSome found (IsAhead text.now 0 false)) }
    ensures matcher { matcher.new ≡ matcher.old }
{
    matcher.find(text, 0)
}

/// Writes a text with the first match replaced into `out`, which was empty, if there is one, and says
/// how many.
fn replace_first(
    matcher: &mut Matcher,
    replacement: &[u8],
    text: &[u8],
    out: &mut Vec<u8>,
) -> Result<usize, AllocError>
    requires matcher { (e : Pattern) × IsFor e matcher.old }
    requires empty { out.old.items ≡ [] }
    ensures text { (e : Pattern) → IsFor e matcher.old → IfOk result
        (λ n. Left out.new.items n (Ok (replaced ReplacedMatches.First e replacement.now text.now))) }
    ensures few { IfOk result (λ n. n < 2 ^ 63) }
    ensures matcher { matcher.new ≡ matcher.old }
{
    let Some(found) = first_match(matcher, text)? else {
        return Ok(0);
    };
    push_match(out, text, 0, found, replacement, is_plain(replacement))?;
    out.extend_from_slice(&text[found.1..])?;
    Ok(1)
}

/// What is to be replaced in a text.
#[derive(Clone, Copy)]
pub(crate) struct Change<'c> {
    /// Whether the first match is replaced, or all.
    pub(crate) count: ReplacedMatches,
    /// What a match is replaced by, with ampersands and backslashes.
    pub(crate) replacement: &'c [u8],
    /// The text.
    pub(crate) text: &'c [u8],
}

/// Writes a text with the first match or all replaced into `out`, which was empty, if there are some,
/// and says how many.
#[inline(always)]
fn replace_with(
    matcher: &mut Matcher,
    change: Change<'_>,
    out: &mut Vec<u8>,
) -> Result<usize, AllocError>
    requires matcher { (e : Pattern) × IsFor e matcher.old }
    requires short { length change.text.now + 1 < 2 ^ 63 }
    requires empty { out.old.items ≡ [] }
    ensures text { (e : Pattern) → IsFor e matcher.old → IfOk result
        (λ n. Left out.new.items n
        (Ok (replaced change.entry.count e change.entry.replacement.now change.entry.text.now))) }
    ensures few { IfOk result (λ n. n < 2 ^ 63) }
    ensures matcher { matcher.new ≡ matcher.old }
{
    match change.count {
        ReplacedMatches::First => replace_first(matcher, change.replacement, change.text, out),
        ReplacedMatches::All => replace_all(matcher, change.replacement, change.text, out),
    }
}

/// Replaces by the matcher in a place, which is read if it is not there.
fn replace_in(
    slot: &mut Option<Loan>,
    alloc: Global,
    ere: &[u8],
    change: Change<'_>,
    out: &mut Vec<u8>,
) -> Result<usize, Stop>
    requires slot { IfSome slot.old IsOfItsText }
    requires short { length change.text.now + 1 < 2 ^ 63 }
    requires empty { out.old.items ≡ [] }
    ensures slot { IfSome slot.new IsOfItsText }
    ensures text { IfOk result (IsReplaced ere.now change.entry.count
        change.entry.replacement.now change.entry.text.now out.new.items) }
    ensures few { IfOk result (λ n. n < 2 ^ 63) }
    ensures fault { IfErr result (TellsNone ere.now) }
{
    fill_slot(slot, alloc, ere)?;
    match slot {
        Some(loan) => Ok(replace_with(&mut loan.matcher, change, out)?),
        None => unreachable!(),
    }
}

/// Replaces by a matcher that is read for this text alone.
#[inline(never)]
fn replace_once(
    alloc: Global,
    ere: &[u8],
    change: Change<'_>,
    out: &mut Vec<u8>,
) -> Result<usize, Stop>
    requires short { length change.text.now + 1 < 2 ^ 63 }
    requires empty { out.old.items ≡ [] }
    ensures text { IfOk result (IsReplaced ere.now change.entry.count
        change.entry.replacement.now change.entry.text.now out.new.items) }
    ensures few { IfOk result (λ n. n < 2 ^ 63) }
    ensures fault { IfErr result (TellsNone ere.now) }
{
    replace_in(&mut None, alloc, ere, change, out)
}

/// Replaces by the matcher of this number.
#[inline(always)]
pub(crate) fn replace_fixed(
    fixed: &mut Vec<Option<Loan>>,
    number: usize,
    alloc: Global,
    ere: &[u8],
    change: Change<'_>,
    out: &mut Vec<u8>,
) -> Result<usize, Stop>
    requires fixed { AreOfTheirTexts fixed.old.items }
    requires short { length change.text.now + 1 < 2 ^ 63 }
    requires empty { out.old.items ≡ [] }
    ensures fixed { AreOfTheirTexts fixed.new.items }
    ensures text { IfOk result (IsReplaced ere.now change.entry.count
        change.entry.replacement.now change.entry.text.now out.new.items) }
    ensures few { IfOk result (λ n. n < 2 ^ 63) }
    ensures fault { IfErr result (TellsNone ere.now) }
{
    match fixed.get_mut(number) {
        Some(slot) => replace_in(slot, alloc, ere, change, out),
        None => replace_once(alloc, ere, change, out),
    }
}

/// Replaces by a matcher that a cache lends for the whole text.
#[inline(never)]
pub(crate) fn replace_lent(
    cache: &mut Cache,
    ere: &[u8],
    change: Change<'_>,
    out: &mut Vec<u8>,
) -> Result<usize, Stop>
    requires short { length change.text.now + 1 < 2 ^ 63 }
    requires empty { out.old.items ≡ [] }
    ensures text { IfOk result (IsReplaced ere.now change.entry.count
        change.entry.replacement.now change.entry.text.now out.new.items) }
    ensures few { IfOk result (λ n. n < 2 ^ 63) }
    ensures fault { IfErr result (TellsNone ere.now) }
    ensures cache { cache.new ≡ cache.old }
{
    let mut loan = lend_matcher(cache, ere)?;
    let answer = replace_with(&mut loan.matcher, change, out);
    cache.take_back(loan);
    Ok(answer?)
}
