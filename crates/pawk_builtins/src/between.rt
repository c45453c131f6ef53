//! The pieces of a text between matches.

ghost use Rattle.std.specs.Prelude.{◌≡◌, ◌≤◌, length, IfErr, IfOk, IfSome};
ghost use Rattle.pawk_ere.specs.Caches.{IsOfItsText, IsOfText};
ghost use Rattle.pawk_fields.specs.FieldsOf.{TellsNone};
ghost use Rattle.pawk_builtins.specs.MatcherViews.{AreBetweenMatches, AreInside, AreOfTheirTexts};

use crate::slot::fill_slot;
use pawk_ere::{Loan, Matcher};
use pawk_fields::append_between;
use pawk_value::Stop;
use std::alloc::Global;
use std::ops::Range;

/// How many pieces there is room for at first.
const FIRST_PIECES: usize = 16;

/// Where the pieces of a text lie between the matches, that are not empty, of the expression that
/// `ere` spells.
fn split_with(
    alloc: Global,
    matcher: &mut Matcher,
    ere: &[u8],
    text: &[u8],
) -> Result<Vec<Range<usize>>, Stop>
    requires { IsOfText ere.now matcher.old }
    ensures pieces { IfOk result (λ ranges. AreBetweenMatches ere.now text.now ranges.items) }
    ensures inside { IfOk result (λ ranges. AreInside text.now ranges.items) }
    ensures fault { IfErr result (TellsNone ere.now) }
    ensures matcher { matcher.new ≡ matcher.old }
{
    let mut ranges = Vec::with_capacity(alloc, FIRST_PIECES)?;
    append_between(matcher, &mut ranges, text, ere, false)?;
    Ok(ranges)
}

/// Where the pieces lie, by the matcher in a place, which is read if it is not there.
fn split_in(
    slot: &mut Option<Loan>,
    alloc: Global,
    ere: &[u8],
    text: &[u8],
) -> Result<Vec<Range<usize>>, Stop>
    requires { IfSome slot.old IsOfItsText }
    ensures slot { IfSome slot.new IsOfItsText }
    ensures pieces { IfOk result (λ ranges. AreBetweenMatches ere.now text.now ranges.items) }
    ensures inside { IfOk result (λ ranges. AreInside text.now ranges.items) }
    ensures fault { IfErr result (TellsNone ere.now) }
{
    fill_slot(slot, alloc, ere)?;
    match slot {
        Some(loan) => split_with(alloc, &mut loan.matcher, ere, text),
        None => unreachable!(),
    }
}

/// Where the pieces lie, by the matcher of this number.
pub(crate) fn split_fixed(
    fixed: &mut Vec<Option<Loan>>,
    number: usize,
    alloc: Global,
    ere: &[u8],
    text: &[u8],
) -> Result<Vec<Range<usize>>, Stop>
    requires { AreOfTheirTexts fixed.old.items }
    ensures fixed { AreOfTheirTexts fixed.new.items }
    ensures pieces { IfOk result (λ ranges. AreBetweenMatches ere.now text.now ranges.items) }
    ensures inside { IfOk result (λ ranges. AreInside text.now ranges.items) }
    ensures fault { IfErr result (TellsNone ere.now) }
{
    match fixed.get_mut(number) {
        Some(slot) => split_in(slot, alloc, ere, text),
        None => split_in(&mut None, alloc, ere, text),
    }
}
