//! The matchers of a run.

ghost use Rattle.std.specs.Prelude.{◌≡◌, ◌≤◌, ◌<◌, ◌+◌, ◌^◌, [], length, map, slice_range, IfErr, IfOk, IfSome};
ghost use Rattle.std.specs.List.{All};
ghost use Rattle.pawk_ere.specs.Caches.{IsAnswerOfText};
ghost use Rattle.pawk_fields.specs.FieldsOf.{TellsNone};
ghost use Rattle.pawk_store.specs.Builtins.{found_by, replaced_by, pieces_by, pieces_between, fixed_at};
ghost use Rattle.pawk_builtins.specs.ExpressionViews.{expression_of, texts_of};
ghost use Rattle.pawk_builtins.specs.MatcherViews.{AreOfTheirTexts, IsReplaced, SaysWhetherMatches, matched_by};
ghost use Rattle.pawk_builtins.specs.Pieces.{pieces_in};
ghost use Rattle.pawk_builtins.specs.Replaces.{Replaces};
ghost use Rattle.pawk_builtins.specs.Settles.{Settles};

use crate::between::split_fixed;
use crate::expression::{EreReference, fixed_text, spelled_text};
use crate::replace::{Change, replace_fixed, replace_lent};
use crate::slot::{find_in, matches_in};
use pawk_code::expression::Pattern;
use pawk_code::word::ReplacedMatches;
use pawk_ere::{Cache, Loan};
use pawk_fields::{Finder, split_fields_with};
use pawk_value::{Fault, Stop};
use std::alloc::{AllocError, Global};
use std::marker::Model;
use std::ops::Range;

/// How many matchers of expressions that were values are kept, beside the one that was used last.
pub const CACHE_SIZE: usize = 1024;

/// Places in a longer text are no numbers of 64 bits with a sign, and no memory holds one.
pub const LONGEST_TEXT: usize = 9_223_372_036_854_775_806;

/// The matchers of a run: one for each expression between slashes, read when it is first used, and
/// those of the expressions that were values last.
#[derive(Drop)]
pub struct Matchers {
    alloc: Global,
    fixed: Vec<Option<Loan>>,
    cache: Cache,
}

impl Model for Matchers {
    ghost use Rattle.std.specs.Prelude.{◌≡◌};
    ghost use Rattle.pawk_builtins.specs.Limits.{cache_size};
    ghost use Rattle.pawk_builtins.specs.MatcherViews.{AreOfTheirTexts};

    ghost Value = { Unit {0} };

    ghost view = { λ m. tt };

    ghost invariant = { λ m. AreOfTheirTexts m.fixed.items × (m.cache ≡ cache_size) };
}

/// Places for `count` matchers, with none there.
fn empty_slots(alloc: Global, count: usize) -> Result<Vec<Option<Loan>>, AllocError>
    ensures { IfOk result (λ slots. AreOfTheirTexts slots.items) }
{
    let mut slots = Vec::with_capacity(alloc, count)?;
    for _ in 0..count {
        slots.push(None)?;
    }
    Ok(slots)
}

/// What is found in a text by the matcher of this number.
fn find_fixed(
    fixed: &mut Vec<Option<Loan>>,
    number: usize,
    alloc: Global,
    ere: &[u8],
    text: &[u8],
) -> Result<Option<(usize, usize)>, Stop>
    requires { AreOfTheirTexts fixed.old.items }
    ensures fixed { AreOfTheirTexts fixed.new.items }
    ensures answer { IfOk result (IsAnswerOfText ere.now text.now 0) }
    ensures fault { IfErr result (TellsNone ere.now) }
{
    match fixed.get_mut(number) {
        Some(slot) => find_in(slot, alloc, ere, text),
        None => find_in(&mut None, alloc, ere, text),
    }
}

/// Whether anything is found in a text by the matcher of this number.
fn matches_fixed(
    fixed: &mut Vec<Option<Loan>>,
    number: usize,
    alloc: Global,
    ere: &[u8],
    text: &[u8],
) -> Result<bool, Stop>
    requires { AreOfTheirTexts fixed.old.items }
    ensures fixed { AreOfTheirTexts fixed.new.items }
    ensures answer { IfOk result (SaysWhetherMatches ere.now text.now) }
    ensures fault { IfErr result (TellsNone ere.now) }
{
    match fixed.get_mut(number) {
        Some(slot) => matches_in(slot, alloc, ere, text),
        None => matches_in(&mut None, alloc, ere, text),
    }
}

impl Matchers {
    /// The matchers of a run of a program with this number of expressions between slashes.
    pub fn new(alloc: Global, expressions: usize) -> Result<Matchers, AllocError> {
        Ok(Matchers {
            alloc,
            fixed: empty_slots(alloc, expressions)?,
            cache: Cache::with(alloc, CACHE_SIZE)?,
        })
    }

    /// What is found in a text by the matcher of the expression, which `ere` spells.
    fn find_spelled(
        &mut self,
        pattern: &Pattern,
        ere: &[u8],
        text: &[u8],
    ) -> Result<Option<(usize, usize)>, Stop>
        ensures answer { IfOk result (IsAnswerOfText ere.now text.now 0) }
        ensures fault { IfErr result (TellsNone ere.now) }
    {
        match pattern {
            Pattern::Fixed(number) => {
                find_fixed(&mut self.fixed, *number, self.alloc, ere, text)
            }
            Pattern::Value(_) => self.cache.find_match(ere, text, 0),
        }
    }

    /// Where the expression matches first in a text: the begin and the end of the longest match there,
    /// in bytes counted from 0.
    ///
    /// Fault `ere` where it is a text that is no expression.
    ///
    /// POSIX.1-2017, awk, "Regular Expressions".
    #[inline(always)]
    pub fn find(
        &mut self,
        expression: EreReference<'_>,
        text: &[u8],
    ) -> Result<Option<(usize, usize)>, Stop>
        ensures answer { Settles (λ found. found)
            (found_by (expression_of expression.entry) text.now) result }
        ensures within { IfOk result
            (λ found. IfSome found (λ m. (m.0 ≤ m.1) × (m.1 < 2 ^ 63))) }
        ensures place { IfOk result
            (λ found. IfSome found (λ m. (m.0 ≤ m.1) × (m.1 + 1 < 2 ^ 63))) }
    {
        if text.len() > LONGEST_TEXT {
            return Err(Stop::Memory);
        }
        match spelled_text(expression) {
            Some(ere) => self.find_spelled(expression.pattern, ere, text),
            None => Err(Stop::Fault(Fault::Ere)),
        }
    }

    /// Whether the expression matches anywhere in a text. For one between slashes this is one walk
    /// over the text, where [`Matchers::find`] looks for the begin and the end of the match.
    ///
    /// Fault `ere` as [`Matchers::find`] has it.
    ///
    /// POSIX.1-2017, awk, "Regular Expressions".
    #[inline(always)]
    pub fn is_match(&mut self, expression: EreReference<'_>, text: &[u8]) -> Result<bool, Stop>
        ensures { Settles (λ holds. holds)
            (matched_by (expression_of expression.entry) text.now) result }
    {
        match (expression.pattern, spelled_text(expression)) {
            (Pattern::Fixed(number), Some(ere)) => {
                matches_fixed(&mut self.fixed, *number, self.alloc, ere, text)
            }
            _ => Ok(self.find(expression, text)?.is_some()),
        }
    }

    /// Replaces by the matcher of the expression, which `ere` spells.
    #[inline(always)]
    fn replace_spelled(
        &mut self,
        pattern: &Pattern,
        ere: &[u8],
        change: Change<'_>,
        out: &mut Vec<u8>,
    ) -> Result<usize, Stop>
        requires short { length change.text.now + 1 < 2 ^ 63 }
        requires empty { out.old.items ≡ [] }
        ensures text { IfOk result (IsReplaced ere.now change.entry.count
            change.entry.replacement.now change.entry.text.now out.new.items) }
        ensures few { IfOk result (λ n. n < 2 ^ 63) }
        ensures fault { IfErr result (TellsNone ere.now) }
    {
        match pattern {
            Pattern::Fixed(number) => {
                replace_fixed(&mut self.fixed, *number, self.alloc, ere, change, out)
            }
            Pattern::Value(_) => replace_lent(&mut self.cache, ere, change, out),
        }
    }

    /// Replaces the first match in a text, or all from left to right, and says how many. The new text
    /// is written into `out`, which was empty, where there is one; nothing is copied where nothing matches, and
    /// no more where it is longer than a text may be.
    ///
    /// Fault `ere` as [`Matchers::find`] has it.
    ///
    /// POSIX.1-2017, awk, "String Functions" (`sub`, `gsub`).
    #[inline(always)]
    pub fn replace(
        &mut self,
        count: ReplacedMatches,
        expression: EreReference<'_>,
        replacement: &[u8],
        text: &[u8],
        out: &mut Vec<u8>,
    ) -> Result<usize, Stop>
        requires { out.old.items ≡ [] }
        ensures text { Replaces
            (replaced_by count (expression_of expression.entry) replacement.now text.now)
            out.new.items result }
        ensures few { IfOk result (λ count. count < 2 ^ 63) }
    {
        if text.len() > LONGEST_TEXT {
            return Err(Stop::Memory);
        }
        let change = Change {
            count,
            replacement,
            text,
        };
        match spelled_text(expression) {
            Some(ere) => self.replace_spelled(expression.pattern, ere, change, out),
            None => Err(Stop::Fault(Fault::Ere)),
        }
    }

    /// Where the pieces of a text lie that an FS separates.
    ///
    /// Fault `fs` or `ere` where the text is not empty and the FS is empty or no expression.
    ///
    /// POSIX.1-2017, awk, "String Functions" (`split`).
    pub fn split_by(&mut self, fs: &[u8], text: &[u8]) -> Result<Vec<Range<usize>>, Stop>
        ensures pieces { Settles (λ ranges. pieces_in text.now ranges.items)
            (pieces_by fs.now text.now) result }
        ensures within { IfOk result
            (λ ranges. All (λ r. (r.start ≤ r.end) × (r.end ≤ length text.now)) ranges.items) }
    {
        split_fields_with(self.alloc, &mut self.cache, text, fs, false)
    }

    /// Where the pieces of a text lie that matches of the expression of this number separate.
    ///
    /// POSIX.1-2017, awk, "String Functions" (`split`).
    pub fn split_between(
        &mut self,
        eres: &[Vec<u8>],
        number: usize,
        text: &[u8],
    ) -> Result<Vec<Range<usize>>, Stop>
        ensures pieces { Settles (λ ranges. pieces_in text.now ranges.items)
            (pieces_between (fixed_at (texts_of eres.now) number) text.now) result }
        ensures within { IfOk result
            (λ ranges. All (λ r. (r.start ≤ r.end) × (r.end ≤ length text.now)) ranges.items) }
    {
        match fixed_text(eres, number) {
            Some(ere) => split_fixed(&mut self.fixed, number, self.alloc, ere, text),
            None => Err(Stop::Fault(Fault::Ere)),
        }
    }
}
