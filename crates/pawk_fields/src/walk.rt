//! Walks over the fields of a record.

ghost use Rattle.std.specs.Prelude.{◌≡◌, ◌<◌, ◌≤◌, ◌^◌, ◌↔◌, ℕ, [], ◌∷◌};
ghost use Rattle.std.specs.Prelude.{List, length, IfErr, IfOk, IfSome};
ghost use Rattle.std.specs.Prelude.{MatchOption};
ghost use Rattle.std.specs.Option.{ForSome};
ghost use Rattle.pawk_fields.specs.Between.{AreFieldsBetween};
ghost use Rattle.pawk_fields.specs.FieldWalks.{AreLeft, HandsOut, IsNextMatch, IsOver};
ghost use Rattle.pawk_fields.specs.FieldWalks.{NeedsFinder, most_left};
ghost use Rattle.pawk_fields.specs.Cut.{IsAhead};
ghost use Rattle.pawk_fields.specs.FieldsOf.{AreFieldsOf, IsFaultOf, TellsNone, separator_of};

use crate::FieldSeparator;
use crate::cut::{Ahead, cut_at};
use crate::finder::{Finder, next_match};
use pawk_ere::Misses;
use pawk_value::{Fault, Stop};
use std::marker::Model;
use std::ops::Range;

/// What an FS of one byte separates by: a space by runs of blanks, any other byte by itself, in paragraph mode by
/// newlines too. POSIX.1-2017, awk, "Variables and Special Variables" (`FS`, `RS`).
#[inline]
pub fn byte_separator(byte: u8, paragraph: bool) -> FieldSeparator
    ensures { result ≡ separator_of byte paragraph }
{
    if byte == b' ' {
        FieldSeparator::Blanks
    } else if paragraph {
        FieldSeparator::ByteOrNewline(byte)
    } else {
        FieldSeparator::Byte(byte)
    }
}

/// The next match that is not empty, looked for where it is not known.
fn match_ahead<F: Finder>(
    finder: &mut F,
    misses: &mut Misses,
    pattern: &[u8],
    text: &[u8],
    from: usize,
    ahead: Ahead,
) -> Result<Option<(usize, usize)>, Stop>
    requires ready { F.answers_for finder.old pattern.now }
    requires misses { F.are_misses finder.old text.now misses.old }
    requires within { from ≤ length text.now }
    requires ahead { IsAhead pattern.now text.now (Some from) ahead }
    ensures found { IfOk result (IsNextMatch pattern.now text.now from) }
    ensures fault { IfErr result (TellsNone pattern.now) }
    ensures misses { F.are_misses finder.old text.now misses.new }
    ensures finder { finder.new ≡ finder.old }
{
    match ahead {
        Ahead::Known(found) => Ok(found),
        Ahead::Unknown => next_match(finder, misses, pattern, text, from),
    }
}

/// A walk over the fields of a record between the matches of an expression.
#[derive(Drop)]
pub(crate) struct FieldWalk<'a> {
    pattern: &'a [u8],
    paragraph: bool,
    text: &'a [u8],
    next: Option<usize>,
    ahead: Ahead,
}

impl<'a> Model for FieldWalk<'a> {
    ghost use Rattle.std.specs.Prelude.{◌≤◌, length};
    ghost use Rattle.std.specs.Option.{ForSome};
    ghost use Rattle.pawk_fields.specs.FieldWalks.{Rest};
    ghost use Rattle.pawk_fields.specs.Cut.{IsAhead};

    ghost Value = { Rest };

    ghost view = { λ w. record {
      pattern = w.pattern.now;
      paragraph = w.paragraph;
      text = w.text.now;
      next = w.next;
    } };

    ghost invariant = { λ w. ForSome w.next (λ p. p ≤ length w.text.now)
        × IsAhead w.pattern.now w.text.now w.next w.ahead };
}

impl<'a> FieldWalk<'a> {
    /// A walk over the fields of a record between the matches of the expression that `pattern`
    /// spells and that are not empty, in paragraph mode also between newlines. An empty record has
    /// no fields.
    #[inline]
    pub(crate) fn between(text: &'a [u8], pattern: &'a [u8], paragraph: bool) -> Self
        ensures fields { (fields : List (ℕ × ℕ)) → AreLeft result fields
            ↔ AreFieldsBetween pattern.entry.now paragraph text.entry.now fields }
        ensures pattern { result.pattern ≡ pattern.entry.now }
        ensures text { result.text ≡ text.entry.now }
        ensures few { most_left result.next result.text < 2 ^ 64 }
    {
        FieldWalk {
            pattern,
            paragraph,
            text,
            next: if text.is_empty() { None } else { Some(0) },
            ahead: Ahead::Unknown,
        }
    }

    /// The range of the next field, in bytes counted from 0, or `None` after the last one. The finder
    /// answers for the expression, and the misses are of this record. Takes no memory but what the
    /// finder and the misses take.
    ///
    /// Fault `ere` where the expression is needed and cannot be read. After an `Err` the walk is as
    /// before.
    pub(crate) fn next_range<F: Finder>(
        &mut self,
        finder: &mut F,
        misses: &mut Misses,
    ) -> Result<Option<Range<usize>>, Stop>
        requires ready { NeedsFinder self.old → F.answers_for finder.old self.old.pattern }
        requires misses { F.are_misses finder.old self.old.text misses.old }
        ensures field { IfOk result (λ field. MatchOption field (IsOver self.old)
            (λ f. HandsOut self.old self.new (f.start, f.end))) }
        ensures within { IfOk result (λ field. IfSome field
            (λ f. (f.start ≤ f.end) × (f.end ≤ length self.old.text))) }
        ensures nearer { IfOk result (λ field. IfSome field
            (λ _. most_left self.new.next self.new.text < most_left self.old.next self.old.text)) }
        ensures same { self.new ≡ record self.old { next = self.new.next } }
        ensures refused { IfErr result (λ _. self.new ≡ self.old) }
        ensures fault { IfErr result
            (λ stop. NeedsFinder self.old × TellsNone self.old.pattern stop) }
        ensures misses { F.are_misses finder.old self.old.text misses.new }
        ensures finder { finder.new ≡ finder.old }
    {
        let Some(from) = self.next else {
            return Ok(None);
        };
        let found = match_ahead(finder, misses, self.pattern, self.text, from, self.ahead)?;
        let cut = cut_at(self.text, self.paragraph, from, found);
        self.next = cut.next;
        self.ahead = cut.ahead;
        Ok(Some(from..cut.end))
    }
}
