//! What finds the matches of an expression.

ghost use Rattle.std.specs.Prelude.{◌≡◌, ◌≤◌, ℕ, List, length, IfErr, IfOk};
ghost use Rattle.pawk_ere.specs.Answers.{AreMissesFor};
ghost use Rattle.pawk_ere_automaton.specs.declared.misses.Misses.{Misses};
ghost use Rattle.pawk_ere.specs.Caches.{IsAnswerOfText, IsOfText};
ghost use Rattle.pawk_ere_syntax.specs.Refusals.{Tells};
ghost use Rattle.pawk_ere_syntax.specs.Tokens.{SpellsNone};
ghost use Rattle.pawk_fields.specs.FieldWalks.{IsNextMatch};
ghost use Rattle.pawk_fields.specs.FieldsOf.{TellsNone};

use pawk_ere::{Cache, Ere, EreRefusal, Loan, Matcher, Misses};
use pawk_value::{Fault, Stop};
use std::alloc::{AllocError, Global};

/// What finds the matches of the expression that a text spells.
pub trait Finder {
    // It answers for the expression of this text.
    ghost answers_for: { Self → List ℕ → Type 0 };

    // What is held of walks over this text is true of its expression.
    ghost are_misses: { Self → List ℕ → Misses → Type 0 };

    /// The leftmost match of the expression that starts at the byte `from` or later, and of those
    /// the longest (XBD 9.1): where it starts, and the byte after it, counted from 0.
    ///
    /// Fault `ere` where the text spells no expression. After an `Err` it answers as before.
    fn find_match(
        &mut self,
        pattern: &[u8],
        text: &[u8],
        from: usize,
    ) -> Result<Option<(usize, usize)>, Stop>
        requires ready { answers_for self.old pattern.now }
        requires within { from ≤ length text.now }
        ensures answer { IfOk result (IsAnswerOfText pattern.now text.now from) }
        ensures fault { IfErr result (TellsNone pattern.now) }
        ensures same { self.new ≡ self.old };

    /// No misses yet, for the searches of one text. Takes no memory.
    fn no_misses(&self) -> Misses
        ensures { (text : List ℕ) → are_misses self.now text result };

    /// What `find_match` answers, one of many searches of one text, which all pass the same `misses`:
    /// what one search finds to lead to nothing no later one walks over again.
    fn find_next_match(
        &mut self,
        misses: &mut Misses,
        pattern: &[u8],
        text: &[u8],
        from: usize,
    ) -> Result<Option<(usize, usize)>, Stop>
        requires ready { answers_for self.old pattern.now }
        requires misses { are_misses self.old text.now misses.old }
        requires within { from ≤ length text.now }
        ensures answer { IfOk result (IsAnswerOfText pattern.now text.now from) }
        ensures fault { IfErr result (TellsNone pattern.now) }
        ensures misses { are_misses self.old text.now misses.new }
        ensures same { self.new ≡ self.old };
}

/// Why an expression was not read, as a stop of a run.
fn stop_of(why: EreRefusal) -> Stop
    ensures { (p : List ℕ) → Tells why (SpellsNone p) → TellsNone p result }
{
    match why {
        EreRefusal::Memory => Stop::Memory,
        _ => Stop::Fault(Fault::Ere),
    }
}

impl Finder for Matcher {
    ghost answers_for = { λ m pattern. IsOfText pattern m };

    ghost are_misses = { AreMissesFor };

    fn find_match(
        &mut self,
        _pattern: &[u8],
        text: &[u8],
        from: usize,
    ) -> Result<Option<(usize, usize)>, Stop> {
        Ok(self.find(text, from)?)
    }

    fn no_misses(&self) -> Misses {
        Matcher::no_misses(self)
    }

    fn find_next_match(
        &mut self,
        misses: &mut Misses,
        _pattern: &[u8],
        text: &[u8],
        from: usize,
    ) -> Result<Option<(usize, usize)>, Stop> {
        Ok(self.find_next(misses, text, from)?)
    }
}

impl Finder for Cache {
    ghost answers_for = { λ _ _. Unit {0} };

    ghost are_misses = { λ _ _ _. Unit {0} };

    fn find_match(
        &mut self,
        pattern: &[u8],
        text: &[u8],
        from: usize,
    ) -> Result<Option<(usize, usize)>, Stop> {
        match self.find(pattern, text, from) {
            Ok(found) => Ok(found),
            Err(why) => Err(stop_of(why)),
        }
    }

    fn no_misses(&self) -> Misses {
        Cache::no_misses(self)
    }

    // A cache finds the matcher anew for each search, and holds no misses.
    fn find_next_match(
        &mut self,
        _misses: &mut Misses,
        pattern: &[u8],
        text: &[u8],
        from: usize,
    ) -> Result<Option<(usize, usize)>, Stop> {
        self.find_match(pattern, text, from)
    }
}

/// A matcher of the expression that a text spells; fault `ere` where it spells none.
pub fn expression_matcher(alloc: Global, pattern: &[u8]) -> Result<Matcher, Stop>
    ensures matcher { IfOk result (IsOfText pattern.now) }
    ensures fault { IfErr result (TellsNone pattern.now) }
{
    match Ere::parse(alloc, pattern) {
        Ok(ere) => Ok(Matcher::new(alloc, &ere)?),
        Err(why) => Err(stop_of(why)),
    }
}

/// A matcher of the expression that a text spells, which a cache lends; fault `ere` where it spells
/// none.
pub(crate) fn lend_matcher(cache: &mut Cache, pattern: &[u8]) -> Result<Loan, Stop>
    ensures text { IfOk result (λ loan. loan.text.items ≡ pattern.now) }
    ensures matcher { IfOk result (λ loan. IsOfText pattern.now loan.matcher) }
    ensures fault { IfErr result (TellsNone pattern.now) }
    ensures capacity { cache.new ≡ cache.old }
{
    match cache.lend(pattern) {
        Ok(loan) => Ok(loan),
        Err(why) => Err(stop_of(why)),
    }
}

/// The leftmost match from a place on that is not empty, and of those the longest.
pub(crate) fn next_match<F: Finder>(
    finder: &mut F,
    misses: &mut Misses,
    pattern: &[u8],
    text: &[u8],
    from: usize,
) -> Result<Option<(usize, usize)>, Stop>
    requires ready { F.answers_for finder.old pattern.now }
    requires misses { F.are_misses finder.old text.now misses.old }
    requires within { from ≤ length text.now }
    ensures found { IfOk result (IsNextMatch pattern.now text.now from) }
    ensures fault { IfErr result (TellsNone pattern.now) }
    ensures misses { F.are_misses finder.old text.now misses.new }
    ensures finder { finder.new ≡ finder.old }
{
    let mut place = from;
    loop {
        match finder.find_next_match(misses, pattern, text, place)? {
            None => return Ok(None),
            Some((start, end)) => {
                if start < end {
                    return Ok(Some((start, end)));
                }
                if start >= text.len() {
                    return Ok(None);
                }
                place = start + 1;
            }
        }
    }
}
