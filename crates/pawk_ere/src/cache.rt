// A cache of the expressions that were read.

ghost use Rattle.pawk_ere.specs.Caches.{AreOfTexts, IsAnswerOfText, IsOfItsText, IsOfText};
ghost use Rattle.pawk_ere_syntax.specs.Causes.{IsRefusalOf};
ghost use Rattle.pawk_ere_syntax.specs.Pattern.{Pattern};
ghost use Rattle.pawk_ere_syntax.specs.Refusals.{IfTooLarge, Tells};
ghost use Rattle.pawk_ere_syntax.specs.Tokens.{IsTooLarge, SpellsEre};
ghost use Rattle.std.specs.Prelude.{◌≡◌, ◌≤◌, length, IfErr, IfOk, IfSome};

use crate::loan::Loan;
use crate::matcher::Matcher;
use lru::LruCache;
use pawk_ere_automaton::Misses;
use pawk_ere_syntax::EreRefusal;
use std::alloc::{AllocError, Global};
use std::marker::Model;
use std::num::NonZeroUsize;

/// The matchers of the expressions that were used last, by their texts: the latest one, and others. Contracts see how many
/// others there are at most.
#[derive(Drop)]
pub struct Cache {
    alloc: Global,
    /// It is kept apart, so that what is used again and again is neither looked up nor moved.
    latest: Option<Loan>,
    others: LruCache<Vec<u8>, Matcher>,
}

impl Model for Cache {
    ghost use Rattle.std.specs.Prelude.{ℕ, IfSome};

    ghost Value = { ℕ };

    ghost use Rattle.pawk_ere.specs.Caches.{AreOfTexts, IsOfItsText};

    ghost view = { λ c. c.others.cap };

    ghost invariant = { λ c. IfSome c.latest IsOfItsText × AreOfTexts c.others.entries };
}

/// What the latest matcher answers, where it is the text's.
fn search_latest(
    latest: &mut Option<Loan>,
    pattern: &[u8],
    text: &[u8],
    from: usize,
) -> Option<Result<Option<(usize, usize)>, AllocError>>
    requires within { from ≤ length text.now }
    requires latest { IfSome latest.old IsOfItsText }
    ensures latest { IfSome latest.new IsOfItsText }
    ensures answer { IfSome result
        (λ answer. IfOk answer (λ found. IsAnswerOfText pattern.now text.now from found)) }
{
    match latest {
        Some(loan) if loan.text.as_slice() == pattern => Some(loan.matcher.find(text, from)),
        _ => None,
    }
}

/// Takes the latest matcher out of its place, where it is the text's.
fn take_latest(latest: &mut Option<Loan>, pattern: &[u8]) -> Option<Loan>
    requires { IfSome latest.old IsOfItsText }
    ensures latest { IfSome latest.new IsOfItsText }
    ensures text { IfSome result (λ loan. loan.text.items ≡ pattern.now) }
    ensures matcher { IfSome result (λ loan. IsOfText pattern.now loan.matcher) }
{
    match latest {
        Some(loan) if loan.text.as_slice() == pattern => latest.take(),
        _ => None,
    }
}

/// Takes the matcher of a text out of the others, if it is there.
fn take_other(others: &mut LruCache<Vec<u8>, Matcher>, pattern: &[u8]) -> Option<Loan>
    requires { AreOfTexts others.old.entries }
    ensures others { AreOfTexts others.new.entries }
    ensures text { IfSome result (λ loan. loan.text.items ≡ pattern.now) }
    ensures matcher { IfSome result (λ loan. IsOfText pattern.now loan.matcher) }
    ensures cap { others.new.cap ≡ others.old.cap }
{
    let (text, matcher) = others.pop_entry(pattern)?;
    Some(Loan { text, matcher })
}

/// Puts a matcher among the others, if there is memory.
fn keep(others: &mut LruCache<Vec<u8>, Matcher>, loan: Loan)
    requires others { AreOfTexts others.old.entries }
    requires loan { IsOfItsText loan }
    ensures others { AreOfTexts others.new.entries }
    ensures cap { others.new.cap ≡ others.old.cap }
{
    let Loan { text, matcher } = loan;
    let _ = others.put(text, matcher);
}

impl Cache {
    /// An empty cache of at most `capacity` expressions, 1 to 1,024, beside the one that was used last.
    pub fn with(alloc: Global, capacity: usize) -> Result<Cache, AllocError>
        requires least { 1 ≤ capacity }
        requires most { capacity ≤ 1024 }
        ensures { IfOk result (λ c. c ≡ capacity) }
    {
        let capacity = NonZeroUsize::new(capacity).unwrap();
        Ok(Cache {
            alloc,
            latest: None,
            others: LruCache::sparse(alloc, capacity)?,
        })
    }

    /// No misses: a cache holds none.
    pub fn no_misses(&self) -> Misses {
        Misses::none(self.alloc)
    }

    /// The matcher of the expression, to be used for as long as the caller wants. The cache answers as before, whether or not
    /// the matcher is [given back](Cache::take_back); what is given back need not be read again. Refused as `Ere::parse` is.
    pub fn lend(&mut self, pattern: &[u8]) -> Result<Loan, EreRefusal>
        ensures text { IfOk result (λ loan. loan.text.items ≡ pattern.now) }
        ensures matcher { IfOk result (λ loan. IsOfText pattern.now loan.matcher) }
        ensures refused { IfErr result
            (λ why. Tells why ((e : Pattern) → SpellsEre pattern.now e → ⊥)) }
        ensures too_large { IfErr result (λ why. IfTooLarge why (IsTooLarge pattern.now)) }
        ensures cause { IfErr result (IsRefusalOf pattern.now) }
        ensures capacity { self.new ≡ self.old }
    {
        if let Some(loan) = take_latest(&mut self.latest, pattern) {
            return Ok(loan);
        }
        match take_other(&mut self.others, pattern) {
            Some(loan) => Ok(loan),
            None => Loan::read(self.alloc, pattern),
        }
    }

    /// Takes a matcher back. It is the latest from then on.
    pub fn take_back(&mut self, loan: Loan)
        requires { IsOfItsText loan }
        ensures { self.new ≡ self.old }
    {
        if let Some(earlier) = self.latest.replace(loan) {
            keep(&mut self.others, earlier);
        }
    }

    /// The answer of reading the expression and searching for it from the byte `from` on, with no cache. Only expressions
    /// that were read are kept. After an `Err` the cache answers as before.
    pub fn find(
        &mut self,
        pattern: &[u8],
        text: &[u8],
        from: usize,
    ) -> Result<Option<(usize, usize)>, EreRefusal>
        requires { from ≤ length text.now }
        ensures answer { IfOk result (λ found. IsAnswerOfText pattern.now text.now from found) }
        ensures refused { IfErr result
            (λ why. Tells why ((e : Pattern) → SpellsEre pattern.now e → ⊥)) }
        ensures too_large { IfErr result (λ why. IfTooLarge why (IsTooLarge pattern.now)) }
        ensures cause { IfErr result (IsRefusalOf pattern.now) }
        ensures capacity { self.new ≡ self.old }
    {
        if let Some(answer) = search_latest(&mut self.latest, pattern, text, from) {
            return Ok(answer?);
        }
        let mut loan = self.lend(pattern)?;
        let found = loan.matcher.find(text, from);
        self.take_back(loan);
        Ok(found?)
    }
}
