//! Places for matchers.

ghost use Rattle.std.specs.Prelude.{◌≡◌, ℕ, List, true, IfErr, IfOk, IfSome, IsSomeAnd, OnOk};
ghost use Rattle.pawk_ere.specs.Caches.{IsAnswerOfText, IsOfItsText, IsOfText};
ghost use Rattle.pawk_ere_syntax.specs.Refusals.{Tells};
ghost use Rattle.pawk_ere_syntax.specs.Tokens.{SpellsNone};
ghost use Rattle.pawk_fields.specs.FieldsOf.{TellsNone};
ghost use Rattle.pawk_builtins.specs.MatcherViews.{SaysWhetherMatches};

use pawk_ere::{Cache, EreRefusal, Loan};
use pawk_fields::expression_matcher;
use pawk_value::{Fault, Stop};
use std::alloc::Global;

/// Whether the matcher of a text is there.
#[inline(always)]
fn has_matcher(slot: &Option<Loan>, ere: &[u8]) -> bool
    requires { IfSome slot.now IsOfItsText }
    ensures { result ≡ true → IsSomeAnd slot.now (λ loan. IsOfText ere.now loan.matcher) }
{
    match slot {
        Some(loan) => loan.text.as_slice() == ere,
        None => false,
    }
}

/// A matcher with the text of its expression; fault `ere` where it spells none.
fn read_loan(alloc: Global, ere: &[u8]) -> Result<Loan, Stop>
    ensures own { IfOk result IsOfItsText }
    ensures matcher { IfOk result (λ loan. IsOfText ere.now loan.matcher) }
    ensures fault { IfErr result (TellsNone ere.now) }
{
    let matcher = expression_matcher(alloc, ere)?;
    let text = Vec::from_slice(alloc, ere)?;
    Ok(Loan { text, matcher })
}

/// Reads the matcher of a text into a place; fault `ere` where the text spells no expression. After an `Err` the
/// place is as before.
#[inline(never)]
fn put_matcher(slot: &mut Option<Loan>, alloc: Global, ere: &[u8]) -> Result<(), Stop>
    requires { IfSome slot.old IsOfItsText }
    ensures slot { IfSome slot.new IsOfItsText }
    ensures matcher { OnOk result
        (IsSomeAnd slot.new (λ loan. IsOfText ere.now loan.matcher)) }
    ensures fault { IfErr result (TellsNone ere.now) }
{
    let loan = read_loan(alloc, ere)?;
    *slot = Some(loan);
    Ok(())
}

/// Reads the matcher of a text into a place, unless it is there; fault `ere` where the text spells no
/// expression. After an `Err` the place is as before.
#[inline(always)]
pub(crate) fn fill_slot(slot: &mut Option<Loan>, alloc: Global, ere: &[u8]) -> Result<(), Stop>
    requires { IfSome slot.old IsOfItsText }
    ensures slot { IfSome slot.new IsOfItsText }
    ensures matcher { OnOk result
        (IsSomeAnd slot.new (λ loan. IsOfText ere.now loan.matcher)) }
    ensures fault { IfErr result (TellsNone ere.now) }
{
    if has_matcher(slot, ere) {
        return Ok(());
    }
    put_matcher(slot, alloc, ere)
}

/// What is found in a text by the matcher in a place, which is read if it is not there.
#[inline(always)]
pub(crate) fn find_in(
    slot: &mut Option<Loan>,
    alloc: Global,
    ere: &[u8],
    text: &[u8],
) -> Result<Option<(usize, usize)>, Stop>
    requires { IfSome slot.old IsOfItsText }
    ensures slot { IfSome slot.new IsOfItsText }
    ensures answer { IfOk result (IsAnswerOfText ere.now text.now 0) }
    ensures fault { IfErr result (TellsNone ere.now) }
{
    fill_slot(slot, alloc, ere)?;
    match slot {
        Some(loan) => Ok(loan.matcher.find(text, 0)?),
        None => unreachable!(),
    }
}

/// Whether anything is found in a text by the matcher in a place, which is read if it is not there.
#[inline(always)]
pub(crate) fn matches_in(
    slot: &mut Option<Loan>,
    alloc: Global,
    ere: &[u8],
    text: &[u8],
) -> Result<bool, Stop>
    requires { IfSome slot.old IsOfItsText }
    ensures slot { IfSome slot.new IsOfItsText }
    ensures answer { IfOk result (SaysWhetherMatches ere.now text.now) }
    ensures fault { IfErr result (TellsNone ere.now) }
{
    fill_slot(slot, alloc, ere)?;
    match slot {
        Some(loan) => Ok(loan.matcher.is_match(text, 0)?),
        None => unreachable!(),
    }
}

/// Why an expression was not read, as a stop of a run.
fn stop_of(why: EreRefusal) -> Stop
    ensures { (p : List ℕ) → Tells why (SpellsNone p) → TellsNone p result }
{
    match why {
        EreRefusal::Memory => Stop::Memory,
        _ => Stop::Fault(Fault::Ere),
    }
}

/// The matcher of a text, which a cache lends; fault `ere` where it spells no expression.
pub(crate) fn lend_matcher(cache: &mut Cache, ere: &[u8]) -> Result<Loan, Stop>
    ensures own { IfOk result IsOfItsText }
    ensures matcher { IfOk result (λ loan. IsOfText ere.now loan.matcher) }
    ensures fault { IfErr result (TellsNone ere.now) }
    ensures cache { cache.new ≡ cache.old }
{
    match cache.lend(ere) {
        Ok(loan) => Ok(loan),
        Err(why) => Err(stop_of(why)),
    }
}
