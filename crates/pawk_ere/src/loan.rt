// A matcher with the text of its expression.

ghost use Rattle.pawk_ere.specs.Caches.{IsOfText};
ghost use Rattle.pawk_ere_syntax.specs.Causes.{IsRefusalOf};
ghost use Rattle.pawk_ere_syntax.specs.Pattern.{Pattern};
ghost use Rattle.pawk_ere_syntax.specs.Refusals.{IfTooLarge, Tells};
ghost use Rattle.pawk_ere_syntax.specs.Tokens.{IsTooLarge, SpellsEre};
ghost use Rattle.std.specs.Prelude.{◌≡◌, IfErr, IfOk};

use crate::matcher::Matcher;
use pawk_ere_syntax::{Ere, EreRefusal};
use std::alloc::Global;

/// A matcher that a cache lends.
#[derive(Drop)]
pub struct Loan {
    /// The text of the matcher's expression.
    pub text: Vec<u8>,
    /// The matcher of the expression.
    pub matcher: Matcher,
}

impl Loan {
    /// The matcher of a text that spells an expression.
    pub(crate) fn read(alloc: Global, pattern: &[u8]) -> Result<Loan, EreRefusal>
        ensures text { IfOk result (λ loan. loan.text.items ≡ pattern.now) }
        ensures matcher { IfOk result (λ loan. IsOfText pattern.now loan.matcher) }
        ensures refused { IfErr result
            (λ why. Tells why ((e : Pattern) → SpellsEre pattern.now e → ⊥)) }
        ensures too_large { IfErr result (λ why. IfTooLarge why (IsTooLarge pattern.now)) }
        ensures cause { IfErr result (IsRefusalOf pattern.now) }
    {
        let ere = Ere::parse(alloc, pattern)?;
        let matcher = Matcher::new(alloc, &ere)?;
        let text = Vec::from_slice(alloc, pattern)?;
        Ok(Loan { text, matcher })
    }
}
