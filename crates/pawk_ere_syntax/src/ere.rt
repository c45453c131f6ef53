// Extended regular expressions that were read.

ghost use Rattle.pawk_ere_syntax.specs.Causes.{IsRefusalOf};
ghost use Rattle.pawk_ere_syntax.specs.Refusals.{IfTooLarge, Tells};
ghost use Rattle.pawk_ere_syntax.specs.Tokens.{HasForm, IsTooLarge, SpellsEre, SpellsNone};
ghost use Rattle.pawk_ere_syntax.specs.Tree.{pattern_of};
ghost use Rattle.std.specs.Prelude.{◌≡◌, ◌<◌, length, IfErr, IfOk, OnErr};

use crate::builder::Builder;
use crate::expression::Expression;
use crate::lex::token;
use crate::refusal::EreRefusal;
use crate::shape::check;
use std::alloc::Global;

/// The expression of a text that has the form of one and is not empty. No tree is made past the greatest size.
fn build(alloc: Global, text: &[u8]) -> Result<Expression, EreRefusal>
    requires nonempty { length text.now ≡ 0 → ⊥ }
    requires form { HasForm text.now }
    ensures found { IfOk result (λ e. SpellsEre text.now (pattern_of e)) }
    ensures refused { IfErr result (λ why. Tells why (SpellsNone text.now)) }
    ensures too_large { IfErr result (λ why. IfTooLarge why (IsTooLarge text.now)) }
    ensures cause { IfErr result (IsRefusalOf text.now) }
{
    let mut builder = Builder::new(alloc);
    let mut size = 0;
    let mut rest = text;
    while !rest.is_empty() {
        let (next, more) = token(rest)?;
        let larger = match builder.size_after(size, &next) {
            Some(larger) => larger,
            None => return Err(EreRefusal::TooLarge),
        };
        builder = builder.advance(alloc, next)?;
        size = larger;
        rest = more;
    }
    builder.finish(alloc)
}

/// An extended regular expression that was read.
#[derive(Drop)]
pub struct Ere {
    root: Expression,
}

impl Ere {
    ghost use Rattle.pawk_ere_syntax.specs.Spelled.{expression};

    /// Reads an expression (awk, "Regular Expressions"; XBD 9.4). An empty text is the empty expression.
    ///
    /// Refused with 1 to 6 is only a text that spells none, with the first cause in reading order; with 6 only a text
    /// that has the form of an expression, whose size is above the greatest. 7: out of memory, never for an empty text.
    pub fn parse(alloc: Global, text: &[u8]) -> Result<Ere, EreRefusal>
        ensures found { IfOk result (λ e. SpellsEre text.now (expression e)) }
        ensures refused { IfErr result (λ why. Tells why (SpellsNone text.now)) }
        ensures too_large { IfErr result (λ why. IfTooLarge why (IsTooLarge text.now)) }
        ensures cause { IfErr result (IsRefusalOf text.now) }
        ensures empty { OnErr result (0 < length text.now) }
    {
        if text.is_empty() {
            return Ok(Ere {
                root: Expression::Empty,
            });
        }
        check(text)?;
        let root = build(alloc, text)?;
        Ok(Ere { root })
    }

    /// The expression as a tree.
    pub fn root(&self) -> &Expression
        ensures { pattern_of result.now ≡ expression self.now }
    {
        &self.root
    }
}
