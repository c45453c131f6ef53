//! Reads the regular expressions between slashes.

ghost use Rattle.std.specs.Prelude.{◌≡◌, IfOk, IfErr, map};
ghost use Rattle.pawk_ere_syntax.specs.Tokens.{SpellsNone};
ghost use Rattle.pawk_lex.specs.Bytes.{Text};
ghost use Rattle.pawk_ere_syntax.specs.Refusals.{Tells};
ghost use Rattle.pawk_syntax_grammar.specs.Expressions.{eres};
ghost use Rattle.pawk_syntax_grammar.specs.ExpressionReads.{values, Denies};
ghost use Rattle.pawk_syntax_grammar.specs.ExpressionReads.{AreExpressions, IsExpression};

use pawk_ere_syntax::{Ere, EreRefusal};
use pawk_lex::refusal::{Cause, SyntaxRefusal};
use pawk_lex::token::{Token, TokenValue};
use std::alloc::Global;

/// The refusal of an expression whose slash is at this byte, counted from 0.
#[tactic(auto, using(crate::proofs::Readings::none_is))]
fn refusal(why: EreRefusal, start: usize) -> SyntaxRefusal
    ensures { (x : Text) → Tells why (SpellsNone x) → Denies result (IsExpression x) }
{
    match why {
        EreRefusal::Memory => SyntaxRefusal::Memory,
        _ => SyntaxRefusal::At {
            cause: Cause::Expression,
            place: start.saturating_add(1),
        },
    }
}

/// Refuses what is no expression between slashes, of which the first is at this byte.
fn check(alloc: Global, bytes: &[u8], start: usize) -> Result<(), SyntaxRefusal>
    ensures found { IfOk result (λ done. IsExpression bytes.now) }
    ensures refused { IfErr result (λ why. Denies why (IsExpression bytes.now)) }
{
    match Ere::parse(alloc, bytes) {
        Ok(_) => Ok(()),
        Err(why) => Err(refusal(why, start)),
    }
}

/// The text of each expression between slashes among these tokens, in order
/// (POSIX.1-2017, awk, "Regular Expressions").
///
/// The first that is none is refused with 10 at its slash; a refused allocation with 12.
pub fn read_expressions(alloc: Global, tokens: &[Token]) -> Result<Vec<Vec<u8>>, SyntaxRefusal>
    ensures texts { IfOk result (λ v. map (λ t. t.items) v.items ≡ eres (values tokens.now)) }
    ensures found { IfOk result (λ v. AreExpressions (eres (values tokens.now))) }
    ensures refused { IfErr result (λ why. Denies why (AreExpressions (eres (values tokens.now)))) }
{
    let mut texts = Vec::new(alloc);
    let mut rest = tokens;
    while let [token, later @ ..] = rest {
        if let TokenValue::Ere(bytes) = &token.value {
            check(alloc, bytes.as_slice(), token.span.start)?;
            texts.push(Vec::from_slice(alloc, bytes.as_slice())?)?;
        }
        rest = later;
    }
    Ok(texts)
}
