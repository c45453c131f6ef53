//! What the next token may begin or go on with.

ghost use Rattle.std.specs.Prelude.{◌≡◌, length, Option, Some, None, true, false};
ghost use Rattle.pawk_syntax_tree.specs.Parse as spec;
ghost use Rattle.pawk_lex.specs.Tokens.{tok};
ghost use Rattle.pawk_syntax_parse.specs.Starts as starts;
ghost use Rattle.pawk_syntax_parse.specs.Reads.{input, Gives};

use crate::build;
use crate::cursor::Cursor;
use pawk_lex::refusal::SyntaxRefusal;
use pawk_lex::token::{Mark, TokenValue};
use pawk_syntax_tree::levels::{
    OF_EXPR, OF_INCREMENT, OF_LVALUE, OF_PREFIXED, OF_VALUE, Row, beside, row_of_sign,
};
use pawk_syntax_tree::tree::Name;
use std::alloc::Global;

/// What the next token does after an operand of the level `top`.
#[tactic(auto, unfolding(pawk_syntax_tree::specs::Parse::row_at))]
pub fn row_at(ts: &Cursor<'_>, compares: bool, top: u8) -> Option<Row>
    ensures { result ≡ spec.row_at compares top (input ts.now) }
{
    match ts.rest {
        [] => None,
        [next, ..] => match &next.value {
            TokenValue::Mark(sign) => row_of_sign(compares, top, *sign),
            _ => beside(),
        },
    }
}

/// The tightest level of an operand that begins with this token.
fn tightest(value: &TokenValue) -> u8
    ensures { result ≡ starts.tightest (tok value.now) }
{
    match value {
        TokenValue::Name(_) | TokenValue::Mark(Mark::Dollar) => OF_LVALUE,
        TokenValue::Mark(Mark::LeftParenthesis) => OF_VALUE,
        TokenValue::Mark(Mark::PlusPlus | Mark::MinusMinus) => OF_INCREMENT,
        TokenValue::Mark(Mark::Not | Mark::Plus | Mark::Minus) => OF_PREFIXED,
        TokenValue::Mark(_) => OF_EXPR,
        _ => OF_VALUE,
    }
}

/// The tightest level of an operand that comes next.
pub fn tightest_next(ts: &Cursor<'_>) -> u8
    ensures { result ≡ starts.tightest_next (input ts.now) }
{
    match ts.rest {
        [] => OF_EXPR,
        [next, ..] => tightest(&next.value),
    }
}

/// The name that comes next.
#[tactic(auto, unfolding(pawk_syntax_tree::specs::Parse::expect_name))]
pub fn expect_name(
    alloc: Global,
    ts: &mut Cursor<'_>,
    compares: bool,
) -> Result<Name, SyntaxRefusal>
    ensures { Gives (λ x. x.text.items) (spec.expect_name (input ts.old)) result (input ts.new) }
{
    match ts.rest {
        [] => Err(ts.refuse(compares)),
        [next, ..] => match &next.value {
            TokenValue::Name(text) => {
                ts.pass();
                Ok(build::name(alloc, text, next.span.start)?)
            }
            _ => Err(ts.refuse(compares)),
        },
    }
}
