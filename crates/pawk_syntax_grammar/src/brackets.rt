//! Brackets that are open: round, square and curly ones.

ghost use Rattle.std.specs.Prelude.{◌≡◌, ◌<◌, length, true, false, MatchOption, IfSome};
ghost use Rattle.pawk_lex.specs.Tokens.{tok};
ghost use Rattle.pawk_syntax_grammar.specs.Brackets as spec;
ghost use Rattle.pawk_syntax_grammar.specs.Brackets.{are_few, values};

use pawk_lex::token::{Mark, Token, TokenValue};

/// The most brackets that may be open at once.
const MOST_OPEN: usize = 500;

/// How many brackets are open after a token, of which `count` were before it.
fn open_after(count: usize, value: &TokenValue) -> usize
    requires { count < 501 }
    ensures { result ≡ spec.open_after count (tok value.now) }
{
    match value {
        TokenValue::Mark(Mark::LeftParenthesis | Mark::LeftBracket | Mark::LeftBrace) => count + 1,
        TokenValue::Mark(Mark::RightParenthesis | Mark::RightBracket | Mark::RightBrace) => {
            count.saturating_sub(1)
        }
        _ => count,
    }
}

/// The place in a list of tokens, counted from 0, of the first bracket that opens where 500 are
/// open already.
#[tactic(auto, unfolding(crate::specs::Brackets::are_few))]
pub fn excess(tokens: &[Token]) -> Option<usize>
    ensures few { MatchOption result (are_few 0 (values tokens.now) ≡ true)
        (λ place. are_few 0 (values tokens.now) ≡ false) }
    ensures within { IfSome result (λ place. place < length tokens.now) }
{
    let mut count = 0;
    let mut rest = tokens;
    while let [token, later @ ..] = rest {
        count = open_after(count, &token.value);
        if count > MOST_OPEN {
            return Some(tokens.len() - rest.len());
        }
        rest = later;
    }
    None
}
