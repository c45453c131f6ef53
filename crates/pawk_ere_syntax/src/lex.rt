// Cutting a text into tokens.

ghost use Rattle.pawk_ere_syntax.specs.Causes.{Stops, token_cause};
ghost use Rattle.pawk_ere_syntax.specs.Grammar.{IsSound};
ghost use Rattle.pawk_ere_syntax.specs.Refusals.{Gives};
ghost use Rattle.pawk_ere_syntax.specs.Tokens.{token_at};
ghost use Rattle.std.specs.Prelude.{◌≡◌, ◌<◌, length, IfErr, IfOk};

use crate::bound::bound;
use crate::bracket::bracket;
use crate::byte_set::ByteSet;
use crate::escape::escape;
use crate::refusal::EreRefusal;
use crate::token::EreToken;

/// The first token, and what follows. Refused is only a text that begins with none.
#[tactic(auto, unfolding(crate::specs::Tokens::token_at, crate::specs::Causes::token_cause))]
pub fn token(text: &[u8]) -> Result<(EreToken, &[u8]), EreRefusal>
    ensures value { Gives (λ x. (x.0, x.1.now)) result (token_at text.now) }
    ensures stops { IfErr result (Stops (token_at text.now) (token_cause text.now)) }
    ensures shorter { IfOk result (λ x. length x.1.now < length text.now) }
    ensures sound { IfOk result (λ x. IsSound x.0) }
{
    match text {
        [] => Err(EreRefusal::Form),
        [c, rest @ ..] => match *c {
            b'^' => Ok((EreToken::Caret, rest)),
            b'$' => Ok((EreToken::Dollar, rest)),
            b'|' => Ok((EreToken::Bar, rest)),
            b'(' => Ok((EreToken::Open, rest)),
            b')' => Ok((EreToken::Close, rest)),
            b'*' => Ok((EreToken::Times(0, None), rest)),
            b'+' => Ok((EreToken::Times(1, None), rest)),
            b'?' => Ok((EreToken::Times(0, Some(1)), rest)),
            b'.' => Ok((EreToken::Leaf(ByteSet::all()), rest)),
            b'\\' => {
                let (byte, rest) = escape(rest)?;
                Ok((EreToken::Leaf(ByteSet::only(byte)), rest))
            }
            b'{' => bound(rest),
            b'[' => {
                let (set, rest) = bracket(rest)?;
                Ok((EreToken::Leaf(set), rest))
            }
            _ => Ok((EreToken::Leaf(ByteSet::only(*c)), rest)),
        },
    }
}
