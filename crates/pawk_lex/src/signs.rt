//! Signs.

ghost use Rattle.std.specs.Prelude.{◌≡◌, ◌≢◌, IfSome};
ghost use Rattle.pawk_lex.specs.Vocabulary as spec;

use crate::token::Mark;

/// The sign of two bytes that these are, if they are one.
#[tactic(auto, unfolding(crate::specs::Vocabulary::double))]
pub fn double(first: u8, second: u8) -> Option<Mark>
    ensures value { result ≡ spec.double first second }
    ensures within { IfSome result (λ m. second ≢ 0) }
{
    match (first, second) {
        (b'+', b'=') => Some(Mark::PlusAssign),
        (b'-', b'=') => Some(Mark::MinusAssign),
        (b'*', b'=') => Some(Mark::StarAssign),
        (b'/', b'=') => Some(Mark::SlashAssign),
        (b'%', b'=') => Some(Mark::PercentAssign),
        (b'^', b'=') => Some(Mark::CaretAssign),
        (b'=', b'=') => Some(Mark::Equal),
        (b'<', b'=') => Some(Mark::LessEqual),
        (b'>', b'=') => Some(Mark::GreaterEqual),
        (b'!', b'=') => Some(Mark::NotEqual),
        (b'!', b'~') => Some(Mark::NotMatch),
        (b'+', b'+') => Some(Mark::PlusPlus),
        (b'-', b'-') => Some(Mark::MinusMinus),
        (b'&', b'&') => Some(Mark::And),
        (b'|', b'|') => Some(Mark::Or),
        _ => None,
    }
}

/// The newline or the sign of one byte that this is, if it is one.
#[tactic(auto, unfolding(crate::specs::Vocabulary::single))]
pub fn single(byte: u8) -> Option<Mark>
    ensures { result ≡ spec.single byte }
{
    match byte {
        b'\n' => Some(Mark::Newline),
        b'{' => Some(Mark::LeftBrace),
        b'}' => Some(Mark::RightBrace),
        b'(' => Some(Mark::LeftParenthesis),
        b')' => Some(Mark::RightParenthesis),
        b'[' => Some(Mark::LeftBracket),
        b']' => Some(Mark::RightBracket),
        b';' => Some(Mark::Semicolon),
        b',' => Some(Mark::Comma),
        b'+' => Some(Mark::Plus),
        b'-' => Some(Mark::Minus),
        b'*' => Some(Mark::Star),
        b'/' => Some(Mark::Slash),
        b'%' => Some(Mark::Percent),
        b'^' => Some(Mark::Caret),
        b'!' => Some(Mark::Not),
        b'>' => Some(Mark::Greater),
        b'<' => Some(Mark::Less),
        b'?' => Some(Mark::Question),
        b':' => Some(Mark::Colon),
        b'~' => Some(Mark::Tilde),
        b'$' => Some(Mark::Dollar),
        b'=' => Some(Mark::Assign),
        _ => None,
    }
}
