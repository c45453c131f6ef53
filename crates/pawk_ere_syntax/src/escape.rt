// Escapes.

ghost use Rattle.pawk_ere_syntax.specs.Causes.{Stops};
ghost use Rattle.pawk_ere_syntax.specs.declared.refusal.EreRefusal.TheVariants.{Escape};
ghost use Rattle.pawk_ere_syntax.specs.Escapes.{escape_at, letter, octal_more};
ghost use Rattle.pawk_ere_syntax.specs.Refusals.{Gives};
ghost use Rattle.std.specs.Prelude.{◌≡◌, ◌<◌, ◌≤◌, length, IfErr, IfOk};

use crate::refusal::EreRefusal;

/// The byte that a letter after a backslash stands for.
fn letter_of(c: u8) -> Option<u8>
    ensures { result ≡ letter c }
{
    match c {
        b'a' => Some(7),
        b'b' => Some(8),
        b'f' => Some(12),
        b'n' => Some(10),
        b'r' => Some(13),
        b't' => Some(9),
        b'v' => Some(11),
        _ => None,
    }
}

/// The value with one more octal digit, if there is one and the value stays a byte, and what follows.
#[tactic(auto, unfolding(crate::specs::Escapes::octal_more))]
fn more_octal(value: u8, text: &[u8]) -> (u8, &[u8])
    ensures value { octal_more value text.now ≡ (result.0, result.1.now) }
    ensures shorter { length result.1.now ≤ length text.now }
{
    match text {
        [] => (value, text),
        [c, rest @ ..] => {
            if *c >= 48 && *c < 56 {
                let wide = u16::from(value) * 8 + u16::from(*c - 48);
                if wide < 256 {
                    return (wide as u8, rest);
                }
            }
            (value, text)
        }
    }
}

/// What is after a backslash: the byte that is meant, and what follows.
#[tactic(auto, unfolding(crate::specs::Escapes::escape_at))]
pub fn escape(text: &[u8]) -> Result<(u8, &[u8]), EreRefusal>
    ensures value { Gives (λ x. (x.0, x.1.now)) result (escape_at text.now) }
    ensures stops { IfErr result (Stops (escape_at text.now) Escape) }
    ensures shorter { IfOk result (λ x. length x.1.now < length text.now) }
{
    match text {
        [] => Err(EreRefusal::Escape),
        [c, rest @ ..] => {
            if let Some(byte) = letter_of(*c) {
                return Ok((byte, rest));
            }
            if *c >= 48 && *c < 56 {
                let (value, rest) = more_octal(*c - 48, rest);
                let (value, rest) = more_octal(value, rest);
                return Ok((value, rest));
            }
            if (*c >= 33 && *c < 48)
                || (*c >= 58 && *c < 65)
                || (*c >= 91 && *c < 97)
                || (*c >= 123 && *c < 127)
            {
                return Ok((*c, rest));
            }
            Err(EreRefusal::Escape)
        }
    }
}
