//! Why a program text is refused.

ghost use Rattle.std.specs.Prelude.{◌≡◌};
ghost use Rattle.pawk_lex.specs.declared.refusal.SyntaxRefusal.TheVariants as refusal;

use std::alloc::{AllocError, AllocFailed};
use thiserror::Error;

/// What is at fault in a program text. The lexer reports `Token`, `InputOutput`, `Numeral` and
/// `LeftOut`; the other causes are for those who read its tokens.
#[derive(Clone, Copy, Debug, PartialEq, Eq, Drop, Error)]
pub enum Cause {
    /// 1: a byte that begins no token, or a string or an expression that cannot be read.
    #[error("a byte begins no token, or a string or an expression has no end")]
    Token,
    /// 2: a token, or the end of the text, where it is not allowed.
    #[error("a token, or the end of the program, is unexpected")]
    Unexpected,
    /// 3: a form of input or output that the language leaves out.
    #[error("a form of input or output is left out of the language")]
    InputOutput,
    /// 4: a variable that may not be assigned is a target.
    #[error("a variable that the run sets cannot be assigned")]
    Assigned,
    /// 5: one name has two uses.
    #[error("a name has two uses")]
    Uses,
    /// 6: a call that does not fit what it calls.
    #[error("a call does not fit what it calls")]
    Call,
    /// 7: a statement outside what it belongs to, as `next` outside a rule.
    #[error("a statement is outside what it belongs to")]
    Misplaced,
    /// 8: a numeral that is too great, or is directly followed by a `.`, a letter or `_`.
    #[error("a number is too great, or a ., a letter or _ directly follows it")]
    Numeral,
    /// 9: nesting that is too deep.
    #[error("the nesting is too deep")]
    Nesting,
    /// 10: a regular expression that is none.
    #[error("an expression cannot be read")]
    Expression,
    /// 11: a name of the standard that the language leaves out.
    #[error("a name is left out of the language")]
    LeftOut,
}

/// Why a program text is refused, and where.
#[derive(Clone, Copy, Debug, PartialEq, Eq, Drop, Error)]
pub enum SyntaxRefusal {
    /// The cause, and the place of the byte at fault, counted from 1.
    #[error("byte {place}: {cause}")]
    At { cause: Cause, place: usize },
    /// Memory was refused.
    #[error("out of memory")]
    Memory,
}

impl Cause {
    ghost use Rattle.pawk_lex.specs.Refusals.{cause_number};

    /// The number by which the cause is reported to users.
    pub fn number(self) -> u8
        ensures { result ≡ cause_number self }
    {
        match self {
            Cause::Token => 1,
            Cause::Unexpected => 2,
            Cause::InputOutput => 3,
            Cause::Assigned => 4,
            Cause::Uses => 5,
            Cause::Call => 6,
            Cause::Misplaced => 7,
            Cause::Numeral => 8,
            Cause::Nesting => 9,
            Cause::Expression => 10,
            Cause::LeftOut => 11,
        }
    }
}

impl SyntaxRefusal {
    ghost use Rattle.pawk_lex.specs.Refusals.{refusal_number, refusal_place};

    /// The number by which the refusal is reported to users: the cause's, or 12 for memory.
    pub fn number(self) -> u8
        ensures { result ≡ refusal_number self }
    {
        match self {
            SyntaxRefusal::At { cause, .. } => cause.number(),
            SyntaxRefusal::Memory => 12,
        }
    }

    /// The place of the byte at fault, counted from 1; a refused allocation has none.
    pub fn place(self) -> Option<usize>
        ensures { result ≡ refusal_place self }
    {
        match self {
            SyntaxRefusal::At { place, .. } => Some(place),
            SyntaxRefusal::Memory => None,
        }
    }
}

impl From<AllocError> for SyntaxRefusal {
    ghost from_gives = { λ _ e. e ≡ refusal.Memory };

    fn from(_: AllocError) -> SyntaxRefusal {
        SyntaxRefusal::Memory
    }
}

impl<T: Drop> From<AllocFailed<T>> for SyntaxRefusal {
    ghost from_gives = { λ _ e. e ≡ refusal.Memory };

    fn from(_: AllocFailed<T>) -> SyntaxRefusal {
        SyntaxRefusal::Memory
    }
}
