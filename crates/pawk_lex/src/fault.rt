//! What is at fault in a text, before its place is known.

ghost use Rattle.std.specs.Prelude.{◌≡◌, ◌<◌, ◌^◌};
ghost use Rattle.pawk_lex.specs.declared.fault.SyntaxFault.TheVariants as fault;

use crate::refusal::{Cause, SyntaxRefusal};
use std::alloc::{AllocError, AllocFailed};

/// A fault: `left` counts the bytes from the one at fault to the end of the text.
#[derive(Clone, Copy)]
pub enum SyntaxFault {
    At { cause: Cause, left: usize },
    Memory,
}

impl SyntaxFault {
    ghost use Rattle.pawk_lex.specs.Reads.{refusal_of};

    /// The refusal of this fault in a text of this many bytes.
    pub fn refusal(self, size: usize) -> SyntaxRefusal
        requires { size < 2 ^ 63 }
        ensures { result ≡ refusal_of size self }
    {
        match self {
            SyntaxFault::At { cause, left } => {
                SyntaxRefusal::At {
                    cause,
                    place: size.saturating_sub(left) + 1,
                }
            }
            SyntaxFault::Memory => SyntaxRefusal::Memory,
        }
    }
}

impl From<AllocError> for SyntaxFault {
    ghost from_gives = { λ _ e. e ≡ fault.Memory };

    fn from(_: AllocError) -> SyntaxFault {
        SyntaxFault::Memory
    }
}

impl<T: Drop> From<AllocFailed<T>> for SyntaxFault {
    ghost from_gives = { λ _ e. e ≡ fault.Memory };

    fn from(_: AllocFailed<T>) -> SyntaxFault {
        SyntaxFault::Memory
    }
}
