//! Faults of a program that was read.

ghost use Rattle.std.specs.Prelude.{◌≡◌, ◌≢◌, ◌&&◌};
ghost use Rattle.std.specs.Option.{is_none};
ghost use Rattle.pawk_lex.specs.declared.refusal.SyntaxRefusal.TheVariants as refusal;

use pawk_lex::refusal::{Cause, SyntaxRefusal};

/// What is at fault, and the byte where it begins, counted from 0.
#[derive(Clone, Copy)]
pub struct CheckFault {
    pub cause: Cause,
    pub start: usize,
}

impl CheckFault {
    /// Whether this fault is reported in place of another: it is before it, or has the lower number
    /// at the same place.
    fn precedes(self, other: CheckFault) -> bool {
        self.start < other.start
            || (self.start == other.start && self.cause.number() < other.cause.number())
    }

    /// How this fault is reported to users.
    pub fn refusal(self) -> SyntaxRefusal
        ensures { result ≢ refusal.Memory }
    {
        SyntaxRefusal::At {
            cause: self.cause,
            place: self.start.saturating_add(1),
        }
    }
}

/// The fault of two that is reported: the one that is first, at one place the one with the lower
/// number.
pub fn first_of(a: Option<CheckFault>, b: Option<CheckFault>) -> Option<CheckFault>
    ensures { is_none result ≡ (is_none a && is_none b) }
{
    match (a, b) {
        (Some(a), Some(b)) => Some(if b.precedes(a) { b } else { a }),
        (Some(a), None) => Some(a),
        (None, b) => b,
    }
}
