// Why an expression is refused.

ghost use Rattle.pawk_ere_syntax.specs.Refusals.{number_of};
ghost use Rattle.pawk_ere_syntax.specs.declared.refusal.EreRefusal.TheVariants.{Memory};
ghost use Rattle.std.specs.Prelude.{◌≡◌};

use std::alloc::{AllocError, AllocFailed};
use thiserror::Error;

/// Why an expression is refused.
#[derive(Clone, Copy, Debug, PartialEq, Eq, Drop, Error)]
pub enum EreRefusal {
    /// 1: a form that is not defined: a repetition where none is allowed, an empty group or alternative, a `{` that
    /// begins no bound.
    #[error("a part of the expression has no meaning")]
    Form,
    /// 2: a bound `{m}`, `{m,}` or `{m,n}` past the greatest bound, or with m above n.
    #[error("a count is greater than 255, or the first number greater than the second")]
    Bound,
    /// 3: a bracket expression that is not one.
    #[error("a [ begins no list of bytes")]
    Bracket,
    /// 4: a backslash before what it does not go with.
    #[error("a backslash begins no escape of expressions")]
    Escape,
    /// 5: a `(` or a `)` without its partner.
    #[error("a bracket has no partner")]
    Group,
    /// 6: the size, with the bounds written out, is above the greatest size.
    #[error("the expression is too large")]
    TooLarge,
    /// 7: an allocation was refused.
    #[error("out of memory")]
    Memory,
}

impl EreRefusal {
    /// The number of the refusal, 1 to 7.
    pub fn number(self) -> u8
        ensures { result ≡ number_of self }
    {
        match self {
            EreRefusal::Form => 1,
            EreRefusal::Bound => 2,
            EreRefusal::Bracket => 3,
            EreRefusal::Escape => 4,
            EreRefusal::Group => 5,
            EreRefusal::TooLarge => 6,
            EreRefusal::Memory => 7,
        }
    }
}

impl From<AllocError> for EreRefusal {
    ghost from_gives = { λ _ e. e ≡ Memory };

    fn from(_error: AllocError) -> EreRefusal {
        EreRefusal::Memory
    }
}

impl<T: Drop> From<AllocFailed<T>> for EreRefusal {
    ghost from_gives = { λ _ e. e ≡ Memory };

    fn from(_error: AllocFailed<T>) -> EreRefusal {
        EreRefusal::Memory
    }
}
