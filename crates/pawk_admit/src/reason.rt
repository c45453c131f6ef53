//! Why a program may not run in chunks.

ghost use Rattle.std.specs.Prelude.{◌≡◌};
ghost use Rattle.pawk_admit.specs.declared.reason.Reason.TheVariants.{Memory};
ghost use Rattle.pawk_admit.specs.Admission as spec;

use std::alloc::AllocError;
use thiserror::Error;

/// Why a program may not run in chunks, in the order in which they are answered.
#[derive(Clone, Copy, Debug, PartialEq, Eq, Drop, Error)]
pub enum Reason {
    /// A global is assigned that is not only assigned by statements `=`, or an element is deleted.
    #[error("a global is assigned otherwise than by statements with =, or an element is deleted")]
    Assignment,
    /// A global is added to that occurs otherwise, too, or that separates.
    #[error("a global that is added to is read or assigned too, or is FS, OFS, ORS or SUBSEP")]
    Addition,
    /// A pattern is a range of records.
    #[error("a pattern is a range of records")]
    Range,
    /// `match` is called.
    #[error("match sets RSTART and RLENGTH")]
    Match,
    /// `split` fills a global array.
    #[error("split fills a global array")]
    Split,
    /// A global array is passed to a function.
    #[error("a global array is passed to a function")]
    Passing,
    /// The value of an addition to a global is used.
    #[error("the value of an addition to a global is used")]
    Value,
    /// Memory was refused.
    #[error("out of memory")]
    Memory,
    /// There is a `nextfile`.
    #[error("nextfile passes over the rest of a file")]
    NextFile,
}

impl Reason {
    /// The number that stands for a reason, from 1 to 9.
    pub fn number(self) -> u8
        ensures { result ≡ spec.number self }
    {
        match self {
            Reason::Assignment => 1,
            Reason::Addition => 2,
            Reason::Range => 3,
            Reason::Match => 4,
            Reason::Split => 5,
            Reason::Passing => 6,
            Reason::Value => 7,
            Reason::Memory => 8,
            Reason::NextFile => 9,
        }
    }
}

impl From<AllocError> for Reason {
    ghost from_gives = { λ _ reason. reason ≡ Memory };

    fn from(_: AllocError) -> Reason {
        Reason::Memory
    }
}
