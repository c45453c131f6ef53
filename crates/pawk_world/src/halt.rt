//! Why a run halts.

ghost use Rattle.std.specs.Prelude.{◌≡◌};

use pawk_value::{Fault, Stop};
use std::alloc::{AllocError, AllocFailed};

/// Why a part of a run gives nothing.
#[derive(Clone, Copy)]
pub enum Halt {
    /// A fault of the language.
    Fault(Fault),
    /// The world does not allow what was asked.
    Clash,
    /// `next`.
    Next,
    /// `nextfile`.
    NextFile,
    /// `exit` with this status.
    Exit(u8),
    /// Memory was refused.
    Memory,
}

impl From<AllocError> for Halt {
    ghost use Rattle.pawk_world.specs.declared.halt.Halt.TheVariants.{Memory};

    ghost from_gives = { λ _ halt. halt ≡ Memory };

    fn from(_error: AllocError) -> Halt {
        Halt::Memory
    }
}

impl<T: Drop> From<AllocFailed<T>> for Halt {
    ghost use Rattle.pawk_world.specs.declared.halt.Halt.TheVariants.{Memory};

    ghost from_gives = { λ _ halt. halt ≡ Memory };

    fn from(_error: AllocFailed<T>) -> Halt {
        Halt::Memory
    }
}

impl From<Fault> for Halt {
    ghost use Rattle.pawk_world.specs.declared.halt.Halt.TheVariants as halt;

    ghost from_gives = { λ fault result. result ≡ halt.Fault fault };

    fn from(fault: Fault) -> Halt {
        Halt::Fault(fault)
    }
}

impl From<Stop> for Halt {
    ghost use Rattle.pawk_world.specs.Halts.{halt_by};

    ghost from_gives = { λ stop result. result ≡ halt_by stop };

    fn from(stop: Stop) -> Halt {
        match stop {
            Stop::Fault(fault) => Halt::Fault(fault),
            Stop::Memory => Halt::Memory,
        }
    }
}
