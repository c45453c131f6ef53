//! Why a table is not written or not read.

ghost use Rattle.std.specs.Prelude.{◌≡◌};

use pawk_lines::Damage;
use std::alloc::{AllocError, AllocFailed};
use thiserror::Error;

/// Why a table is not written or not read.
#[derive(Clone, Copy, Debug, PartialEq, Eq, Drop, Error)]
pub enum TableRefusal {
    /// Memory was refused.
    #[error("out of memory")]
    Memory,
    /// Reading: no table begins there. Writing: something was noted that no line says.
    #[error("no table")]
    Damage,
}

impl From<AllocError> for TableRefusal {
    ghost use Rattle.pawk_parts.specs.declared.refusal.TableRefusal.TheVariants.{Memory};

    ghost from_gives = { λ _ refusal. refusal ≡ Memory };

    fn from(_error: AllocError) -> TableRefusal {
        TableRefusal::Memory
    }
}

impl<T: Drop> From<AllocFailed<T>> for TableRefusal {
    ghost use Rattle.pawk_parts.specs.declared.refusal.TableRefusal.TheVariants.{Memory};

    ghost from_gives = { λ _ refusal. refusal ≡ Memory };

    fn from(_error: AllocFailed<T>) -> TableRefusal {
        TableRefusal::Memory
    }
}

impl From<Damage> for TableRefusal {
    ghost use Rattle.pawk_parts.specs.declared.refusal.TableRefusal.TheVariants as refusal;

    ghost from_gives = { λ _ made. made ≡ refusal.Damage };

    fn from(_damage: Damage) -> TableRefusal {
        TableRefusal::Damage
    }
}
