//! Why settings are refused.

ghost use Rattle.std.specs.Prelude.{◌≡◌};
ghost use Rattle.pawk_settings.specs.Refusals.{refusal_number};
ghost use Rattle.pawk_settings.specs.declared.refusal.SettingsRefusal.TheVariants as refusal;

use std::alloc::{AllocError, AllocFailed};
use thiserror::Error;

/// Why settings are refused.
#[derive(Clone, Copy, Debug, PartialEq, Eq, Drop, Error)]
pub enum SettingsRefusal {
    /// 1: what is assigned is no name: a letter or `_`, and then letters, digits and `_`.
    #[error("what is assigned is no name")]
    Name,
    /// 2: the name may not be assigned: the run sets the variable, the word has a meaning of its own or
    /// is left out of the language, or the program has an array or a function of the name.
    #[error("the name cannot be assigned")]
    Target,
    /// 3: a backslash in the value begins no escape.
    #[error("a backslash in the value begins no escape")]
    Escape,
    /// 4: the budget is not from 1 to `BUDGET_LIMIT`.
    #[error("the budget of steps is 0 or too great")]
    Budget,
    /// 5: memory was refused.
    #[error("out of memory")]
    Memory,
}

impl SettingsRefusal {
    /// The number by which the refusal is reported to users.
    pub fn number(self) -> u8
        ensures { result ≡ refusal_number self }
    {
        match self {
            SettingsRefusal::Name => 1,
            SettingsRefusal::Target => 2,
            SettingsRefusal::Escape => 3,
            SettingsRefusal::Budget => 4,
            SettingsRefusal::Memory => 5,
        }
    }
}

impl From<AllocError> for SettingsRefusal {
    ghost from_gives = { λ _ e. e ≡ refusal.Memory };

    fn from(_: AllocError) -> SettingsRefusal {
        SettingsRefusal::Memory
    }
}

impl<T: Drop> From<AllocFailed<T>> for SettingsRefusal {
    ghost from_gives = { λ _ e. e ≡ refusal.Memory };

    fn from(_: AllocFailed<T>) -> SettingsRefusal {
        SettingsRefusal::Memory
    }
}
