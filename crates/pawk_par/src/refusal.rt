//! Why a run over streams was refused.

ghost use Rattle.std.specs.Prelude.{◌≡◌};
ghost use Rattle.pawk_par.specs.Refusals.{refusal_number};

use pawk_settings::SettingsRefusal;
use pawk_syntax::SyntaxRefusal;
use pawk_threads::Refusal;
use std::alloc::AllocError;
use thiserror::Error;

/// Why a run over streams was refused. Nothing was written, but with `Write`.
#[derive(Clone, Copy, Debug, PartialEq, Eq, Drop, Error)]
pub enum StreamRefusal {
    /// 1: memory was refused.
    #[error("out of memory")]
    Memory,
    /// 2: a worker could not be started.
    #[error("a worker could not be started")]
    Thread,
    /// 3: there is no plan of this cutting.
    #[error("there is no plan of this cutting")]
    Cutting,
    /// 4: the text is refused as a program, for this cause. Nothing was read.
    #[error("the program is refused: {0}")]
    Program(SyntaxRefusal),
    /// 5: an assignment or the budget is refused. Nothing was read.
    #[error("the settings are refused: {0}")]
    Settings(SettingsRefusal),
    /// 6: a read failed.
    #[error("a read failed")]
    Read,
    /// 7: a write failed, after this number of bytes of the output.
    #[error("a write failed after {0} bytes of the output")]
    Write(u64),
    /// 8: the source has more bytes than an input may have.
    #[error("the input is too large")]
    Input,
}

impl StreamRefusal {
    /// The number by which the refusal is reported to users.
    pub fn number(self) -> u8
        ensures { result ≡ refusal_number self }
    {
        match self {
            StreamRefusal::Memory => 1,
            StreamRefusal::Thread => 2,
            StreamRefusal::Cutting => 3,
            StreamRefusal::Program(_) => 4,
            StreamRefusal::Settings(_) => 5,
            StreamRefusal::Read => 6,
            StreamRefusal::Write(_) => 7,
            StreamRefusal::Input => 8,
        }
    }
}

impl From<AllocError> for StreamRefusal {
    ghost use Rattle.pawk_par.specs.declared.refusal.StreamRefusal.TheVariants.{Memory};

    ghost from_gives = { λ _ e. e ≡ Memory };

    fn from(_error: AllocError) -> StreamRefusal {
        StreamRefusal::Memory
    }
}

impl From<Refusal> for StreamRefusal {
    ghost use Rattle.pawk_par.specs.Refusals.{refusal_of};

    ghost from_gives = { λ refusal e. e ≡ refusal_of refusal };

    fn from(refusal: Refusal) -> StreamRefusal {
        match refusal {
            Refusal::Memory => StreamRefusal::Memory,
            Refusal::Thread => StreamRefusal::Thread,
            Refusal::Cutting => StreamRefusal::Cutting,
        }
    }
}
