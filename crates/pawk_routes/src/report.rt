//! How a run went, and why one was refused.

use pawk_admit::Reason;
use pawk_workers::CrewRefusal;
use std::alloc::AllocError;
use thiserror::Error;

/// Which way a run went.
#[derive(Clone, Copy, PartialEq, Eq)]
pub enum Route {
    /// No record is read after `BEGIN`.
    NoMain,
    /// The program may not run in chunks, for this reason.
    NotAdmitted(Reason),
    /// The records fault, or create an element of an array that is no reader array, so they were run one
    /// after the other.
    Redo,
    /// What the chunks left was merged.
    Parallel,
}

/// How a run went.
#[derive(Clone, Copy, PartialEq, Eq)]
pub struct Report {
    pub route: Route,
}

/// Why a run was refused.
#[derive(Clone, Copy, Debug, PartialEq, Eq, Drop, Error)]
pub enum Refusal {
    /// Memory was refused.
    #[error("out of memory")]
    Memory = 1,
    /// A worker could not be started.
    #[error("a worker could not be started")]
    Thread = 2,
    /// There is no plan of this cutting.
    #[error("there is no plan of this cutting")]
    Cutting = 3,
}

impl From<AllocError> for Refusal {
    ghost use Rattle.std.specs.Prelude.{◌≡◌};
    ghost use Rattle.pawk_routes.specs.declared.report.Refusal.TheVariants.{Memory};

    ghost from_gives = { λ _ e. e ≡ Memory };

    fn from(_error: AllocError) -> Refusal {
        Refusal::Memory
    }
}

impl From<CrewRefusal> for Refusal {
    ghost use Rattle.std.specs.Prelude.{◌≢◌};
    ghost use Rattle.pawk_routes.specs.declared.report.Refusal.TheVariants.{Cutting};

    ghost from_gives = { λ _ e. e ≢ Cutting };

    fn from(refusal: CrewRefusal) -> Refusal {
        match refusal {
            CrewRefusal::Memory => Refusal::Memory,
            CrewRefusal::Thread => Refusal::Thread,
        }
    }
}
