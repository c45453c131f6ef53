//! The laws of a run that is read piece by piece.

ghost use Rattle.pawk_store.specs.Globals.{calls};
ghost use Rattle.pawk_store.specs.Outputs.{OutputStaysLaw};
ghost use Rattle.pawk_store.specs.Steady.{RecordsKeepLaw};
ghost use Rattle.pawk_commute.specs.Settings.{PermitsFor};
ghost use Rattle.pawk_merge_law.specs.Phases.{Phase};
ghost use Rattle.pawk_merge_law.specs.Flows.{PieceFollowsLaw, RestOutputLaw};
ghost use Rattle.pawk_merge_law.specs.Redone.{FaultOutputLaw, PieceFaultsLaw};

use pawk_merge_law::window_law::{faults_follow, files_follow};
use pawk_store::law::{Policy, output_is_appended, records_keep};

/// The globals of a run.
struct PlainStore;

impl Policy for PlainStore {
    ghost use Rattle.pawk_store.specs.Globals.{Globals, calls as plain_calls};

    ghost Setting = { Unit {0} };

    ghost State = { Globals };

    ghost calls = { λ _. plain_calls };

    ghost permits = { λ _ _ _. Unit {0} };
}

/// The records of a file in two pieces are the first, and the second where the first neither ends the run nor leaves the file;
/// and what was written before stays in front. A law, which takes and leaves nothing.
///
/// POSIX.1-2017, awk, "Overall Program Structure".
pub(crate) fn runs_go_on()
    ensures pieces { PieceFollowsLaw calls }
    ensures output { RestOutputLaw calls }
    ensures behind { OutputStaysLaw calls }
{
    files_follow::<PlainStore>();
    output_is_appended::<PlainStore>();
}

/// The globals of a run, and what a program may do there that runs in chunks.
struct InChunks;

impl Policy for InChunks {
    ghost use Rattle.pawk_store.specs.Globals.{Globals, calls as plain_calls};
    ghost use Rattle.pawk_commute.specs.Settings.{PermitsFor};
    ghost use Rattle.pawk_merge_law.specs.Phases.{Phase};

    ghost Setting = { Phase };

    ghost State = { Globals };

    ghost calls = { λ _. plain_calls };

    ghost permits = { λ p. PermitsFor p.code p.roles };
}

/// The records of a file end in a fault, or create an element of an array that is no reader array, exactly where one of its
/// pieces does; and records that may be run in chunks do not leave their file unread. A law, which takes and leaves nothing.
pub(crate) fn routes_go_on()
    ensures pieces { PieceFaultsLaw }
    ensures output { FaultOutputLaw }
    ensures keep { (p : Phase) → RecordsKeepLaw (PermitsFor p.code p.roles) calls }
{
    faults_follow();
    records_keep::<InChunks>();
}
