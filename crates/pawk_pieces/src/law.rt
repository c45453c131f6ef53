//! The law of a piece whose chunks are merged as far as they can be.

ghost use Rattle.pawk_pieces.specs.Merged.{FarResultsLaw};

use pawk_merge_law::gathered_law::results_merge_from;
use pawk_merge_law::window_law::{may_run_on, merges_far, pieces_follow};
use pawk_store::law::Policy;

/// The globals of a run.
pub struct PlainStore;

impl Policy for PlainStore {
    ghost use Rattle.pawk_store.specs.Globals.{Globals, calls as plain_calls};

    ghost Setting = { Unit {0} };

    ghost State = { Globals };

    ghost calls = { λ _. plain_calls };

    ghost permits = { λ _ _ _. Unit {0} };
}

/// The results of chunks, merged as far as they can be: where all are, the chunks' records in order end so, and
/// neither end in a fault nor create an element of an array that is no reader array, and more may follow; else
/// the records of the chunks that were left out follow those of the others, and one of the two happens.
///
/// POSIX.1-2017, awk, "Overall Program Structure".
pub fn results_merge_far()
    ensures { FarResultsLaw }
{
    results_merge_from();
    may_run_on();
    merges_far();
    pieces_follow::<PlainStore>();
}
