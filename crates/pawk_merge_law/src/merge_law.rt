// The law.

ghost use Rattle.pawk_frozen.specs.Frozens.{calls as chunk_calls};
ghost use Rattle.pawk_store.specs.Steady.{ReadsAnewLaw};
ghost use Rattle.pawk_merge_law.specs.ChunkedRuns.{ChunksLaw};

use pawk_commute::law::{
    commutes, merge_tells, starts_again, trace_changes_nothing, trace_is_appended,
};
use pawk_merge::laws::{one_join_law, takes_law};
use pawk_store::law::{Policy, reads_anew, records_follow, records_keep};

/// The globals that keep a trace, and what a program may do there that runs in chunks.
pub struct Store;

impl Policy for Store {
    ghost use Rattle.pawk_store.specs.Globals.{calls as plain_calls};
    ghost use Rattle.pawk_commute.specs.Traces.{Traced, traced};
    ghost use Rattle.pawk_commute.specs.Settings.{PermitsFor};
    ghost use Rattle.pawk_merge_law.specs.Phases.{Phase};

    ghost Setting = { Phase };

    ghost State = { Traced };

    ghost calls = { λ p. traced plain_calls };

    ghost permits = { λ p. PermitsFor p.code p.roles };
}

/// The globals of a chunk, and the same.
pub struct OfChunk;

impl Policy for OfChunk {
    ghost use Rattle.pawk_frozen.specs.Frozens.{Frozen, calls as chunk_calls};
    ghost use Rattle.pawk_commute.specs.Settings.{PermitsFor};
    ghost use Rattle.pawk_merge_law.specs.Phases.{Phase};

    ghost Setting = { Phase };

    ghost State = { Frozen };

    ghost calls = { λ p. chunk_calls };

    ghost permits = { λ p. PermitsFor p.code p.roles };
}

/// Chunks of records that are run over the globals as BEGIN left them, and the merge of what they
/// noted: where it succeeds, the records in order end with the merged globals, the record state and
/// the way of leaving of the last chunk, and the outputs in order; it stops exactly where the
/// records in order end in a fault or create an element of an array that is no reader array. A law,
/// which takes and leaves nothing.
///
/// POSIX.1-2017, awk, "Overall Program Structure".
pub fn chunks_merge()
    ensures { ChunksLaw }
{
    records_keep::<Store>();
    records_follow::<Store>();
    reads_anew::<Store>();
    reads_anew::<OfChunk>();
    commutes();
    starts_again();
    merge_tells();
    trace_changes_nothing();
    trace_is_appended();
    one_join_law();
    takes_law();
}
