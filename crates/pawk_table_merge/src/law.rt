//! Laws of sections.

ghost use Rattle.pawk_table_merge.specs.Later.{TellLaterLaw};
ghost use Rattle.pawk_table_merge.specs.Runs.{TableRunLaw};

use pawk_flow::assignments_follow;
use pawk_merge_law::merge_law::OfChunk;
use pawk_merge_law::window_law::files_follow;
use pawk_numbered::law::records_may_be_numbered_from_none;
use pawk_shards::law::{chunks_merge_apart, numbers_are_own, records_go_on, run_begins};
use pawk_store::law::{Policy, output_is_appended};

/// The globals of a run.
pub(crate) struct PlainStore;

impl Policy for PlainStore {
    ghost use Rattle.pawk_store.specs.Globals.{Globals, calls as plain_calls};

    ghost Setting = { Unit {0} };

    ghost State = { Globals };

    ghost calls = { λ _. plain_calls };

    ghost permits = { λ _ _ _. Unit {0} };
}

/// Sections of a program that does not read `NR` tell of their records the same, however many come before. A law, which
/// takes and leaves nothing.
///
/// POSIX.1-2017, awk, "Variables and Special Variables" (`NR`).
pub fn sections_tell_later()
    ensures { TellLaterLaw }
{
    records_may_be_numbered_from_none::<OfChunk>();
}

/// The tables of all shards, merged one after the other after BEGIN, and END after them: what that leaves and writes is
/// what the run over the files of all shards does. A law, which takes and leaves nothing.
///
/// POSIX.1-2017, awk, "Overall Program Structure".
pub fn tables_make_the_run()
    ensures { TableRunLaw }
{
    run_begins();
    chunks_merge_apart();
    records_go_on();
    records_may_be_numbered_from_none::<OfChunk>();
    numbers_are_own();
    files_follow::<PlainStore>();
    output_is_appended::<PlainStore>();
    assignments_follow();
}
