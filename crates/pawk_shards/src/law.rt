// The laws.

ghost use Rattle.pawk_shards.specs.Apart.{ApartLaw, FarApartLaw, InTurnLaw, LaterLaw, LeavesLaw, MayRunThereLaw, OneApartLaw, OpeningLaw, WholeLaw};
ghost use Rattle.pawk_shards.specs.Joined.{ComposesLaw, MarksComposeLaw, NeighboursLaw, NotedAgainLaw, NotesLaw, TablesComposeLaw};
ghost use Rattle.pawk_shards.specs.Numbers.{RenumberedLaw, ShardFilesLaw};
ghost use Rattle.pawk_shards.specs.Parts.{PartApartLaw, PartsAsOneLaw, PartSaysLaw};
ghost use Rattle.pawk_shards.specs.Steps.{LastStepLaw, MoreStepsLaw, ShardsLaw, StepRecordsLaw, StepsLaw, StopLaw};

use pawk_commute::law::trace_changes_nothing;
use pawk_merge_law::merge_law::{OfChunk, Store, chunks_merge};
use pawk_merge_law::window_law::{may_run_on, merges_far, parts_tell};
use pawk_store::law::{
    Pairing, Policy, lockstep_records, reads_anew, records_follow, records_keep,
};

/// The globals of a run, and what a program may do there that runs in chunks.
struct PlainStore;

impl Policy for PlainStore {
    ghost use Rattle.pawk_store.specs.Globals.{Globals, calls as plain_calls};
    ghost use Rattle.pawk_commute.specs.Settings.{PermitsFor};
    ghost use Rattle.pawk_merge_law.specs.Phases.{Phase};

    ghost Setting = { Phase };

    ghost State = { Globals };

    ghost calls = { λ p. plain_calls };

    ghost permits = { λ p. PermitsFor p.code p.roles };
}

/// The globals of a chunk beside themselves, where each mark may be noted of its cell.
struct NotedChunk;

impl Pairing for NotedChunk {
    ghost use Rattle.pawk_frozen.specs.Frozens.{Frozen};
    ghost use Rattle.pawk_merge_law.specs.Phases.{Phase};
    ghost use Rattle.pawk_shards.specs.Joined.{noted_pair};

    ghost Setting = { Phase };

    ghost First = { Frozen };

    ghost Second = { Frozen };

    ghost pair = { noted_pair };
}

/// Before the first record a run has come to where it begins. A law, which takes and leaves nothing.
pub fn run_begins()
    ensures { OpeningLaw }
{}

/// Chunks that were run apart, over the globals that `BEGIN` left, are merged where a run has come: then their
/// records end so in order, or the merge stops, exactly where the records in order end in a fault or create an
/// element of an array that is no reader array; merged as far as they can be, the run has come to the first of
/// them. Where all is known that the chunks left, the record, `FNR` and `FILENAME` are right too; all else of the
/// record state follows from the count of records and the way of leaving.
///
/// POSIX.1-2017, awk, "Overall Program Structure".
pub fn chunks_merge_apart()
    ensures apart { ApartLaw }
    ensures far { FarApartLaw }
    ensures whole { WholeLaw }
    ensures one { OneApartLaw }
    ensures leaves { LeavesLaw }
{
    chunks_merge();
    merges_far();
    records_keep::<PlainStore>();
    records_keep::<OfChunk>();
}

/// Records that are run in order where a run has come end exactly as after all records before them, and fault
/// or create an element of an array that is no reader array exactly where all do. Chunks may also be run over
/// the globals there. A fault or such an element stays one, whatever follows, and after the end of a run nothing
/// follows.
///
/// POSIX.1-2017, awk, "Overall Program Structure".
pub fn records_go_on()
    ensures turn { InTurnLaw }
    ensures may_run { MayRunThereLaw }
    ensures later { LaterLaw }
{
    records_keep::<PlainStore>();
    records_follow::<PlainStore>();
    records_follow::<Store>();
    reads_anew::<PlainStore>();
    reads_anew::<Store>();
    trace_changes_nothing();
    may_run_on();
    parts_tell();
}

/// Steps of both kinds, one after the other, and shards: all records in order end as they do, and end in a fault
/// or create an element of an array that is no reader array exactly where a step stops.
///
/// POSIX.1-2017, awk, "Overall Program Structure".
pub fn steps_follow()
    ensures records { StepRecordsLaw }
    ensures steps { StepsLaw }
    ensures last { LastStepLaw }
    ensures stop { StopLaw }
    ensures more { MoreStepsLaw }
    ensures shards { ShardsLaw }
{
    chunks_merge_apart();
    records_go_on();
    records_keep::<PlainStore>();
}

/// A record's number among all and the number of its file are of no consequence where records may be run in
/// chunks; so the records of all files are those of each shard's own.
///
/// POSIX.1-2017, awk, "Variables and Special Variables" (`NR`).
pub fn numbers_are_own()
    ensures renumbered { RenumberedLaw }
    ensures files { ShardFilesLaw }
{
    records_keep::<PlainStore>();
    records_keep::<Store>();
    records_keep::<OfChunk>();
}

/// Two marks of a cell, one after the other, are as one, and so are two tables, cell by cell. So neighbours may be
/// joined before they are merged: what chunks of one run note can be composed, and two chunks, of which the first
/// was left through, are merged as the one is.
pub fn neighbours_are_joined()
    ensures marks { MarksComposeLaw }
    ensures tables { TablesComposeLaw }
    ensures composes { ComposesLaw }
    ensures notes { NotesLaw }
    ensures again { NotedAgainLaw }
    ensures chunks { NeighboursLaw }
{
    chunks_merge();
    records_go_on();
    records_keep::<PlainStore>();
    lockstep_records::<NotedChunk>();
}

/// A part of a table is of one chunk that was run apart, or of two parts, one after the other, whose tables were
/// composed. Either way it is of records of which there is one and which are as many as it says, it notes what chunks
/// of the run may note, and it is merged where a run has come as what a chunk left: then its records end so in order,
/// or the merge stops, exactly where the records in order end in a fault or create an element of an array that is no
/// reader array.
///
/// POSIX.1-2017, awk, "Overall Program Structure".
pub fn parts_are_chunks()
    ensures says { PartSaysLaw }
    ensures as_one { PartsAsOneLaw }
    ensures apart { PartApartLaw }
{
    chunks_merge_apart();
    records_go_on();
    neighbours_are_joined();
}
