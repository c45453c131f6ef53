// The laws.

ghost use Rattle.pawk_merge.specs.Extents.{FarLaw};
ghost use Rattle.pawk_merge_law.specs.Cuts.{CutLaw};
ghost use Rattle.pawk_merge_law.specs.Extents.{FirstLaw};
ghost use Rattle.pawk_merge_law.specs.Files.{FilesLaw};
ghost use Rattle.pawk_merge_law.specs.Flows.{FilesFollowLaw, FnrLaw, NumbersLaw, PieceFollowsLaw, RestOutputLaw};
ghost use Rattle.pawk_merge_law.specs.Numbers.{AfterLaw, WindowItemsLaw};
ghost use Rattle.pawk_merge_law.specs.Pieces.{NoSkipLaw, PiecesLaw};
ghost use Rattle.pawk_merge_law.specs.Streams.{StreamedLaw};
ghost use Rattle.pawk_merge_law.specs.Redone.{FaultNumbersLaw, FaultOutputLaw, FilesFaultLaw, PieceFaultsLaw};
ghost use Rattle.pawk_merge_law.specs.Ways.{WaysLaw};
ghost use Rattle.pawk_merge_law.specs.Windows.{MayRunOnLaw, OneMoreLaw, PartingLaw, StepLaw, WindowsLaw};

use crate::merge_law::{Store, chunks_merge};
use pawk_commute::law::{commutes, starts_again, trace_changes_nothing, trace_is_appended};
use pawk_store::law::{Policy, output_is_appended, records_follow};

/// The globals of a run.
struct PlainStore;

impl Policy for PlainStore {
    ghost use Rattle.pawk_store.specs.Globals.{Globals, calls as plain_calls};

    ghost Setting = { Unit {0} };

    ghost State = { Globals };

    ghost calls = { λ _. plain_calls };

    ghost permits = { λ _ _ _. Unit {0} };
}

/// Records in two pieces, of any program and over any world: the second is run from where the run
/// is after the first, and no file is left unread after records that were left through. A law, which
/// takes and leaves nothing.
///
/// POSIX.1-2017, awk, "Overall Program Structure".
pub fn pieces_follow<P: Policy>()
    ensures pieces { (i : P.Setting) → PiecesLaw (P.calls i) }
    ensures skips { (i : P.Setting) → NoSkipLaw (P.calls i) }
{}

/// Whatever the windows of a run, each in chunks over the globals of its begin or one record after
/// the other, the records in order end as they do, and what was written is their output.
///
/// POSIX.1-2017, awk, "Overall Program Structure".
pub fn windows_follow()
    ensures { WindowsLaw }
{
    chunks_merge();
    output_is_appended::<PlainStore>();
}

/// One window: the records in order get to where it does; and after windows one more may follow.
pub fn window_steps()
    ensures step { StepLaw }
    ensures more { OneMoreLaw }
{
    chunks_merge();
}

/// A whole run whose records are run in windows: what `BEGIN`, the windows and `END` write, one
/// after the other, is its output, and it ends as `END` does after the last window.
///
/// POSIX.1-2017, awk, "Overall Program Structure".
pub fn run_in_windows()
    ensures { StreamedLaw }
{
    chunks_merge();
    output_is_appended::<PlainStore>();
}

/// After records that neither end in a fault nor create an element of an array that is no reader
/// array, chunks may be run over the globals as they are then.
pub fn may_run_on()
    ensures { MayRunOnLaw }
{
    commutes();
    starts_again();
    trace_changes_nothing();
}

/// Records in two parts end in a fault, or create such an element, exactly where one of the parts
/// does.
pub fn parts_tell()
    ensures { PartingLaw }
{
    trace_changes_nothing();
    trace_is_appended();
}

/// The records in order end in a fault, or create such an element, exactly where a window does that
/// is run in turn.
pub fn windows_tell()
    ensures { WaysLaw }
{
    chunks_merge();
    trace_changes_nothing();
    trace_is_appended();
    output_is_appended::<PlainStore>();
    output_is_appended::<Store>();
}

/// What chunks leave is merged as far as it can be: the first chunks, as many as were merged, have
/// this merge, and the stop after them is that of all. The first of chunks leave what they leave
/// among all.
pub fn merges_far()
    ensures far { FarLaw }
    ensures first { FirstLaw }
{}

/// The records of a window have the numbers that they have in the whole input, where those before
/// it are counted; and a file's records are those of its windows.
///
/// POSIX.1-2017, awk, "Variables and Special Variables" (`NR`, `FNR`).
pub fn numbers_go_on()
    ensures plan { AfterLaw }
    ensures windows { WindowItemsLaw }
{}

/// Paragraphs may be cut after two newlines, whatever follows.
///
/// POSIX.1-2017, awk, "Variables and Special Variables" (`RS`).
pub fn paragraphs_part()
    ensures { CutLaw }
{}

/// No record looks at the number of its file, of any program and over any world.
pub fn files_alike<P: Policy>()
    ensures { (i : P.Setting) → FilesLaw (P.calls i) }
{}

/// A record's number among all is counted by the run, and the number of its file says only which records
/// `nextfile` leaves unread; after records that were left through `FNR` is the number of the last. Of any
/// program and over any world.
///
/// POSIX.1-2017, awk, "Variables and Special Variables" (`NR`, `FNR`).
pub fn numbers_alike<P: Policy>()
    ensures numbers { (i : P.Setting) → NumbersLaw (P.calls i) }
    ensures fnr { (i : P.Setting) → FnrLaw (P.calls i) }
{}

/// Where nothing is assigned between them, the records of files in order are the rest of the run file by
/// file. Whatever is assigned, the records of a file in two pieces are the first, and the second where the
/// first neither ends the run nor leaves the file; and what was written before stays in front. Of any
/// program and over any world.
///
/// POSIX.1-2017, awk, "OPERANDS" (assignment) and "Overall Program Structure".
pub fn files_follow<P: Policy>()
    ensures files { (i : P.Setting) → FilesFollowLaw (P.calls i) }
    ensures pieces { (i : P.Setting) → PieceFollowsLaw (P.calls i) }
    ensures output { (i : P.Setting) → RestOutputLaw (P.calls i) }
{
    output_is_appended::<P>();
}

/// Where nothing is assigned between them, the records of files end in a fault, or create an element of an
/// array that is no reader array, exactly where they do file by file; and whatever is assigned, those of a
/// file exactly where one of its pieces does.
pub fn faults_follow()
    ensures numbers { FaultNumbersLaw }
    ensures output { FaultOutputLaw }
    ensures files { FilesFaultLaw }
    ensures pieces { PieceFaultsLaw }
{
    records_follow::<Store>();
    output_is_appended::<PlainStore>();
    output_is_appended::<Store>();
    trace_changes_nothing();
    trace_is_appended();
}
