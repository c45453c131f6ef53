// The laws.

ghost use Rattle.std.specs.Prelude.{List};
ghost use Rattle.pawk_commute.specs.Commutation.{Commutation, StartsAgain};
ghost use Rattle.pawk_commute.specs.Admitted.{AdmissionAllows};
ghost use Rattle.pawk_commute.specs.TracedRuns.{TraceIsAppendedLaw, TracedLaw};
ghost use Rattle.pawk_commute.specs.Merging.{MergeTells};

use pawk_store::law::{Pairing, lockstep_records};

/// The globals that keep a trace, and those of a chunk.
pub struct StoreAndChunk;

impl Pairing for StoreAndChunk {
    ghost use Rattle.pawk_commute.specs.Traces.{Traced};
    ghost use Rattle.pawk_commute.specs.Settings.{Setting as Settings};
    ghost use Rattle.pawk_commute.specs.Commutation.{pair_of};
    ghost use Rattle.pawk_frozen.specs.Frozens.{Frozen};

    ghost Setting = { Settings };

    ghost First = { Traced };

    ghost Second = { Frozen };

    ghost pair = { pair_of };
}

/// The globals that keep a trace, and those that keep none.
pub struct TracedAndPlain;

impl Pairing for TracedAndPlain {
    ghost use Rattle.pawk_commute.specs.Traces.{Traced};
    ghost use Rattle.pawk_commute.specs.TracedRuns.{traced_pair};
    ghost use Rattle.pawk_store.specs.Globals.{Globals};

    ghost Setting = { Unit {0} };

    ghost First = { Traced };

    ghost Second = { Globals };

    ghost pair = { traced_pair };
}

/// Records over globals that keep a trace end as over globals that keep none. A law, which takes
/// and leaves nothing.
pub fn trace_changes_nothing()
    ensures { TracedLaw }
{
    lockstep_records::<TracedAndPlain>();
}

/// The globals that keep a trace, with more or less in front of it.
pub struct LongerTrace;

impl Pairing for LongerTrace {
    ghost use Rattle.pawk_commute.specs.Traces.{Event, Traced};
    ghost use Rattle.pawk_commute.specs.TracedRuns.{longer_pair};

    ghost Setting = { List Event };

    ghost First = { Traced };

    ghost Second = { Traced };

    ghost pair = { longer_pair };
}

/// What was in the trace before records stays in front of what they report.
pub fn trace_is_appended()
    ensures { TraceIsAppendedLaw }
{
    lockstep_records::<LongerTrace>();
}

/// A chunk of records over the globals that BEGIN left ends as the same records over the globals
/// as they are then: the same record state, output and way of ending, and the table is what the
/// trace says; or up to the first event, which is named. A law, which takes and leaves nothing.
pub fn commutes()
    ensures { Commutation }
{
    lockstep_records::<StoreAndChunk>();
}

/// Where there was no event, the next chunk may begin with the globals as they are.
pub fn starts_again()
    ensures { StartsAgain }
{}

/// A chunk that is left well and whose cells all pass the test of the merge ends as the same
/// records in order, and no other does.
pub fn merge_tells()
    ensures { MergeTells }
{}

/// What the main rules of an admissible program and the functions that they reach ask is permitted
/// by the roles of its globals.
pub fn admission_allows()
    ensures { AdmissionAllows }
{}
