//! The end of a run over tables.

ghost use Rattle.std.specs.Prelude.{◌≡◌, IfOk, OnOk};
ghost use Rattle.std.specs.Io.KnownBytes.{Appends};
ghost use Rattle.pawk_code.specs.ProgramViews.{code_view};
ghost use Rattle.pawk_store.specs.Globals.{calls};
ghost use Rattle.pawk_store.specs.LeftViews.{left_view};
ghost use Rattle.pawk_store.specs.Runs.{after_records};
ghost use Rattle.pawk_flow.specs.Pieces.{end_between};
ghost use Rattle.pawk_table_merge.specs.TableMerges.{Concludes};

use crate::merging::{Conclusion, Merging};
use crate::refusal::MergeRefusal;
use crate::write::write_parts;
use pawk_device::Sink;
use pawk_flow::finish_flow;
use pawk_sequential::{Job, Outcome};
use pawk_store::Left;

/// Writes what a run has left to write, and gives the rest of what it leaves.
pub(crate) fn conclude<K: Sink>(sink: &mut K, outcome: Outcome) -> Result<Conclusion, MergeRefusal>
    ensures globals { IfOk result (λ c. c.globals ≡ outcome.globals) }
    ensures specials { IfOk result (λ c. c.specials ≡ outcome.specials) }
    ensures ending { IfOk result (λ c. c.ending ≡ outcome.ending) }
    ensures wrote { OnOk result (Appends (K.taken sink.old) (K.taken sink.new) outcome.output) }
{
    let Outcome {
        output,
        globals,
        specials,
        ending,
    } = outcome;
    write_parts(sink, output.into_parts())?;
    Ok(Conclusion {
        globals,
        specials,
        ending,
    })
}

/// Runs END, after the last table was left so, and writes what it writes; gives what the run leaves.
///
/// `Memory` comes where memory was refused, `Write` where a write failed.
///
/// POSIX.1-2017, awk, "Overall Program Structure" and "Actions" (exit).
pub fn end_merge<K: Sink>(
    job: Job<'_>,
    merging: Merging,
    left: Left,
    sink: &mut K,
) -> Result<Conclusion, MergeRefusal>
    ensures { IfOk result (Concludes (after_records calls (code_view job.entry.code.now).expressions
        (code_view job.entry.code.now) job.entry.budget (left_view left)
        (end_between merging.flow)) (K.taken sink.old) (K.taken sink.new)) }
{
    let outcome = finish_flow(job, merging.flow, left)?;
    conclude(sink, outcome)
}
