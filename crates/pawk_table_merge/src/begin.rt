//! The begin of a run over tables.

ghost use Rattle.std.specs.Prelude.{IfOk};
ghost use Rattle.pawk_code.specs.ProgramViews.{code_view};
ghost use Rattle.pawk_store.specs.Openings.{pairs_of};
ghost use Rattle.pawk_flow.specs.Begins.{IsStart};
ghost use Rattle.pawk_table_merge.specs.TableMerges.{BeginsSo, IsBegin, IsMergeOf};

use crate::finish::conclude;
use crate::merging::{MergeStart, Merging};
use crate::order::MergeOrder;
use crate::refusal::MergeRefusal;
use crate::write::write_bytes;
use pawk_device::Sink;
use pawk_flow::{Begun, Start, begin_flow};
use pawk_tables::Shape;
use std::alloc::Global;

/// The run that goes on from here; what BEGIN wrote is written.
fn go_on<K: Sink>(
    order: MergeOrder<'_>,
    start: Start,
    sink: &mut K,
) -> Result<Merging, MergeRefusal>
    requires { IsStart (code_view order.job.code.now) order.job.budget
        (pairs_of order.assignments.now) (pairs_of order.first.now) start }
    ensures begin { IfOk result (IsBegin (code_view order.entry.job.code.now)
        order.entry.job.budget (pairs_of order.entry.assignments.now)
        (pairs_of order.entry.first.now) (K.taken sink.old) (K.taken sink.new)) }
    ensures of { IfOk result (IsMergeOf (code_view order.entry.job.code.now)) }
{
    let Start {
        flow,
        output,
        rs,
        roles,
    } = start;
    let shape = Shape {
        seed: order.job.seed,
        scalars: flow.globals.scalar_count(),
        arrays: flow.globals.array_count(),
    };
    let opened = flow.state.count();
    match roles {
        Ok(roles) => {
            write_bytes(sink, output.as_slice())?;
            Ok(Merging {
                flow,
                rs,
                roles,
                shape,
                opened,
                is_ready: true,
            })
        }
        Err(reason) => Err(MergeRefusal::NotAdmitted(reason)),
    }
}

/// Runs BEGIN, with what is assigned before it, and makes the first assignments where records are read. What BEGIN
/// wrote is written. The run has then ended, whatever the tables are, or tables are to come.
///
/// `NotAdmitted` comes where the program reads records and may not run in chunks, and then nothing is written; `Memory`
/// where memory was refused, `Write` where a write failed.
///
/// POSIX.1-2017, awk, "Overall Program Structure" and "OPERANDS" (assignment).
pub fn begin_merge<K: Sink>(
    alloc: Global,
    order: MergeOrder<'_>,
    sink: &mut K,
) -> Result<MergeStart, MergeRefusal>
    ensures { IfOk result (BeginsSo (code_view order.entry.job.code.now) order.entry.job.budget
        (pairs_of order.entry.assignments.now) (pairs_of order.entry.first.now)
        (K.taken sink.old) (K.taken sink.new)) }
{
    match begin_flow(alloc, order.job, order.assignments, order.first)? {
        Begun::Ended(outcome, _) => Ok(MergeStart::Ended(conclude(sink, outcome)?)),
        Begun::Flows(start) => Ok(MergeStart::Goes(go_on(order, start, sink)?)),
    }
}
