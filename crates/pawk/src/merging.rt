//! The tables of shards, merged.

ghost use Rattle.std.specs.Prelude.{◌<◌, IfOk};
ghost use Rattle.pawk_code.specs.ProgramViews.{code_view};
ghost use Rattle.pawk_table_merge.specs.TableMerges.{IsMergeOf};

use pawk_command::checked_table::CheckedTable;
use pawk_command::coming_tables::read_ahead;
use pawk_command::command_line::CommandLine;
use pawk_command::deep::Depth;
use pawk_command::first_table::{FirstTable, code_of, compare};
use pawk_command::operands::FileTurn;
use pawk_command::reports::{End, RunFailure, UNWRITTEN};
use pawk_command::sequence::Sequence;
use pawk_command::table_failure::{OrderCause, TableFailure};
use pawk_par::{Job, Left, StreamRefusal, Writer};
use pawk_table_merge::{
    MergeOrder, MergeRefusal, MergeStart, Merging, StopCause, TableEnd, begin_merge, end_merge,
    merge_table,
};
use pawk_tables::ReadHeader;
use std::fs::File;
use std::io::{Read, Write};
use std::rt::Files;
use std::sync::Wait;
use std::thread::Threads;

/// The refusal of a merge of the table of this name.
pub(crate) fn failure_of<'a>(name: &'a str, refusal: MergeRefusal) -> RunFailure<'a> {
    match refusal {
        MergeRefusal::Memory => RunFailure::from(StreamRefusal::Memory),
        MergeRefusal::Input => RunFailure::from(StreamRefusal::Input),
        MergeRefusal::Write => RunFailure::from(UNWRITTEN),
        MergeRefusal::NotAdmitted(reason) => RunFailure::NotAdmitted(reason),
        MergeRefusal::Damage => RunFailure::Table(TableFailure::Damaged(name)),
        MergeRefusal::Before { before, come } => {
            RunFailure::Table(TableFailure::Before { name, before, come })
        }
    }
}

/// What the records of a table do that has to be done in order.
fn order_cause(cause: StopCause) -> OrderCause {
    match cause {
        StopCause::Sum => OrderCause::Sum,
        StopCause::Fault(fault) => OrderCause::Fault(fault.name()),
        StopCause::Element => OrderCause::Element,
    }
}

/// How far tables of a program were merged.
#[derive(Drop)]
struct Progress {
    merging: Merging,
    /// How the records of the last table were left.
    left: Left,
    sequence: Sequence,
}

impl Progress {
    /// Whether another table follows.
    fn goes_on(&self) -> bool {
        matches!(self.left, Left::Through)
    }

    /// The progress with the sections of the table of this name, which has this header.
    fn with<'a, O: Write>(
        self,
        job: Job<'_>,
        name: &'a str,
        header: &ReadHeader<'_>,
        sections: &[u8],
        sink: &mut Writer<O>,
    ) -> Result<Progress, RunFailure<'a>>
        requires of { IsMergeOf (code_view job.code.now) self.merging }
        ensures of { IfOk result (λ p. IsMergeOf (code_view job.entry.code.now) p.merging) }
    {
        let Progress {
            merging,
            left: _,
            sequence,
        } = self;
        let sequence = match sequence.with(header.shard) {
            Ok(sequence) => sequence,
            Err(failure) => return Err(RunFailure::Table(failure)),
        };
        let (merging, end) = match merge_table(job, merging, header.before, sections, sink) {
            Ok(merged) => merged,
            Err(refusal) => return Err(failure_of(name, refusal)),
        };
        let left = match end {
            TableEnd::Through => Left::Through,
            TableEnd::Ended(left) => left,
            TableEnd::Stopped(stop) => {
                return Err(RunFailure::Table(TableFailure::InOrder {
                    name,
                    shard: sequence.first(),
                    record: stop.record,
                    cause: order_cause(stop.cause),
                }));
            }
        };
        Ok(Progress {
            merging,
            left,
            sequence,
        })
    }
}

/// Merges some of the tables after the first one, which are read at once.
fn merge_some<'a, R, I, O>(
    rt: &R,
    job: Job<'_>,
    progress: Progress,
    first: FirstTable<'a, '_>,
    turns: &[FileTurn<'a, '_>],
    input: &mut I,
    sink: &mut Writer<O>,
) -> Result<Progress, RunFailure<'a>>
where
    R: Files<File = File> + AllocGlobal + Threads + Wait,
    I: Read,
    O: Write,
    requires of { IsMergeOf (code_view job.code.now) progress.merging }
    ensures of { IfOk result (λ p. IsMergeOf (code_view job.entry.code.now) p.merging) }
{
    let mut progress = progress;
    for (turn, table) in turns.iter().zip(read_ahead(rt, turns)?) {
        if !progress.goes_on() {
            break;
        }
        let table = table.take(rt, turn.name, input)?;
        let (header, sections) = table.parted(rt.alloc(), turn.name)?;
        compare(first.header, turn.name, &header)?;
        progress = progress.with(job, turn.name, &header, sections, sink)?;
    }
    Ok(progress)
}

/// Merges the first table and the others, of which so many are read at once.
fn merge_all<'a, R, I, O>(
    rt: &R,
    job: Job<'_>,
    first: FirstTable<'a, '_>,
    progress: Progress,
    others: Others<'a, '_>,
    input: &mut I,
    sink: &mut Writer<O>,
) -> Result<Progress, RunFailure<'a>>
where
    R: Files<File = File> + AllocGlobal + Threads + Wait,
    I: Read,
    O: Write,
    requires of { IsMergeOf (code_view job.code.now) progress.merging }
{
    let mut progress = progress.with(job, first.name, first.header, first.sections, sink)?;
    for turns in others.turns.chunks(others.readers) {
        if !progress.goes_on() {
            break;
        }
        progress = merge_some(rt, job, progress, first, turns, input, sink)?;
    }
    match progress.sequence.lack() {
        Some(failure) if progress.goes_on() => Err(RunFailure::Table(failure)),
        _ => Ok(progress),
    }
}

/// The tables after the first one.
#[derive(Clone, Copy)]
struct Others<'a, 't> {
    turns: &'t [FileTurn<'a, 't>],
    /// How many are read at once at most.
    readers: usize,
    ghost some: { 0 < readers },
}

/// Merges tables of which the first one is this, and writes what the run over all shards writes.
fn merge_from<'a, R, I, O>(
    rt: &R,
    job: Job<'_>,
    first: FirstTable<'a, '_>,
    others: Others<'a, '_>,
    input: &mut I,
    output: &mut O,
) -> Result<End, RunFailure<'a>>
where
    R: Files<File = File> + AllocGlobal + Threads + Wait,
    I: Read,
    O: Write,
{
    let alloc = rt.alloc();
    let order = MergeOrder {
        job,
        assignments: first.header.assignments.as_slice(),
        first: first.header.first.as_slice(),
    };
    let mut sink = Writer::new(output);
    let merging = match begin_merge(alloc, order, &mut sink) {
        Ok(MergeStart::Goes(merging)) => merging,
        Ok(MergeStart::Ended(end)) => return Ok(End::of(alloc, end.ending)),
        Err(refusal) => return Err(failure_of(first.name, refusal)),
    };
    let progress = Progress {
        merging,
        left: Left::Through,
        sequence: Sequence::NONE,
    };
    let progress = merge_all(rt, job, first, progress, others, input, &mut sink)?;
    match end_merge(job, progress.merging, progress.left, &mut sink) {
        Ok(end) => Ok(End::of(alloc, end.ending)),
        Err(refusal) => Err(failure_of(first.name, refusal)),
    }
}

/// Merges the tables that the operands name, and writes what the run over all shards writes.
pub(crate) fn merge_tables<'a, R, I, O>(
    rt: &R,
    line: &'a CommandLine<'a>,
    input: I,
    output: &mut O,
) -> Result<End, RunFailure<'a>>
where
    R: Files<File = File> + AllocGlobal + Threads + Wait,
    I: Read + Drop,
    O: Write,
{
    let alloc = rt.alloc();
    if !line.operands.assignments().is_empty() {
        return Err(RunFailure::LateAssignment);
    }
    let mut input = input;
    let turns = line.operands.turns(alloc, &[])?;
    let Some((turn, others)) = turns.as_slice().split_first() else {
        return Err(RunFailure::Table(TableFailure::Missing(1)));
    };
    let table = CheckedTable::read(rt, turn.name, &mut input)?;
    let (header, sections) = table.parted(alloc, turn.name)?;
    let code = code_of(alloc, turn.name, &header, line.host.seed)?;
    if line.host.depth == Depth::Flat && !code.functions.is_empty() {
        return Err(RunFailure::from(StreamRefusal::Thread));
    }
    let job = Job {
        code: &code,
        budget: header.budget,
        seed: line.host.seed,
    };
    let first = FirstTable {
        name: turn.name,
        header: &header,
        sections,
    };
    let others = Others {
        turns: others,
        readers: usize::from(line.workers),
    };
    merge_from(rt, job, first, others, &mut input, output)
}
