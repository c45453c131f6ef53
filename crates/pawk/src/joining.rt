//! The tables of neighbouring shards, joined to one.

ghost use Rattle.std.specs.Prelude.{◌<◌};

use crate::map::refusal_of;
use pawk_command::base64_line::{TableForm, TableWriter};
use pawk_command::checked_table::CheckedTable;
use pawk_command::coming_tables::read_ahead;
use pawk_command::command_line::CommandLine;
use pawk_command::deep::Depth;
use pawk_command::first_table::{code_of, compare};
use pawk_command::host::Host;
use pawk_command::operands::FileTurn;
use pawk_command::reports::{End, RunFailure, UNWRITTEN};
use pawk_command::sequence::Sequence;
use pawk_command::table_failure::TableFailure;
use pawk_map::MapRefusal;
use pawk_par::{Ending, Job, StreamRefusal, Writer};
use pawk_table_join::{JoinOrder, JoinRefusal, JoinStop, Neighbour, join};
use pawk_tables::{Header, ReadHeader, Shard};
use std::alloc::Global;
use std::fs::File;
use std::io::{Read, Write};
use std::rt::Files;
use std::sync::Wait;
use std::thread::Threads;

/// The stop of a join as the failure of a run.
fn failure_of(stop: JoinStop<'_>) -> RunFailure<'_> {
    let name = stop.name;
    match stop.refusal {
        JoinRefusal::Part(MapRefusal::Damage) => RunFailure::Table(TableFailure::Damaged(name)),
        JoinRefusal::Part(refusal) => match refusal_of(refusal) {
            Ok(refusal) => RunFailure::from(refusal),
            Err(failure) => failure,
        },
        JoinRefusal::Before { before, come } => {
            RunFailure::Table(TableFailure::Before { name, before, come })
        }
    }
}

/// Reads and checks some tables at once, and puts them after those that are there.
fn read_some<'a, R, I>(
    rt: &R,
    turns: &[FileTurn<'a, '_>],
    input: &mut I,
    tables: &mut Vec<CheckedTable>,
) -> Result<(), RunFailure<'a>>
where
    R: Files<File = File> + AllocGlobal + Threads + Wait,
    I: Read,
{
    for (turn, table) in turns.iter().zip(read_ahead(rt, turns)?) {
        tables.push(table.take(rt, turn.name, input)?)?;
    }
    Ok(())
}

/// Reads and checks the tables of these names, at most so many at once.
fn read_tables<'a, R, I>(
    rt: &R,
    turns: &[FileTurn<'a, '_>],
    readers: usize,
    input: &mut I,
) -> Result<Vec<CheckedTable>, RunFailure<'a>>
where
    R: Files<File = File> + AllocGlobal + Threads + Wait,
    I: Read,
    requires { 0 < readers }
{
    let mut tables = Vec::new(rt.alloc());
    for turns in turns.chunks(readers) {
        read_some(rt, turns, input, &mut tables)?;
    }
    Ok(tables)
}

/// Tables that follow each other, and of which shards they are.
#[derive(Drop)]
struct Neighbours<'a, 't> {
    tables: Vec<Neighbour<'a, 't>>,
    shard: Option<Shard>,
}

/// The tables of these names as neighbours, of which the first one has this header.
fn neighbours_of<'a, 't>(
    alloc: Global,
    first: &ReadHeader<'_>,
    turns: &[FileTurn<'a, '_>],
    tables: &'t [CheckedTable],
) -> Result<Neighbours<'a, 't>, RunFailure<'a>> {
    let mut neighbours = Vec::new(alloc);
    let mut sequence = Sequence::before(first.shard);
    for (turn, table) in turns.iter().zip(tables.iter()) {
        let (header, sections) = table.parted(alloc, turn.name)?;
        compare(first, turn.name, &header)?;
        sequence = match sequence.with(header.shard) {
            Ok(sequence) => sequence,
            Err(failure) => return Err(RunFailure::Table(failure)),
        };
        neighbours.push(Neighbour {
            name: turn.name,
            before: header.before,
            sections,
        })?;
    }
    let number = match first.shard {
        Some(shard) => shard.first,
        None => 1,
    };
    match sequence.shards_from(number) {
        Ok(shard) => Ok(Neighbours {
            tables: neighbours,
            shard,
        }),
        Err(failure) => Err(RunFailure::Table(failure)),
    }
}

/// Writes the table of neighbours, of which the first one has this header.
fn join_neighbours<'a, R, O>(
    rt: &R,
    job: Job<'_>,
    first: &ReadHeader<'_>,
    neighbours: Neighbours<'a, '_>,
    form: TableForm,
    output: &mut O,
) -> Result<End, RunFailure<'a>>
where
    R: AllocGlobal + Threads + Wait,
    O: Write,
{
    let alloc = rt.alloc();
    let order = JoinOrder {
        job,
        header: Header {
            program: first.program,
            budget: first.budget,
            assignments: first.assignments.as_slice(),
            shard: neighbours.shard,
            before: first.before,
            first: first.first.as_slice(),
        },
    };
    let mut sink = Writer::new(TableWriter::new(output, form));
    if let Err(stop) = join(rt, alloc, order, neighbours.tables.as_slice(), &mut sink) {
        return Err(failure_of(stop));
    }
    match sink.inner.end() {
        Ok(()) => Ok(End::of(alloc, Ending::Status(0))),
        Err(_) => Err(RunFailure::from(UNWRITTEN)),
    }
}

/// Joins tables that were read, of these names.
fn join_read<'a, R, O>(
    rt: &R,
    host: Host,
    turns: &[FileTurn<'a, '_>],
    tables: &[CheckedTable],
    form: TableForm,
    output: &mut O,
) -> Result<End, RunFailure<'a>>
where
    R: AllocGlobal + Threads + Wait,
    O: Write,
{
    let alloc = rt.alloc();
    let (Some(turn), Some(table)) = (turns.first(), tables.first()) else {
        return Err(RunFailure::Table(TableFailure::Missing(1)));
    };
    let (header, _) = table.parted(alloc, turn.name)?;
    let neighbours = neighbours_of(alloc, &header, turns, tables)?;
    let code = code_of(alloc, turn.name, &header, host.seed)?;
    if host.depth == Depth::Flat && !code.functions.is_empty() {
        return Err(RunFailure::from(StreamRefusal::Thread));
    }
    let job = Job {
        code: &code,
        budget: header.budget,
        seed: host.seed,
    };
    join_neighbours(rt, job, &header, neighbours, form, output)
}

/// Joins the tables that the operands name, and writes one table of them all.
pub(crate) fn join_tables<'a, R, I, O>(
    rt: &R,
    line: &'a CommandLine<'a>,
    form: TableForm,
    input: I,
    output: &mut O,
) -> Result<End, RunFailure<'a>>
where
    R: Files<File = File> + AllocGlobal + Threads + Wait,
    I: Read + Drop,
    O: Write,
{
    if !line.operands.assignments().is_empty() {
        return Err(RunFailure::LateAssignment);
    }
    let mut input = input;
    let turns = line.operands.turns(rt.alloc(), &[])?;
    let turns = turns.as_slice();
    let tables = read_tables(rt, turns, usize::from(line.workers), &mut input)?;
    join_read(rt, line.host, turns, tables.as_slice(), form, output)
}
