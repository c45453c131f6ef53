//! Runs over shards, whose tables are written.

use crate::feeds::{failure_of, limit_of, open_feeds};
use pawk_command::base64_line::TableWriter;
use pawk_command::command_line::{CommandLine, ShardPlace};
use pawk_command::reports::{End, RunFailure, UNWRITTEN};
use pawk_command::statistics::Tally;
use pawk_map::{MapOrder, MapRefusal, map_feeds};
use pawk_par::{Ending, Job, StreamRefusal, Writer};
use pawk_settings::Assignment;
use std::fs::File;
use std::io::{Read, Write};
use std::rt::{Clock, Files};
use std::sync::Wait;
use std::thread::Threads;

/// A shard that is to be run.
#[derive(Clone, Copy)]
pub(crate) struct ShardRun<'p> {
    pub(crate) job: Job<'p>,
    /// The text of the program that the table has.
    pub(crate) program: &'p [u8],
    /// What options assign.
    pub(crate) options: &'p [Assignment],
    /// What operands assign.
    pub(crate) operands: &'p [Assignment],
    /// Where the shard lies, and how its table is written.
    pub(crate) place: ShardPlace,
}

/// The refusal of a run over a shard as one of a run.
pub(crate) fn refusal_of(refusal: MapRefusal) -> Result<StreamRefusal, RunFailure<'static>> {
    match refusal {
        MapRefusal::Memory | MapRefusal::Damage => Ok(StreamRefusal::Memory),
        MapRefusal::Thread => Ok(StreamRefusal::Thread),
        MapRefusal::Read => Ok(StreamRefusal::Read),
        MapRefusal::Write => Ok(UNWRITTEN),
        MapRefusal::Input => Ok(StreamRefusal::Input),
        MapRefusal::NotAdmitted(reason) => Err(RunFailure::NotAdmitted(reason)),
    }
}

/// Runs a shard over the files that are named, or over standard input, and writes its table.
pub(crate) fn run_shard<'a, R, I, O>(
    rt: &'a R,
    line: &'a CommandLine<'a>,
    run: ShardRun<'_>,
    input: I,
    output: &mut O,
) -> Result<End, RunFailure<'a>>
where
    R: Files<File = File> + AllocGlobal + Threads + Wait + Clock + Copy + Send + Drop + 'static,
    I: Read + Copy + Send + Drop + 'static,
    O: Write,
{
    let alloc = rt.alloc();
    let first = line.operands.first(run.operands);
    if first.len() < run.operands.len() {
        return Err(RunFailure::LateAssignment);
    }
    let turns = if run.job.reads_records() {
        line.operands.turns(alloc, run.operands)?
    } else {
        Vec::new(alloc)
    };
    let mut feeds = open_feeds(rt, turns.as_slice(), input, usize::from(line.workers))?;
    let feeds = feeds.as_mut_slice();
    let window = line.window_for(limit_of(feeds));
    let order = MapOrder {
        job: run.job,
        program: run.program,
        assignments: run.options,
        first,
        shard: run.place.shard,
        before: run.place.before,
        chunk: line.chunk_for(window),
        workers: usize::from(line.workers),
        window,
    };
    let gate = Tally::new();
    let mut sink = Writer::new(TableWriter::new(output, run.place.form));
    match map_feeds(rt, alloc, order, feeds, &mut sink, &gate) {
        Ok(_) => match sink.inner.end() {
            Ok(()) => Ok(End::of(alloc, Ending::Status(0))),
            Err(_) => Err(RunFailure::from(UNWRITTEN)),
        },
        Err(refusal) => match refusal_of(refusal) {
            Ok(refusal) => Err(failure_of(feeds, refusal)),
            Err(failure) => Err(failure),
        },
    }
}
