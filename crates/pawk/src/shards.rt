//! Where a file may be cut in shards.

ghost use Rattle.std.specs.Prelude.{◌<◌};

use crate::feeds::{failure_of, limit_of, open_feeds};
use pawk_command::command_line::CommandLine;
use pawk_command::reports::{End, RunFailure, UNWRITTEN};
use pawk_par::{Ending, Source, StreamRefusal};
use pawk_records::Separator;
use pawk_window::{FillError, Window};
use std::alloc::{AllocError, Global};
use std::fs::File;
use std::io::{Read, Write};
use std::rt::{Clock, Files};
use std::sync::Wait;
use std::thread::Threads;

/// The greatest size of the window in which a file is looked at.
const GREATEST_WINDOW: u64 = 1_048_576;

/// How many windows there are for a shard at least, where that gives them some size.
const WINDOWS_FOR_SHARD: u64 = 64;

/// A file of this size that is to be cut.
#[derive(Clone, Copy)]
struct Cut {
    size: u64,
    /// How many shards there are to be.
    count: u64,
}

impl Cut {
    /// Where the first so many shards end at least, in bytes.
    fn target(self, shards: u64) -> u64 {
        let product = u128::from(self.size).saturating_mul(u128::from(shards));
        (product / u128::from(self.count.max(1))).min(u128::from(u64::MAX)) as u64
    }

    /// The size of the window in which the file is looked at.
    fn window(self) -> usize
        ensures { 0 < result }
    {
        let share = self.size / self.count.saturating_mul(WINDOWS_FOR_SHARD).max(1);
        share.clamp(4_096, GREATEST_WINDOW) as usize
    }
}

/// The ends of all shards but the last, as far as records end here, after those that are known.
fn add_ends(ends: &mut Vec<u64>, cut: Cut, end: u64) -> Result<(), AllocError> {
    for _ in 0..cut.count {
        let shards = (ends.len() as u64).saturating_add(1);
        if shards >= cut.count || end < cut.target(shards) {
            break;
        }
        ends.push(end)?;
    }
    Ok(())
}

/// Ends the shards that have no end yet here, where the file ends.
fn end_all(ends: &mut Vec<u64>, cut: Cut, end: u64) -> Result<(), AllocError> {
    for _ in ends.len() as u64..cut.count {
        ends.push(end)?;
    }
    Ok(())
}

/// The ends of all shards of what a source gives, in bytes.
fn ends_of<S: Source>(
    alloc: Global,
    source: &mut S,
    separator: Separator,
    cut: Cut,
) -> Result<Vec<u64>, StreamRefusal> {
    let mut window = Window::new(alloc, separator, cut.window());
    let mut ends = Vec::new(alloc);
    let mut end: u64 = 0;
    for _ in 0..u64::MAX {
        match window.fill_records(source) {
            Ok(()) => {}
            Err(FillError::Memory) => return Err(StreamRefusal::Memory),
            Err(FillError::Failed) => return Err(StreamRefusal::Read),
        }
        end = end.saturating_add(window.records().len() as u64);
        if window.is_ended() {
            break;
        }
        add_ends(&mut ends, cut, end)?;
    }
    end_all(&mut ends, cut, end)?;
    Ok(ends)
}

/// Writes where shards begin and how long they are that end here, a line for each.
fn write_shards<O: Write>(ends: &[u64], output: &mut O) -> Result<(), StreamRefusal> {
    let mut begin: u64 = 0;
    for end in ends {
        let length = end.saturating_sub(begin);
        if writeln!(output, "{begin} {length}").is_err() {
            return Err(UNWRITTEN);
        }
        begin = *end;
    }
    Ok(())
}

/// What ends records where `RS` has these bytes, of which the first counts.
pub(crate) fn separator_by(rs: &[u8]) -> Separator {
    match rs {
        [] => Separator::Paragraph,
        [byte, ..] => Separator::Byte(*byte),
    }
}

/// The separator of records that `-v` gives, else the newline.
fn separator_of(line: &CommandLine<'_>) -> Separator {
    let mut separator = Separator::Byte(b'\n');
    for text in &line.assignments {
        if let Some(value) = text.strip_prefix("RS=") {
            separator = separator_by(value.as_bytes());
        }
    }
    separator
}

/// Writes where the file that the operands name may be cut in so many shards.
pub(crate) fn cut_file<'a, R, I, O>(
    rt: &'a R,
    line: &'a CommandLine<'a>,
    count: u64,
    input: I,
    output: &mut O,
) -> Result<End, RunFailure<'a>>
where
    R: Files<File = File> + AllocGlobal + Threads + Wait + Clock + Copy + Send + Drop + 'static,
    I: Read + Copy + Send + Drop + 'static,
    O: Write,
{
    let alloc = rt.alloc();
    let turns = line.operands.turns(alloc, &[])?;
    let mut feeds = open_feeds(rt, turns.as_slice(), input, usize::from(line.workers))?;
    let feeds = feeds.as_mut_slice();
    let cut = Cut {
        size: limit_of(feeds),
        count,
    };
    let separator = separator_of(line);
    for feed in feeds.iter_mut() {
        match ends_of(alloc, &mut feed.source, separator, cut) {
            Ok(ends) => write_shards(ends.as_slice(), output)?,
            Err(refusal) => return Err(failure_of(feeds, refusal)),
        }
    }
    Ok(End::of(alloc, Ending::Status(0)))
}
