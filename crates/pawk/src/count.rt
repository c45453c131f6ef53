//! How many records files have.

ghost use Rattle.std.specs.Prelude.{◌<◌};

use crate::feeds::{FeedSource, failure_of, limit_of};
use crate::shards::separator_by;
use pawk_command::command_line::CommandLine;
use pawk_command::reports::{End, RunFailure, UNWRITTEN};
use pawk_feeds::Feed;
use pawk_flow::{Begun, begin_flow};
use pawk_par::{Ending, Job, Place, Source, StreamRefusal};
use pawk_records::Separator;
use pawk_settings::Assignment;
use pawk_window::{FillError, Window};
use std::alloc::Global;
use std::fs::File;
use std::io::{Read, Write};
use std::rt::{Clock, Files};
use std::sync::Wait;
use std::thread::Threads;

/// How the run begins whose records are counted.
#[derive(Clone, Copy)]
pub(crate) struct Beginning<'p> {
    pub(crate) job: Job<'p>,
    /// What options assign.
    pub(crate) options: &'p [Assignment],
    /// What operands assign before the first file.
    pub(crate) first: &'p [Assignment],
}

/// How many records a source has. The window has nothing of another one.
fn count_source<S: Source>(
    window: &mut Window,
    source: &mut S,
    separator: Separator,
) -> Result<u64, StreamRefusal> {
    let mut count: u64 = 0;
    for _ in 0..u64::MAX {
        match window.fill_records(source) {
            Ok(()) => {}
            Err(FillError::Memory) => return Err(StreamRefusal::Memory),
            Err(FillError::Failed) => return Err(StreamRefusal::Read),
        }
        let records = separator.count_records(window.records()) as u64;
        count = count.checked_add(records).ok_or(StreamRefusal::Input)?;
        if window.is_ended() {
            break;
        }
    }
    Ok(count)
}

/// How many records these feeds have, each by itself, which are read in windows of this size.
fn count_feeds<S: Source>(
    alloc: Global,
    feeds: &mut [Feed<'_, S>],
    separator: Separator,
    size: usize,
) -> Result<u64, StreamRefusal>
    requires { 0 < size }
{
    let mut window = Window::new(alloc, separator, size);
    let mut count: u64 = 0;
    for feed in feeds.iter_mut() {
        window.clear();
        let records = count_source(&mut window, &mut feed.source, separator)?;
        count = count.checked_add(records).ok_or(StreamRefusal::Input)?;
    }
    Ok(count)
}

/// Writes a number on a line.
fn write_count<'a, O: Write>(
    alloc: Global,
    count: u64,
    output: &mut O,
) -> Result<End, RunFailure<'a>> {
    match writeln!(output, "{count}") {
        Ok(()) => Ok(End::of(alloc, Ending::Status(0))),
        Err(_) => Err(RunFailure::from(UNWRITTEN)),
    }
}

/// Writes how many records these feeds have, by the `RS` that is taken after BEGIN and the first assignments; 0 where none is
/// read. A fault that comes before the first record is how this ends, too. What BEGIN writes is left out.
pub(crate) fn count_records<'d, R, I, O>(
    alloc: Global,
    line: &CommandLine<'_>,
    beginning: Beginning<'_>,
    feeds: &mut [Feed<'_, FeedSource<'d, R, I>>],
    output: &mut O,
) -> Result<End, RunFailure<'d>>
where
    R: Files<File = File> + AllocGlobal + Threads + Wait + Clock + Copy + Send + Drop + 'static,
    I: Read + Copy + Send + Drop + 'static,
    O: Write,
{
    let Beginning {
        job,
        options,
        first,
    } = beginning;
    let start = match begin_flow(alloc, job, options, first) {
        Ok(Begun::Flows(start)) => start,
        Ok(Begun::Ended(outcome, _)) => {
            return match outcome.ending {
                Ending::Status(_) | Ending::Fault(_, Place::End) => write_count(alloc, 0, output),
                ending => Ok(End::of(alloc, ending)),
            };
        }
        Err(_) => return Err(RunFailure::from(StreamRefusal::Memory)),
    };
    let separator = separator_by(start.rs.as_slice());
    let size = line.window_for(limit_of(feeds));
    match count_feeds(alloc, feeds, separator, size) {
        Ok(count) => write_count(alloc, count, output),
        Err(refusal) => Err(failure_of(feeds, refusal)),
    }
}
