//! Runs from feeds to a sink that are tried in several sizes.

use crate::fixtures::{code_of, job_of};
use crate::rows::{begins_with, has_bytes};
use crate::taps::{Basin, FREE, Limits, Log, Tap};
use pawk_code::program::Code;
use pawk_feeds::{Feed, Flowed, Order, run_feeds};
use pawk_par::{Ending, Open, Reader, StreamRefusal, Writer};
use pawk_settings::Assignment;
use std::alloc::{AllocError, Global};
use std::sync::Wait;
use std::thread::Threads;

/// How many bytes a window has, and how many workers there are.
#[derive(Clone, Copy)]
pub(super) struct Size {
    pub(super) window: usize,
    pub(super) workers: usize,
}

/// How many sizes are tried.
const SIZES: u64 = 6;

/// A window that is shorter than a record, shorter than the files, or longer, for one worker and for two.
fn size_of(number: u64) -> Size {
    Size {
        window: match number / 2 {
            0 => 1,
            1 => 7,
            _ => 4096,
        },
        workers: if number % 2 == 0 { 1 } else { 2 },
    }
}

/// Two files, of which neither ends where `next` has bytes, and how many bytes a read of them gives at most.
#[derive(Clone, Copy)]
pub(super) struct Files {
    pub(super) first: &'static [u8],
    pub(super) second: &'static [u8],
    pub(super) next: &'static [u8],
    pub(super) step: usize,
}

/// Three records in two files, of which each byte is a read.
const THREE: Files = Files {
    first: b"1\n",
    second: b"2\n3\n",
    next: b"",
    step: 1,
};

/// How many reads it takes to their ends.
const ALL_READS: (u64, u64) = (3, 5);

/// What is tried: a text over two files, or over none, with what it writes, as a cell of a row. So many reads succeed, and the sink
/// has limits. Before the first file `x` may be assigned 1, before the second 2, and after it 3.
#[derive(Clone, Copy)]
pub(super) struct Trial<'t> {
    pub(super) text: &'t str,
    pub(super) output: &'t str,
    pub(super) files: Option<Files>,
    pub(super) assigned: bool,
    pub(super) reads: u64,
    pub(super) limits: Limits,
}

/// A trial over three records.
pub(super) fn trial_of<'t>(text: &'t str, output: &'t str) -> Trial<'t> {
    Trial {
        text,
        output,
        files: Some(THREE),
        assigned: false,
        reads: 1000,
        limits: FREE,
    }
}

/// An assignment to `x`.
fn assignment(alloc: Global, value: u8) -> Result<Assignment, AllocError> {
    let name = Vec::from_slice(alloc, b"x")?;
    let value = Vec::from_slice(alloc, &[value])?;
    Ok(Assignment { name, value })
}

/// Assignments of 1, 2 and 3 to `x`, or none.
fn assignments(alloc: Global, assigned: bool) -> Result<Vec<Assignment>, AllocError> {
    let mut assignments = Vec::new(alloc);
    let values: &[u8] = if assigned { b"123" } else { b"" };
    for value in values {
        assignments.push(assignment(alloc, *value)?)?;
    }
    Ok(assignments)
}

/// The one of these assignments that has this place, alone, where there are any.
fn at(assignments: &[Assignment], place: usize) -> &[Assignment] {
    assignments
        .get(place..place.saturating_add(1))
        .unwrap_or(&[])
}

/// How many reads were made of the first feed, and of the second.
fn reads_of(feeds: &[Feed<'_, Reader<Tap<'_>>>]) -> (u64, u64) {
    match feeds {
        [first, second] => (first.source.inner.reads(), second.source.inner.reads()),
        _ => (0, 0),
    }
}

/// The answer of a run that ended by a status.
pub(super) const ENDED: u64 = 0;

/// The answer of a run that ended otherwise: by a fault.
const FAULT: u64 = 100;

/// The number of an answer: that of the refusal, where there is one.
fn number_of(answer: &Result<Flowed, StreamRefusal>) -> u64 {
    match answer {
        Ok(flowed) => match flowed.ending {
            Ending::Status(_) => ENDED,
            Ending::Fault(..) | Ending::Disallowed => FAULT,
        },
        Err(why) => u64::from(why.number()),
    }
}

/// What a run leaves: the number of its answer, whether its output is a beginning of what the trial says, and whether it is all of
/// it, how many bytes the sink took, how many of them were handed on, how many reads came too early, and how many were made of
/// each feed.
#[derive(Clone, Copy)]
struct Trace {
    answer: u64,
    begins: bool,
    is_whole: bool,
    taken: u64,
    flushed: u64,
    early: u64,
    reads: (u64, u64),
}

/// What is asked of a run of this size, each record a chunk, with 1,000 steps for each.
fn order_of<'o>(code: &'o Code, assigned: &'o [Assignment], size: Size) -> Order<'o> {
    Order {
        job: job_of(code),
        assignments: &[],
        first: at(assigned, 0),
        last: at(assigned, 2),
        chunk: 1,
        workers: size.workers,
        window: size.window,
    }
}

/// What a run leaves that is asked for so, from feeds to a sink. None where no window or no such crew is asked for.
fn trace_of_feeds<R: AllocGlobal + Threads + Wait>(
    rt: &R,
    trial: Trial<'_>,
    order: Order<'_>,
    feeds: &mut [Feed<'_, Reader<Tap<'_>>>],
    log: &Log,
) -> Option<Trace> {
    if order.window == 0 || order.workers == 0 || order.workers > 64 {
        return None;
    }
    let alloc = rt.alloc();
    let mut sink = Writer::new(Basin::new(alloc, trial.limits, log));
    let answer = number_of(&run_feeds(rt, alloc, order, feeds, &mut sink, &Open));
    let taken = sink.inner.taken();
    Some(Trace {
        answer,
        begins: begins_with(trial.output, taken),
        is_whole: has_bytes(trial.output, taken),
        taken: taken.len() as u64,
        flushed: log.flushed(),
        early: log.early(),
        reads: reads_of(feeds),
    })
}

/// A feed of a file of which no byte is read yet.
fn feed<'a>(
    name: Vec<u8>,
    before: &'a [Assignment],
    bytes: &'a [u8],
    files: Files,
    log: &'a Log,
) -> Feed<'a, Reader<Tap<'a>>> {
    Feed {
        before,
        name,
        source: Reader::new(Tap::new(bytes, files.next, files.step, log)),
    }
}

/// What a run over two files leaves, where these assignments come between them.
fn trace_of_files<R: AllocGlobal + Threads + Wait>(
    rt: &R,
    trial: Trial<'_>,
    order: Order<'_>,
    files: Files,
    between: &[Assignment],
    log: &Log,
) -> Option<Trace> {
    let first = Vec::from_slice(rt.alloc(), b"f").ok()?;
    let second = Vec::from_slice(rt.alloc(), b"g").ok()?;
    let mut feeds = [
        feed(first, &[], files.first, files, log),
        feed(second, between, files.second, files, log),
    ];
    trace_of_feeds(rt, trial, order, &mut feeds, log)
}

/// What a run of a program leaves.
fn trace_of_code<R: AllocGlobal + Threads + Wait>(
    rt: &R,
    trial: Trial<'_>,
    size: Size,
    code: &Code,
) -> Option<Trace> {
    let assigned = assignments(rt.alloc(), trial.assigned).ok()?;
    let order = order_of(code, &assigned, size);
    let log = Log::new(trial.reads);
    match trial.files {
        Some(files) => trace_of_files(rt, trial, order, files, at(&assigned, 1), &log),
        None => trace_of_feeds(rt, trial, order, &mut [], &log),
    }
}

/// What a run of this size leaves. None where memory was refused, or the program.
fn trace_of<R: AllocGlobal + Threads + Wait>(
    rt: &R,
    trial: Trial<'_>,
    size: Size,
) -> Option<Trace> {
    let code = code_of(rt.alloc(), trial.text.as_bytes()).ok()?;
    trace_of_code(rt, trial, size, &code)
}

/// What a run must leave.
#[derive(Clone, Copy)]
pub(super) enum Wanted {
    /// This answer, and the output, of which all was handed on.
    Shown(u64),
    /// The answer of a write that failed after so many bytes, which are the output.
    Taken(u64),
    /// The answer of a flush that failed: a beginning of the output, and not all bytes of the files were read.
    Unflushed,
    /// A status, and the output, of which all was handed on, what was written of the lines that were given before the next
    /// read; and so many reads of each file, where they are said.
    InTurn(Option<(u64, u64)>),
    /// This answer, the output, and so many reads of each file.
    Read(u64, (u64, u64)),
}

/// Whether a run had this answer, and the sink took the output and nothing else.
fn leaves(trace: Trace, answer: u64) -> bool {
    trace.answer == answer && trace.is_whole
}

/// Whether all that the sink took was handed on.
fn is_flushed(trace: Trace) -> bool {
    trace.flushed == trace.taken
}

/// The answer of a run whose writing failed.
const UNWRITTEN: u64 = 7;

/// Whether a run left what it must.
fn is_wanted(trace: Trace, wanted: Wanted) -> bool {
    match wanted {
        Wanted::Shown(answer) => leaves(trace, answer) && is_flushed(trace),
        Wanted::Taken(bytes) => leaves(trace, UNWRITTEN) && trace.taken == bytes,
        Wanted::Unflushed => {
            trace.answer == UNWRITTEN && trace.begins && trace.reads != ALL_READS
        }
        Wanted::InTurn(reads) => {
            leaves(trace, ENDED)
                && is_flushed(trace)
                && trace.early == 0
                && trace.reads == reads.unwrap_or(trace.reads)
        }
        Wanted::Read(answer, reads) => leaves(trace, answer) && trace.reads == reads,
    }
}

/// Whether a run of this size leaves what it must.
pub(super) fn is_right<R: AllocGlobal + Threads + Wait>(
    rt: &R,
    trial: Trial<'_>,
    size: Size,
    wanted: Wanted,
) -> bool {
    match trace_of(rt, trial, size) {
        Some(trace) => is_wanted(trace, wanted),
        None => false,
    }
}

/// Whether runs of each size leave what they must.
pub(super) fn are_right<R: AllocGlobal + Threads + Wait>(
    rt: &R,
    trial: Trial<'_>,
    wanted: Wanted,
) -> bool {
    for number in 0..SIZES {
        if !is_right(rt, trial, size_of(number), wanted) {
            return false;
        }
    }
    true
}
