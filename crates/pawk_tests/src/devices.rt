//! Runs from a reader to a writer, of which one fails in mid-stream.

use crate::rows::{first_cell, first_number, has_bytes};
use crate::taps::{Basin, FREE, Limits, Log, Tap};
use pawk_par::{
    Cutting, Ending, Open, Reader, Report, Request, Seed, StreamRefusal, Writer, run_streams,
};
use std::sync::Wait;
use std::thread::Threads;

/// The number of a refusal, and that of the program's or the setting's own cause, or how many bytes were written.
fn numbers_of(refusal: StreamRefusal) -> (u64, u64) {
    let detail = match refusal {
        StreamRefusal::Program(why) => u64::from(why.number()),
        StreamRefusal::Settings(why) => u64::from(why.number()),
        StreamRefusal::Write(bytes) => bytes,
        _ => 0,
    };
    (u64::from(refusal.number()), detail)
}

/// Why a run was refused, by numbers: 0 and 0 where it ended with status 0.
fn cause_of(answer: &Result<(Ending, Report), StreamRefusal>) -> (u64, u64) {
    match answer {
        Ok((Ending::Status(0), _)) => (0, 0),
        Ok(_) => (100, 0),
        Err(refusal) => numbers_of(*refusal),
    }
}

/// What is tried: a text with a budget, devices of which this many reads succeed, and a writer with limits; and what that must
/// leave: why it is refused, and what the writer took, as a cell of a row.
#[derive(Clone, Copy)]
struct Trial<'t> {
    text: &'t str,
    budget: u64,
    reads: u64,
    limits: Limits,
    cause: (u64, u64),
    output: &'t str,
}

/// Whether a trial over the lines 1, 2 and 3, each of which is a chunk, leaves what it must.
fn is_right<R: AllocGlobal + Threads + Wait>(rt: &R, trial: Trial<'_>) -> bool {
    let alloc = rt.alloc();
    let cutting = Cutting::Size(1);
    let request = Request {
        text: trial.text.as_bytes(),
        assigns: &[],
        budget: trial.budget,
        cutting: &cutting,
        workers: 2,
        seed: Seed::new(0),
    };
    let log = Log::new(trial.reads);
    let mut source = Reader::new(Tap::new(b"1\n2\n3\n", b"", 1, &log));
    let mut sink = Writer::new(Basin::new(alloc, trial.limits, &log));
    let answer = run_streams(rt, alloc, &request, &mut source, &mut sink, &Open);
    cause_of(&answer) == trial.cause && has_bytes(trial.output, sink.inner.taken())
}

/// How many reads succeed, the budget, why the run is refused, what is written, and the program.
///
/// The seventh read finds the end. Where each read would fail, nothing is read for a program that is refused, a budget that
/// is none, and a program without a main rule and END.
const READS: &str = "\
100 1 0 0 =6/ { n += $1 } END { print n }
7 1 0 0 =6/ { n += $1 } END { print n }
6 1 6 0 = { n += $1 } END { print n }
2 1 6 0 = { n += $1 } END { print n }
0 1 6 0 = { n += $1 } END { print n }
0 1 4 1 = { @ }
0 1 4 5 = { n += $1; n[1] = 2 }
0 1 4 3 = { getline }
0 0 5 4 = { n += $1 } END { print n }
0 1000000000001 5 4 = { n += $1 } END { print n }
0 1 0 0 =6/ BEGIN { print 6 }
";

/// Whether a row of reads is right.
fn is_read_so<R: AllocGlobal + Threads + Wait>(rt: &R, row: &str) -> bool {
    let (reads, row) = first_number(row);
    let (budget, row) = first_number(row);
    let (refusal, row) = first_number(row);
    let (detail, row) = first_number(row);
    let (output, text) = first_cell(row);
    let trial = Trial {
        text,
        budget,
        reads,
        limits: FREE,
        cause: (refusal, detail),
        output,
    };
    is_right(rt, trial)
}

#[test]
fn a_read_fails(rt: HostRuntime) {
    for row in READS.lines() {
        assert!(rt; is_read_so(&rt, row), "{row}");
    }
}

/// How many bytes are taken, whether the next write then fails (1) or takes nothing (0), why the run is refused, what is written,
/// and the program.
///
/// The count of the bytes that went out goes over the outputs of all chunks, here a line each, and of BEGIN and END.
const WRITES: &str = "\
2 1 0 0 =6/ { n += $1 } END { print n }
1 1 7 1 =6 { n += $1 } END { print n }
1 0 7 1 =6 { n += $1 } END { print n }
0 1 7 0 = { n += $1 } END { print n }
10 1 0 0 =0/1/2/3/4/ BEGIN { print 0 } { print $1 } END { print 4 }
9 1 7 9 =0/1/2/3/4 BEGIN { print 0 } { print $1 } END { print 4 }
5 1 7 5 =0/1/2 BEGIN { print 0 } { print $1 } END { print 4 }
2 1 7 2 =0/ BEGIN { print 0 } { print $1 } END { print 4 }
";

/// Whether a row of writes is right.
fn is_written_so<R: AllocGlobal + Threads + Wait>(rt: &R, row: &str) -> bool {
    let (writes, row) = first_number(row);
    let (fails, row) = first_number(row);
    let (refusal, row) = first_number(row);
    let (detail, row) = first_number(row);
    let (output, text) = first_cell(row);
    let limits = Limits {
        writes,
        flushes: 1000,
        fails: fails == 1,
    };
    let trial = Trial {
        text,
        budget: 1,
        reads: 1000,
        limits,
        cause: (refusal, detail),
        output,
    };
    is_right(rt, trial)
}

#[test]
fn a_write_fails(rt: HostRuntime) {
    for row in WRITES.lines() {
        assert!(rt; is_written_so(&rt, row), "{row}");
    }
}
