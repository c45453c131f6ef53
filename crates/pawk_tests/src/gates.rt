//! Workers that a gate watches, which runs of a program start.

use crate::fixtures::{RunOutcome, SUM, chunks_show, shows};
use pawk_par::{Gate, Route, StreamRefusal};
use pawk_value::Fault;
use std::sync::Wait;
use std::sync::atomic::{AtomicU64, Ordering};
use std::test::Fail;
use std::thread;
use std::thread::Threads;
use std::time::Duration;

/// What another chunk must have done before the one that is held goes on.
#[derive(Clone, Copy)]
pub(crate) enum Until {
    Entered,
    Left,
}

/// What a gate watches: blocks that are counted, or chunks that are run.
#[derive(Clone, Copy, PartialEq)]
enum Watched {
    Blocks,
    Chunks,
}

/// Holds one block or chunk until another has entered or left, for at most 10,000 turns of a millisecond. Keeps a bit for
/// each that entered and that left, counts the calls of enter, and notes of the output of each of the first four chunks its
/// first byte and its length.
#[derive(Drop)]
pub(crate) struct Holding<'a> {
    clock: &'a HostRuntime,
    watched: Watched,
    held: u64,
    awaited: u64,
    until: Until,
    entered: AtomicU64,
    left: AtomicU64,
    enters: AtomicU64,
    gave_up: AtomicU64,
    lent: AtomicU64,
}

impl<'a> Holding<'a> {
    fn of(
        clock: &'a HostRuntime,
        watched: Watched,
        held: u64,
        awaited: u64,
        until: Until,
    ) -> Holding<'a> {
        Holding {
            clock,
            watched,
            held,
            awaited,
            until,
            entered: AtomicU64::new(0),
            left: AtomicU64::new(0),
            enters: AtomicU64::new(0),
            gave_up: AtomicU64::new(0),
            lent: AtomicU64::new(0),
        }
    }

    /// A gate that holds a chunk until another has entered or left.
    pub(crate) fn new(
        clock: &'a HostRuntime,
        held: u64,
        awaited: u64,
        until: Until,
    ) -> Holding<'a> {
        Holding::of(clock, Watched::Chunks, held, awaited, until)
    }

    /// A gate that holds no chunk.
    pub(crate) fn none(clock: &'a HostRuntime) -> Holding<'a> {
        Holding::new(clock, 99, 99, Until::Left)
    }

    /// The first byte and the length of the output of each of the first four chunks, from the lowest 16 bits on.
    pub(crate) fn lent(&self) -> u64 {
        self.lent.load(Ordering::SeqCst)
    }

    fn is_free(&self) -> bool {
        let seen = match self.until {
            Until::Entered => self.entered.load(Ordering::SeqCst),
            Until::Left => self.left.load(Ordering::SeqCst),
        };
        seen & (1 << (self.awaited % 64)) != 0
    }

    /// A block or a chunk enters.
    fn arrive(&self, number: u64) {
        self.enters.fetch_add(1, Ordering::SeqCst);
        self.entered.fetch_or(1 << (number % 64), Ordering::SeqCst);
        if number != self.held {
            return;
        }
        for _ in 0..10_000 {
            if self.is_free() {
                return;
            }
            thread::sleep(self.clock, Duration::from_millis(1));
        }
        self.gave_up.store(1, Ordering::SeqCst);
    }

    /// A block or a chunk leaves.
    fn depart(&self, number: u64) {
        self.left.fetch_or(1 << (number % 64), Ordering::SeqCst);
    }
}

impl Gate for Holding<'_> {
    fn enter_block(&self, block: u64) {
        if self.watched == Watched::Blocks {
            self.arrive(block);
        }
    }

    fn leave_block(&self, block: u64) {
        if self.watched == Watched::Blocks {
            self.depart(block);
        }
    }

    fn enter(&self, chunk: u64) {
        if self.watched == Watched::Chunks {
            self.arrive(chunk);
        }
    }

    fn leave(&self, chunk: u64, output: Option<&[u8]>) {
        if let (Watched::Chunks, Some(output)) = (self.watched, output) {
            self.depart(chunk);
            let first = u64::from(output.first().copied().unwrap_or(0));
            let note = first << 8 | output.len() as u64 & 255;
            self.lent
                .fetch_or(note << (16 * (chunk % 4)), Ordering::SeqCst);
        }
    }
}

/// What a gate saw: whether it gave up, how often a chunk entered, and a bit for each that entered and that left.
pub(crate) fn seen_by(gate: &Holding<'_>) -> (u64, u64, u64, u64) {
    (
        gate.gave_up.load(Ordering::SeqCst),
        gate.enters.load(Ordering::SeqCst),
        gate.entered.load(Ordering::SeqCst),
        gate.left.load(Ordering::SeqCst),
    )
}

/// Whether a run of two workers over two lines, each of which the gate lets in once, gives their sum.
fn sums_at_once<R: AllocGlobal + Threads + Wait>(
    rt: &R,
    gate: &Holding<'_>,
) -> Result<bool, StreamRefusal> {
    let is_shown = shows(rt, SUM, b"1\n2\n", 2, gate, chunks_show(b"3\n"))?;
    Ok(is_shown && seen_by(gate) == (0, 2, 3, 3))
}

// Two workers run at once: each chunk is held until the other has entered.
#[test]
fn two_workers_run_at_once(rt: HostRuntime) -> Result<(), Fail> {
    let zero = Holding::new(&rt, 0, 1, Until::Entered);
    assert!(rt; sums_at_once(&rt, &zero)?, "chunk 0 was held");
    let one = Holding::new(&rt, 1, 0, Until::Entered);
    assert!(rt; sums_at_once(&rt, &one)?, "chunk 1 was held");
    Ok(())
}

/// Whether two workers count the record of a line of two blocks, each of which the gate lets in once.
fn count_at_once<R: AllocGlobal + Threads + Wait>(
    rt: &R,
    line: &[u8],
    gate: &Holding<'_>,
) -> Result<bool, StreamRefusal> {
    let is_shown = shows(rt, b"END { print NR }", line, 2, gate, chunks_show(b"1\n"))?;
    Ok(is_shown && seen_by(gate) == (0, 2, 3, 3))
}

/// Whether two workers count a line of two blocks with each of two gates.
fn count_twice<R: AllocGlobal + Threads + Wait>(
    rt: &R,
    zero: &Holding<'_>,
    one: &Holding<'_>,
) -> Result<(bool, bool), StreamRefusal> {
    let line = vec![in rt.alloc(); b'x'; 131_072]?;
    let is_counted = count_at_once(rt, &line, zero)?;
    Ok((is_counted, count_at_once(rt, &line, one)?))
}

// Two workers count the records of blocks at once: each block is held until the other has entered.
#[test]
fn two_workers_count_at_once(rt: HostRuntime) -> Result<(), Fail> {
    let zero = Holding::of(&rt, Watched::Blocks, 0, 1, Until::Entered);
    let one = Holding::of(&rt, Watched::Blocks, 1, 0, Until::Entered);
    let (with_zero, with_one) = count_twice(&rt, &zero, &one)?;
    assert!(rt; with_zero, "block 0 was held");
    assert!(rt; with_one, "block 1 was held");
    Ok(())
}

/// Lines whose sum ends in a fault at the third.
const FAULTY: &[u8] = b"1\n2\n12.5\n4\n";

/// What the sum of them shows.
const FAULT_AT_THREE: RunOutcome<'static> = RunOutcome {
    output: b"",
    ending: Err((Fault::Numeral, 3)),
    route: Route::Redo,
};

// One worker: the chunk past the fault is skipped without the gate.
#[test]
fn skips_past_a_fault(rt: HostRuntime) -> Result<(), Fail> {
    let gate = Holding::none(&rt);
    let is_shown = shows(&rt, SUM, FAULTY, 1, &gate, FAULT_AT_THREE)?;
    assert!(rt; seen_by(&gate) == (0, 3, 7, 7));
    assert!(rt; is_shown);
    Ok(())
}

// Two workers, of which one has run the chunk past the fault before the chunk of the fault is run: nothing else is shown.
#[test]
fn a_chunk_past_a_fault_is_dropped(rt: HostRuntime) -> Result<(), Fail> {
    let gate = Holding::new(&rt, 2, 3, Until::Left);
    let is_shown = shows(&rt, SUM, FAULTY, 2, &gate, FAULT_AT_THREE)?;
    assert!(rt; seen_by(&gate) == (0, 4, 15, 15));
    assert!(rt; is_shown);
    Ok(())
}
