//! Devices that share a log: sources that give a step at a time, and a sink that takes a byte a write.

use std::alloc::Global;
use std::io;
use std::io::{ErrorKind, Read, Write};
use std::sync::atomic::{AtomicU64, Ordering};

/// What the devices of a run share: how many reads are left before one fails, how many bytes were given and how many of those
/// that were taken were handed on, and how many reads came before the lines of two bytes that were given had been handed on.
#[derive(Drop)]
pub(crate) struct Log {
    reads_left: AtomicU64,
    given: AtomicU64,
    flushed: AtomicU64,
    early: AtomicU64,
}

impl Log {
    /// Of devices of which this many reads succeed.
    pub(crate) fn new(reads: u64) -> Log {
        Log {
            reads_left: AtomicU64::new(reads),
            given: AtomicU64::new(0),
            flushed: AtomicU64::new(0),
            early: AtomicU64::new(0),
        }
    }

    /// Notes a read that begins. Whether it fails.
    fn begin_read(&self) -> bool {
        let lines = self.given.load(Ordering::SeqCst) & !1;
        if self.flushed() < lines {
            self.early.fetch_add(1, Ordering::SeqCst);
        }
        let left = self.reads_left.load(Ordering::SeqCst);
        self.reads_left
            .store(left.saturating_sub(1), Ordering::SeqCst);
        left == 0
    }

    /// How many bytes were handed on.
    pub(crate) fn flushed(&self) -> u64 {
        self.flushed.load(Ordering::SeqCst)
    }

    /// How many reads came too early.
    pub(crate) fn early(&self) -> u64 {
        self.early.load(Ordering::SeqCst)
    }
}

/// Gives at most `step` bytes a read, after an interruption by a signal, and counts the reads. After `rest` comes `next`, again
/// and again.
#[derive(Drop)]
pub(crate) struct Tap<'a> {
    rest: &'a [u8],
    next: &'a [u8],
    step: usize,
    reads: u64,
    is_interrupted: bool,
    log: &'a Log,
}

impl<'a> Tap<'a> {
    /// Of a file that is not read yet.
    pub(crate) fn new(bytes: &'a [u8], next: &'a [u8], step: usize, log: &'a Log) -> Tap<'a> {
        Tap {
            rest: bytes,
            next,
            step,
            reads: 0,
            is_interrupted: false,
            log,
        }
    }

    /// How many reads were made that no signal interrupted.
    pub(crate) fn reads(&self) -> u64 {
        self.reads
    }
}

impl Read for Tap<'_> {
    fn read(&mut self, buffer: &mut [u8]) -> io::Result<usize> {
        self.is_interrupted = !self.is_interrupted;
        if self.is_interrupted {
            return Err(io::Error::from(ErrorKind::Interrupted));
        }
        self.reads = self.reads.saturating_add(1);
        if self.log.begin_read() {
            return Err(io::Error::other("the device failed"));
        }
        if self.rest.is_empty() {
            self.rest = self.next;
        }
        let count = self.step.min(self.rest.len()).min(buffer.len());
        let (given, rest) = self.rest.split_at(count);
        let (front, _) = buffer.split_at_mut(count);
        front.copy_from_slice(given);
        self.rest = rest;
        self.log.given.fetch_add(count as u64, Ordering::SeqCst);
        Ok(count)
    }
}

/// How many writes and flushes succeed, and whether the next write then fails, or takes nothing.
#[derive(Clone, Copy)]
pub(crate) struct Limits {
    pub(crate) writes: u64,
    pub(crate) flushes: u64,
    pub(crate) fails: bool,
}

/// More than are made.
pub(crate) const FREE: Limits = Limits {
    writes: 1000,
    flushes: 1000,
    fails: true,
};

/// Takes one byte a write, up to its limits.
#[derive(Drop)]
pub(crate) struct Basin<'a> {
    taken: Vec<u8>,
    limits: Limits,
    log: &'a Log,
}

impl<'a> Basin<'a> {
    /// A sink that has taken nothing.
    pub(crate) fn new(alloc: Global, limits: Limits, log: &'a Log) -> Basin<'a> {
        Basin {
            taken: Vec::new(alloc),
            limits,
            log,
        }
    }

    /// The bytes that it took.
    pub(crate) fn taken(&self) -> &[u8] {
        self.taken.as_slice()
    }
}

impl Write for Basin<'_> {
    fn write(&mut self, bytes: &[u8]) -> io::Result<usize> {
        let Some(byte) = bytes.first() else {
            return Ok(0);
        };
        if self.limits.writes > 0 {
            self.limits.writes -= 1;
            self.taken.push(*byte)?;
            Ok(1)
        } else if self.limits.fails {
            Err(io::Error::from(ErrorKind::StorageFull))
        } else {
            Ok(0)
        }
    }

    fn flush(&mut self) -> io::Result<()> {
        if self.limits.flushes == 0 {
            return Err(io::Error::other("the device failed"));
        }
        self.limits.flushes -= 1;
        let taken = self.taken.len() as u64;
        self.log.flushed.store(taken, Ordering::SeqCst);
        Ok(())
    }
}
