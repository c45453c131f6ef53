//! Figures of a run.

ghost use Rattle.std.specs.Prelude.{None};

use crate::reports::write_route;
use pawk_par::{Gate, Route};
use std::io;
use std::io::{Read, Write};
use std::rt::Clock;
use std::sync::atomic::AtomicUsize;
use std::sync::atomic::Ordering::SeqCst;
use std::time::{Duration, Instant};

/// Counts the chunks that workers run, and the threads that cannot be started for workers, whose work the run's own thread does.
#[derive(Drop)]
pub struct Tally {
    chunks: AtomicUsize,
    lacking_threads: AtomicUsize,
}

impl Tally {
    /// Nothing yet.
    pub fn new() -> Tally {
        Tally {
            chunks: AtomicUsize::new(0),
            lacking_threads: AtomicUsize::new(0),
        }
    }

    /// How many chunks were begun.
    pub fn chunks(&self) -> usize {
        self.chunks.load(SeqCst)
    }

    /// How many threads could not be started.
    pub fn lacking_threads(&self) -> usize {
        self.lacking_threads.load(SeqCst)
    }
}

impl Gate for Tally {
    fn enter(&self, _chunk: u64) {
        self.chunks.fetch_add(1, SeqCst);
    }

    fn leave(&self, _chunk: u64, _output: Option<&[u8]>) {}

    fn may_lack_thread(&self) -> bool {
        self.lacking_threads.fetch_add(1, SeqCst);
        true
    }
}

/// A moment, where the system has a clock.
#[derive(Clone, Copy)]
pub struct Moment(Option<Instant>);

impl Moment {
    /// This moment.
    pub fn now<C: Clock>(clock: &C) -> Moment {
        Moment(Instant::now(clock).ok())
    }

    /// How long after an earlier moment this one is.
    pub fn since(self, earlier: Moment) -> Duration {
        match (self.0, earlier.0) {
            (Some(end), Some(start)) => end.duration_since(start),
            _ => Duration::ZERO,
        }
    }
}

/// A device that notes how many bytes come and go, and how long that takes.
#[derive(Drop)]
pub struct Timed<'c, C, D> {
    clock: &'c C,
    device: D,
    traffic: Traffic,
}

/// What came and went through a device.
#[derive(Clone, Copy)]
pub struct Traffic {
    pub bytes: u64,
    pub time: Duration,
}

impl Traffic {
    /// Nothing yet.
    pub const NONE: Traffic = Traffic {
        bytes: 0,
        time: Duration::ZERO,
    };

    /// This and other traffic together.
    pub fn and(self, other: Traffic) -> Traffic {
        Traffic {
            bytes: self.bytes.saturating_add(other.bytes),
            time: self.time.saturating_add(other.time),
        }
    }
}

impl<'c, C: Clock, D> Timed<'c, C, D> {
    /// A device through which nothing has come.
    pub fn new(clock: &'c C, device: D) -> Timed<'c, C, D> {
        Timed {
            clock,
            device,
            traffic: Traffic::NONE,
        }
    }

    pub fn device(&self) -> &D {
        &self.device
    }

    pub fn device_mut(&mut self) -> &mut D {
        &mut self.device
    }

    pub fn traffic(&self) -> Traffic {
        self.traffic
    }

    /// Notes a call that began at this moment, and how many bytes it moved.
    fn note(&mut self, start: Moment, count: usize) {
        let time = Moment::now(self.clock).since(start);
        let bytes = count as u64;
        self.traffic = self.traffic.and(Traffic { bytes, time });
    }
}

impl<'c, C: Clock, D: Read> Read for Timed<'c, C, D> {
    ghost remaining = { λ _. None };

    fn read(&mut self, buffer: &mut [u8]) -> io::Result<usize> {
        let start = Moment::now(self.clock);
        let count = self.device.read(buffer)?;
        self.note(start, count);
        Ok(count)
    }
}

impl<'c, C: Clock, D: Write> Write for Timed<'c, C, D> {
    ghost contents = { λ _. None };

    fn write(&mut self, bytes: &[u8]) -> io::Result<usize> {
        let start = Moment::now(self.clock);
        let count = self.device.write(bytes)?;
        self.note(start, count);
        Ok(count)
    }

    fn flush(&mut self) -> io::Result<()> {
        let start = Moment::now(self.clock);
        self.device.flush()?;
        self.note(start, 0);
        Ok(())
    }
}

/// Figures of a run.
#[derive(Clone, Copy)]
pub struct Statistics {
    pub route: Route,
    pub workers: u8,
    /// How many threads could not be started for workers.
    pub lacking_threads: usize,
    /// How many chunks were run by workers.
    pub chunks: usize,
    /// How many records were read.
    pub records: i64,
    /// What was read.
    pub input: Traffic,
    /// How long writing took.
    pub writing: Duration,
    /// How long the run took, with reading and writing.
    pub time: Duration,
}

/// Writes how long a phase took.
fn write_seconds<E: Write>(errors: &mut E, phase: &str, time: Duration) -> io::Result<()> {
    let seconds = time.as_secs();
    let micros = time.subsec_micros();
    writeln!(errors, "statistics {phase}-seconds {seconds}.{micros:06}")
}

impl Statistics {
    /// Writes the figures, a line for each.
    pub fn write<E: Write>(&self, errors: &mut E) -> io::Result<()> {
        errors.write_all(b"statistics route ")?;
        write_route(self.route, errors)?;
        let Statistics {
            workers,
            lacking_threads,
            chunks,
            records,
            input,
            writing,
            time,
            ..
        } = *self;
        writeln!(errors, "statistics workers {workers}")?;
        if lacking_threads > 0 {
            writeln!(errors, "statistics lacking-threads {lacking_threads}")?;
        }
        writeln!(errors, "statistics chunks {chunks}")?;
        writeln!(errors, "statistics records {records}")?;
        writeln!(errors, "statistics bytes {}", input.bytes)?;
        write_seconds(errors, "read", input.time)?;
        let moving = input.time.saturating_add(writing);
        write_seconds(errors, "run", time.saturating_sub(moving))?;
        write_seconds(errors, "write", writing)
    }
}
