//! Devices that bytes come from and go to.

ghost use Rattle.std.specs.Prelude.{◌≡◌, ◌≤◌, ◌<◌, ℕ, List, Option, length, IfOk};
ghost use Rattle.std.specs.Io.{ReadsAtMost, WritesAtMost};
ghost use Rattle.std.specs.Io.KnownBytes.{Keeps, ReadConsumes, WriteAppends};
ghost use Rattle.pawk_device.specs.Device.{CountsFailure, CountsRead, CountsWrite};

use crate::count::Count;
use std::io;
use std::io::{ErrorKind, Read, Write};
use thiserror::Error;

/// A read or a write failed.
#[derive(Clone, Copy, Debug, Drop, Error)]
#[error("a read or a write failed")]
pub struct Failed;

/// A device that bytes come from.
pub trait Source {
    // The bytes that are left, where the device reports them.
    ghost left: { Self → Option (List ℕ) };

    // How often a read failed.
    ghost failures: { Self → ℕ };

    /// Reads the next bytes into the buffer and gives their count: 0 at the end, or for an empty buffer.
    fn read(&mut self, buffer: &mut [u8]) -> Result<usize, Failed>
        ensures bound { IfOk result (λ n. n ≤ length buffer.new) }
        ensures bytes { ReadConsumes (left self.old) (left self.new) result buffer.new }
        ensures counted { CountsRead (failures self.old) (failures self.new) result };
}

/// A device that bytes go to.
pub trait Sink {
    // The bytes that were taken, where the device reports them.
    ghost taken: { Self → Option (List ℕ) };

    // How often a write or a flush failed: a write that takes nothing of some bytes is a failure.
    ghost failures: { Self → ℕ };

    /// Takes some of the bytes, from the first on, and gives their count.
    fn write(&mut self, bytes: &[u8]) -> Result<usize, Failed>
        ensures bound { IfOk result (λ n. n ≤ length bytes.now) }
        ensures bytes { WriteAppends (taken self.old) (taken self.new) result bytes.now }
        ensures counted { CountsWrite (failures self.old) (failures self.new) bytes.now result };

    /// Hands on what it holds back of the bytes that were taken. Takes no byte.
    fn flush(&mut self) -> Result<(), Failed>
        ensures bytes { Keeps (taken self.old) (taken self.new) }
        ensures counted { CountsFailure (failures self.old) (failures self.new) result };
}

/// A source over any reader. Each error is a failure, but that a call that a signal interrupted is made again.
#[derive(Drop)]
pub struct Reader<R> {
    /// The reader.
    pub inner: R,
    failures: Count,
}

impl<R> Reader<R> {
    /// The source of what this reader gives.
    pub fn new(inner: R) -> Reader<R>
        ensures { result.inner ≡ inner }
    {
        Reader {
            inner,
            failures: Count::new(),
        }
    }
}

/// Reads, and again where a signal interrupted the call.
fn read_on<R: Read>(reader: &mut R, buffer: &mut [u8]) -> io::Result<usize>
    ensures bound { ReadsAtMost result buffer.new }
    ensures bytes { ReadConsumes (R.remaining reader.old) (R.remaining reader.new) result buffer.new }
{
    for _ in 0..u64::MAX {
        match reader.read(buffer) {
            Ok(count) => return Ok(count),
            Err(error) => {
                if error.kind() != ErrorKind::Interrupted {
                    return Err(error);
                }
            }
        }
    }
    Err(io::Error::from(ErrorKind::Interrupted))
}

impl<R: Read> Source for Reader<R> {
    ghost left = { λ r. R.remaining r.inner };

    ghost failures = { λ r. r.failures.times };

    fn read(&mut self, buffer: &mut [u8]) -> Result<usize, Failed> {
        match read_on(&mut self.inner, buffer) {
            Ok(count) => Ok(count),
            Err(_) => {
                self.failures = Count::one_more(&self.failures);
                Err(Failed)
            }
        }
    }
}

/// A sink over any writer. Each error is a failure, but that a call that a signal interrupted is made again, and so is a
/// write that takes nothing.
#[derive(Drop)]
pub struct Writer<W> {
    /// The writer.
    pub inner: W,
    failures: Count,
}

impl<W> Writer<W> {
    /// The sink that hands on to this writer.
    pub fn new(inner: W) -> Writer<W>
        ensures { result.inner ≡ inner }
    {
        Writer {
            inner,
            failures: Count::new(),
        }
    }
}

/// Writes, and again where a signal interrupted the call.
fn write_on<W: Write>(writer: &mut W, bytes: &[u8]) -> io::Result<usize>
    ensures bound { WritesAtMost result bytes.now }
    ensures bytes { WriteAppends (W.contents writer.old) (W.contents writer.new) result bytes.now }
{
    for _ in 0..u64::MAX {
        match writer.write(bytes) {
            Ok(count) => return Ok(count),
            Err(error) => {
                if error.kind() != ErrorKind::Interrupted {
                    return Err(error);
                }
            }
        }
    }
    Err(io::Error::from(ErrorKind::Interrupted))
}

/// Flushes, and again where a signal interrupted the call.
fn flush_on<W: Write>(writer: &mut W) -> io::Result<()>
    ensures { Keeps (W.contents writer.old) (W.contents writer.new) }
{
    for _ in 0..u64::MAX {
        match writer.flush() {
            Ok(()) => return Ok(()),
            Err(error) => {
                if error.kind() != ErrorKind::Interrupted {
                    return Err(error);
                }
            }
        }
    }
    Err(io::Error::from(ErrorKind::Interrupted))
}

impl<W: Write> Sink for Writer<W> {
    ghost taken = { λ w. W.contents w.inner };

    ghost failures = { λ w. w.failures.times };

    fn write(&mut self, bytes: &[u8]) -> Result<usize, Failed> {
        match write_on(&mut self.inner, bytes) {
            Ok(0) if !bytes.is_empty() => {
                self.failures = Count::one_more(&self.failures);
                Ok(0)
            }
            Ok(count) => Ok(count),
            Err(_) => {
                self.failures = Count::one_more(&self.failures);
                Err(Failed)
            }
        }
    }

    fn flush(&mut self) -> Result<(), Failed> {
        match flush_on(&mut self.inner) {
            Ok(()) => Ok(()),
            Err(_) => {
                self.failures = Count::one_more(&self.failures);
                Err(Failed)
            }
        }
    }
}
