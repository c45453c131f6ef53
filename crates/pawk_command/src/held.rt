//! What is read before a run, and what is written after it.

ghost use Rattle.std.specs.Prelude.{◌≤◌, None, length};
ghost use Rattle.std.specs.Io.{ReadsAtMost};

use std::alloc::Global;
use std::io;
use std::io::{ErrorKind, Read, Write};

/// How many bytes are asked for at once.
const PART: usize = 65_536;

/// A device whose first bytes may have been read before they are asked for.
#[derive(Drop)]
pub struct HeldInput<D> {
    device: D,
    held: Vec<u8>,
    /// How many of the bytes that are held were given.
    given: usize,
}

/// Copies bytes from this place on, as many as there are and there is room for, and gives their count.
pub fn copy_from(bytes: &[u8], place: usize, buffer: &mut [u8]) -> usize
    ensures room { result ≤ length buffer.new }
    ensures given { result ≤ length bytes.now }
{
    let rest = bytes.get(place..).unwrap_or(&[]);
    let count = rest.len().min(buffer.len());
    buffer[..count].copy_from_slice(&rest[..count]);
    count
}

/// Reads once, and again where a signal interrupted the call.
pub fn read_part<D: Read>(device: &mut D, part: &mut [u8]) -> io::Result<usize>
    ensures { ReadsAtMost result part.new }
{
    for _ in 0..u64::MAX {
        match device.read(part) {
            Err(error) if error.kind() == ErrorKind::Interrupted => {}
            answer => return answer,
        }
    }
    Err(io::Error::from(ErrorKind::Interrupted))
}

impl<D> HeldInput<D> {
    /// A device of which nothing has been read.
    pub fn new(alloc: Global, device: D) -> HeldInput<D> {
        HeldInput {
            device,
            held: Vec::new(alloc),
            given: 0,
        }
    }

    pub fn device(&self) -> &D {
        &self.device
    }

    pub fn device_mut(&mut self) -> &mut D {
        &mut self.device
    }

    /// How many bytes are held.
    pub fn size(&self) -> usize {
        self.held.len()
    }
}

impl<D: Read> HeldInput<D> {
    /// Reads once, and gives how many bytes came.
    fn hold_part(&mut self, part: &mut [u8]) -> io::Result<usize> {
        let count = read_part(&mut self.device, part)?;
        self.held.extend_from_slice(&part[..count])?;
        Ok(count)
    }

    /// Reads once, or `on` to the end. Gives whether the end has come.
    pub fn hold(&mut self, alloc: Global, on: bool) -> io::Result<bool> {
        let mut part = vec![in alloc; 0u8; PART]?;
        for _ in 0..u64::MAX {
            if self.hold_part(part.as_mut_slice())? == 0 {
                return Ok(true);
            }
            if !on {
                return Ok(false);
            }
        }
        Ok(false)
    }
}

impl<D: Read> Read for HeldInput<D> {
    ghost remaining = { λ _. None };

    fn read(&mut self, buffer: &mut [u8]) -> io::Result<usize> {
        if self.given >= self.held.len() {
            return self.device.read(buffer);
        }
        let count = copy_from(self.held.as_slice(), self.given, buffer);
        self.given = self.given.saturating_add(count);
        if self.given >= self.held.len() {
            self.held = Vec::new(*self.held.allocator());
        }
        Ok(count)
    }
}

/// A writer that is written to as the bytes come, or that they are held for.
#[derive(Drop)]
pub struct HeldOutput<W> {
    writer: W,
    held: Option<Vec<u8>>,
    is_refused: bool,
}

impl<W> HeldOutput<W> {
    /// A writer that nothing is held for.
    pub fn new(writer: W) -> HeldOutput<W> {
        HeldOutput {
            writer,
            held: None,
            is_refused: false,
        }
    }

    /// Holds what comes from now on.
    pub fn hold(&mut self, alloc: Global) {
        self.held = Some(Vec::new(alloc));
    }

    pub fn writer(&self) -> &W {
        &self.writer
    }

    /// Whether memory was refused for what is held.
    pub fn is_refused(&self) -> bool {
        self.is_refused
    }
}

impl<W: Write> HeldOutput<W> {
    /// Writes what is held.
    pub fn release(&mut self) -> io::Result<()> {
        match self.held.take() {
            Some(bytes) => self.writer.write_all(bytes.as_slice()),
            None => Ok(()),
        }
    }
}

impl<W: Write> Write for HeldOutput<W> {
    ghost contents = { λ _. None };

    fn write(&mut self, bytes: &[u8]) -> io::Result<usize> {
        let Some(held) = &mut self.held else {
            return self.writer.write(bytes);
        };
        match held.extend_from_slice(bytes) {
            Ok(()) => Ok(bytes.len()),
            Err(error) => {
                self.is_refused = true;
                Err(io::Error::from(error))
            }
        }
    }

    fn flush(&mut self) -> io::Result<()> {
        match self.held {
            Some(_) => Ok(()),
            None => self.writer.flush(),
        }
    }
}
