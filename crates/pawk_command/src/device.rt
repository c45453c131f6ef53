//! A file of the input, or standard input, as bytes are read of it.

ghost use Rattle.std.specs.Prelude.{None};
ghost use Rattle.std.specs.Io.{ReadsAtMost};

use crate::ahead::AheadInput;
use crate::reports::RunFailure;
use crate::script::STANDARD_INPUT;
use crate::stripes::read_stripes;
use pawk_par::StreamRefusal;
use std::fs::File;
use std::io::{ErrorKind, Read};
use std::os::unix::fs::FileTypeExt;
use std::rt::Files;
use std::sync::Wait;
use std::thread::Threads;
use std::{fs, io};

/// An open file.
#[derive(Drop)]
struct OpenFile {
    file: File,
    /// How many bytes were read of it.
    place: u64,
    /// How many bytes it had when it was looked at, where it is a regular file.
    size: Option<u64>,
}

impl OpenFile {
    /// Reads once: of a regular file by at most `readers` threads, and nothing that was added to it later.
    fn read<R: AllocGlobal + Threads + Wait>(
        &mut self,
        rt: &R,
        readers: usize,
        buffer: &mut [u8],
    ) -> io::Result<usize>
        ensures { ReadsAtMost result buffer.new }
    {
        let Some(size) = self.size else {
            return self.file.read(buffer);
        };
        let left = usize::try_from(size.saturating_sub(self.place)).unwrap_or(usize::MAX);
        let most = left.min(buffer.len());
        let part = &mut buffer[..most];
        let count = read_stripes(rt, rt.alloc(), &self.file, self.place, part, readers)?.min(most);
        self.place = self.place.saturating_add(count as u64);
        Ok(count)
    }
}

/// What can be read of a device.
#[derive(Drop)]
enum DeviceBytes<'d, R, I> {
    /// What standard input gives.
    Standard(AheadInput<'d, R, I>),
    /// An open file.
    Open(OpenFile),
    /// A file that the first read opens, of this size where it is a regular one.
    Closed(Option<u64>),
    /// Nothing more.
    Ended,
    /// Nothing, since a read failed so.
    Failed(ErrorKind),
}

/// A file of the input, or standard input. What is added to a regular file after it was looked at is not read.
#[derive(Drop)]
pub struct Device<'d, R, I> {
    rt: &'d R,
    name: &'d str,
    /// How many threads read a regular file at most.
    readers: usize,
    bytes: DeviceBytes<'d, R, I>,
}

/// Why a run failed where a read of the file of this name did.
pub fn failure_by(name: &str, kind: ErrorKind) -> RunFailure<'_> {
    if name == STANDARD_INPUT && kind != ErrorKind::OutOfMemory {
        RunFailure::from(StreamRefusal::Read)
    } else {
        RunFailure::read(name, &io::Error::from(kind))
    }
}

/// Looks at a file of this name, and opens it where that may be done before its turn: a pipe is opened by its first read,
/// since that may wait.
fn look<'d, R: Files<File = File>, I>(
    rt: &'d R,
    name: &str,
    is_kept: bool,
) -> io::Result<DeviceBytes<'d, R, I>> {
    let metadata = fs::metadata(rt, name)?;
    if metadata.is_dir() {
        return Err(io::Error::from(ErrorKind::IsADirectory));
    }
    let size = match metadata.len() {
        size if metadata.is_file() && size > 0 => Some(size),
        _ => None,
    };
    if metadata.file_type().is_fifo() {
        return Ok(DeviceBytes::Closed(size));
    }
    let file = File::open(rt, name)?;
    if is_kept {
        Ok(DeviceBytes::Open(OpenFile {
            file,
            place: 0,
            size,
        }))
    } else {
        Ok(DeviceBytes::Closed(size))
    }
}

impl<'d, R, I> Device<'d, R, I> {
    /// Standard input, or where `input` was taken before, nothing more of it.
    pub fn standard(rt: &'d R, input: Option<I>) -> Device<'d, R, I> {
        let bytes = match input {
            Some(input) => DeviceBytes::Standard(AheadInput::new(rt, input)),
            None => DeviceBytes::Ended,
        };
        Device {
            rt,
            name: STANDARD_INPUT,
            readers: 1,
            bytes,
        }
    }

    /// The file of this name, which is looked at, and stays open where it `is_kept`. A regular file is read by at most `readers`
    /// threads.
    ///
    /// The error comes where it cannot be read.
    pub fn open(
        rt: &'d R,
        name: &'d str,
        readers: usize,
        is_kept: bool,
    ) -> io::Result<Device<'d, R, I>>
    where
        R: Files<File = File>,
    {
        Ok(Device {
            rt,
            name,
            readers,
            bytes: look(rt, name, is_kept)?,
        })
    }

    pub fn name(&self) -> &'d str {
        self.name
    }

    /// How many bytes it has at most: those of a regular file, and for others the greatest number.
    pub fn limit(&self) -> u64 {
        match &self.bytes {
            DeviceBytes::Open(OpenFile { size, .. }) | DeviceBytes::Closed(size) => {
                size.unwrap_or(u64::MAX)
            }
            _ => u64::MAX,
        }
    }

    /// Why the run failed, where a read of this device did.
    pub fn failure(&self) -> Option<RunFailure<'d>> {
        match self.bytes {
            DeviceBytes::Failed(kind) => Some(failure_by(self.name, kind)),
            _ => None,
        }
    }
}

impl<'d, R, I> Device<'d, R, I>
where
    R: AllocGlobal + Threads + Wait + Copy + Send + Drop + 'static,
    I: Read + Copy + Send + Drop + 'static,
{
    /// Starts a thread that reads standard input ahead; other devices stay as they are.
    pub fn read_ahead(&mut self) {
        if let DeviceBytes::Standard(stream) = &mut self.bytes {
            stream.read_ahead();
        }
    }
}

impl<'d, R, I> Device<'d, R, I>
where
    R: Files<File = File> + AllocGlobal + Threads + Wait,
    I: Read + Drop,
{
    /// Opens a file that is not open yet.
    fn make_open(&mut self) -> io::Result<()> {
        if let DeviceBytes::Closed(size) = self.bytes {
            self.bytes = DeviceBytes::Open(OpenFile {
                file: File::open(self.rt, self.name)?,
                place: 0,
                size,
            });
        }
        Ok(())
    }

    /// Reads once.
    fn read_once(&mut self, buffer: &mut [u8]) -> io::Result<usize>
        ensures { ReadsAtMost result buffer.new }
    {
        self.make_open()?;
        match &mut self.bytes {
            DeviceBytes::Standard(input) => input.read(buffer),
            DeviceBytes::Open(file) => file.read(self.rt, self.readers, buffer),
            DeviceBytes::Failed(kind) => Err(io::Error::from(*kind)),
            _ => Ok(0),
        }
    }
}

impl<'d, R, I> Read for Device<'d, R, I>
where
    R: Files<File = File> + AllocGlobal + Threads + Wait,
    I: Read + Drop,
{
    ghost remaining = { λ _. None };

    fn read(&mut self, buffer: &mut [u8]) -> io::Result<usize> {
        match self.read_once(buffer) {
            Ok(0) if !buffer.is_empty() => {
                self.bytes = DeviceBytes::Ended;
                Ok(0)
            }
            Err(error) if error.kind() != ErrorKind::Interrupted => {
                self.bytes = DeviceBytes::Failed(error.kind());
                Err(error)
            }
            answer => answer,
        }
    }
}
