//! Files that are read whole.

use pawk_device::{ReadStop, Reader, read_all};
use pawk_par::StreamRefusal;
use std::alloc::Global;
use std::fs::File;
use std::io::Read;
use std::rt::Files;
use std::{fs, io};

/// The size of a regular file in bytes, and 0 where nothing is known of it.
fn known_size<R: Files>(rt: &R, name: &str) -> usize {
    match fs::metadata(rt, name) {
        Ok(metadata) if metadata.is_file() => metadata.len() as usize,
        _ => 0,
    }
}

/// How many bytes of a file are read at once.
const PART: usize = 65_536;

/// Reads the bytes that are known of a file, a part at a time, as far as they come. What is left, and
/// a read that was interrupted, is for who reads on.
fn read_known<F: Read>(
    alloc: Global,
    file: &mut F,
    size: usize,
    bytes: &mut Vec<u8>,
) -> io::Result<()> {
    let mut part = Vec::new(alloc);
    part.resize(PART, 0)?;
    for _ in 0..size / PART + 1 {
        match file.read(part.as_mut_slice()) {
            Ok(count) => bytes.extend_from_slice(&part[..count])?,
            Err(error) if error.kind() == io::ErrorKind::Interrupted => return Ok(()),
            Err(error) => return Err(error),
        }
    }
    Ok(())
}

/// Reads an open file to its end, into space for the size that is known of it, and one byte more, in which its end is seen.
pub fn read_open<F: Read>(alloc: Global, file: &mut F, size: usize) -> io::Result<Vec<u8>> {
    let mut bytes = Vec::with_capacity(alloc, size.saturating_add(1))?;
    read_known(alloc, file, size, &mut bytes)?;
    file.read_to_end(&mut bytes)?;
    Ok(bytes)
}

/// Reads the file of this name to its end.
pub fn read_file<R: Files + AllocGlobal>(rt: &R, name: &str) -> io::Result<Vec<u8>> {
    let mut file = File::open(rt, name)?;
    let size = known_size(rt, name);
    read_open(rt.alloc(), &mut file, size)
}

/// Reads a stream to its end; a second time it is at its end.
pub fn read_stream<I: Read>(alloc: Global, input: &mut I) -> Result<Vec<u8>, StreamRefusal> {
    match read_all(alloc, &mut Reader::new(input)) {
        Ok(bytes) => Ok(bytes),
        Err(ReadStop::Memory) => Err(StreamRefusal::Memory),
        Err(ReadStop::Failed) => Err(StreamRefusal::Read),
        Err(ReadStop::TooLarge) => Err(StreamRefusal::Input),
    }
}
