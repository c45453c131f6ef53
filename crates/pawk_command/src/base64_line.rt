//! Tables as one line of base64.

ghost use Rattle.std.specs.Prelude.{None};
ghost use Rattle.std.specs.Io.{WritesAtMost};

use crate::held::copy_from;
use base64::DecodeAllocError;
use base64::engine::general_purpose::STANDARD;
use std::alloc::{AllocError, Global};
use std::io;
use std::io::{ErrorKind, Write};

/// How many bytes are encoded at once at most, a multiple of 3.
const PART: usize = 3_072;

/// How many characters as many bytes are.
const PART_TEXT: usize = 4_096;

/// How a table is written.
#[derive(Clone, Copy)]
pub enum TableForm {
    /// As its bytes.
    Bytes,
    /// As one line of base64.
    Line,
}

/// A writer that a table is written to in its form. Of a line it keeps at most two bytes back, which are no group of three.
#[derive(Drop)]
pub struct TableWriter<W> {
    writer: W,
    form: TableForm,
    /// The bytes that are kept back, in front.
    kept: [u8; 2],
    kept_count: usize,
}

impl<W> TableWriter<W> {
    /// What hands a table of this form on to a writer.
    pub fn new(writer: W, form: TableForm) -> TableWriter<W> {
        TableWriter {
            writer,
            form,
            kept: [0; 2],
            kept_count: 0,
        }
    }
}

impl<W: Write> TableWriter<W> {
    /// Writes bytes, at most as many as are encoded at once, in base64.
    ///
    /// RFC 4648, section 4.
    fn write_encoded(&mut self, bytes: &[u8]) -> io::Result<()> {
        let mut text = [0u8; PART_TEXT];
        let count = match STANDARD.encode_slice(bytes, &mut text) {
            Ok(count) => count,
            Err(_) => return Err(io::Error::from(ErrorKind::InvalidInput)),
        };
        match text.get(..count) {
            Some(encoded) => self.writer.write_all(encoded),
            None => Err(io::Error::from(ErrorKind::InvalidInput)),
        }
    }

    /// Writes groups of three out of what was kept back and the first of these bytes, and keeps the rest back. Gives how many
    /// of the bytes were taken.
    fn write_groups(&mut self, bytes: &[u8]) -> io::Result<usize>
        ensures { WritesAtMost result bytes.now }
    {
        let mut part = [0u8; PART];
        let kept = self.kept_count.min(2);
        let (front, back) = part.split_at_mut(kept);
        front.copy_from_slice(&self.kept[..kept]);
        let count = copy_from(bytes, 0, back);
        let length = kept.saturating_add(count).min(PART);
        let (groups, rest) = part[..length].split_at(length - length % 3);
        self.write_encoded(groups)?;
        self.kept_count = copy_from(rest, 0, &mut self.kept);
        Ok(count)
    }

    /// Ends the table: a line by what was kept back and a newline.
    pub fn end(&mut self) -> io::Result<()> {
        match self.form {
            TableForm::Bytes => Ok(()),
            TableForm::Line => {
                let kept = self.kept;
                self.write_encoded(&kept[..self.kept_count.min(2)])?;
                self.kept_count = 0;
                self.writer.write_all(b"\n")
            }
        }
    }
}

impl<W: Write> Write for TableWriter<W> {
    ghost contents = { λ _. None };

    fn write(&mut self, bytes: &[u8]) -> io::Result<usize> {
        match self.form {
            TableForm::Bytes => self.writer.write(bytes),
            TableForm::Line => self.write_groups(bytes),
        }
    }

    fn flush(&mut self) -> io::Result<()> {
        self.writer.flush()
    }
}

/// Whether a file begins as the bytes of a table do.
pub fn begins_as_table(bytes: &[u8]) -> bool {
    bytes.starts_with(b"pawk table 1\n")
}

/// A line without its newline, or its carriage return and newline.
fn without_newline(line: &[u8]) -> &[u8] {
    match line {
        [text @ .., b'\r', b'\n'] => text,
        [text @ .., b'\n'] => text,
        _ => line,
    }
}

/// The bytes of a table that a file has in one form or the other. Where it has none, they are those of the file, or what it
/// says in base64.
///
/// The error comes where memory was refused.
pub fn bytes_of_table(alloc: Global, file: Vec<u8>) -> Result<Vec<u8>, AllocError> {
    if begins_as_table(file.as_slice()) {
        return Ok(file);
    }
    match STANDARD.decode(alloc, without_newline(file.as_slice())) {
        Ok(bytes) => Ok(bytes),
        Err(DecodeAllocError::OutOfMemory) => Err(AllocError),
        Err(DecodeAllocError::DecodeError(_)) => Ok(file),
    }
}
