//! Tables that are read and checked.

use crate::base64_line::{begins_as_table, bytes_of_table};
use crate::files::{read_file, read_open, read_stream};
use crate::reports::{ReadCause, RunFailure};
use crate::script::STANDARD_INPUT;
use crate::sequence::are_shards;
use crate::table_failure::TableFailure;
use pawk_par::StreamRefusal;
use pawk_tables::{ReadHeader, TableRefusal, checked, read_header};
use std::alloc::{AllocError, Global};
use std::fs::File;
use std::io;
use std::io::Read;
use std::rt::Files;

/// Why a table was not read, whatever its name.
#[derive(Clone, Copy)]
pub enum TableStop {
    /// Memory was refused, or standard input could not be read.
    Refused(StreamRefusal),
    /// The file could not be read.
    Unread(ReadCause),
    /// The first line is another than that of a table.
    NoTable,
    /// A byte is another, or missing.
    Damaged,
}

impl From<AllocError> for TableStop {
    fn from(error: AllocError) -> TableStop {
        TableStop::Refused(StreamRefusal::from(error))
    }
}

impl From<StreamRefusal> for TableStop {
    fn from(refusal: StreamRefusal) -> TableStop {
        TableStop::Refused(refusal)
    }
}

impl From<TableRefusal> for TableStop {
    fn from(refusal: TableRefusal) -> TableStop {
        match refusal {
            TableRefusal::Memory => TableStop::Refused(StreamRefusal::Memory),
            TableRefusal::Damage => TableStop::Damaged,
        }
    }
}

impl From<io::Error> for TableStop {
    fn from(error: io::Error) -> TableStop {
        if error.kind() == io::ErrorKind::OutOfMemory {
            return TableStop::Refused(StreamRefusal::Memory);
        }
        TableStop::Unread(ReadCause::of(&error))
    }
}

impl TableStop {
    /// Why the table of this name was not read.
    pub fn of<'a>(self, name: &'a str) -> RunFailure<'a> {
        match self {
            TableStop::Refused(refusal) => RunFailure::from(refusal),
            TableStop::Unread(cause) => RunFailure::Read(name, cause),
            TableStop::NoTable => RunFailure::Table(TableFailure::NoTable(name)),
            TableStop::Damaged => RunFailure::Table(TableFailure::Damaged(name)),
        }
    }
}

/// A table whose last line has the digest of all bytes before it.
#[derive(Drop)]
pub struct CheckedTable {
    bytes: Vec<u8>,
    /// How many bytes come before the last line.
    length: usize,
}

impl CheckedTable {
    /// The table that a file has in one form or the other.
    fn of(alloc: Global, file: Vec<u8>) -> Result<CheckedTable, TableStop> {
        let bytes = bytes_of_table(alloc, file)?;
        if !begins_as_table(bytes.as_slice()) {
            return Err(TableStop::NoTable);
        }
        let length = checked(bytes.as_slice())?.len();
        Ok(CheckedTable { bytes, length })
    }

    /// The table in an open file of this size.
    pub fn read_open(
        alloc: Global,
        file: &mut File,
        size: usize,
    ) -> Result<CheckedTable, TableStop> {
        CheckedTable::of(alloc, read_open(alloc, file, size)?)
    }

    /// The table in the file of this name.
    pub fn read_file<R: Files<File = File> + AllocGlobal>(
        rt: &R,
        name: &str,
    ) -> Result<CheckedTable, TableStop> {
        CheckedTable::of(rt.alloc(), read_file(rt, name)?)
    }

    /// The table in the file of this name, or in standard input.
    pub fn read<'a, R: Files<File = File> + AllocGlobal, I: Read>(
        rt: &R,
        name: &'a str,
        input: &mut I,
    ) -> Result<CheckedTable, RunFailure<'a>> {
        let read = if name == STANDARD_INPUT {
            let bytes = read_stream(rt.alloc(), input)?;
            CheckedTable::of(rt.alloc(), bytes)
        } else {
            CheckedTable::read_file(rt, name)
        };
        match read {
            Ok(table) => Ok(table),
            Err(stop) => Err(stop.of(name)),
        }
    }

    /// What the table of this name begins with, and its sections.
    pub fn parted<'a>(
        &self,
        alloc: Global,
        name: &'a str,
    ) -> Result<(ReadHeader<'_>, &[u8]), RunFailure<'a>> {
        let body = self.bytes.get(..self.length).unwrap_or(&[]);
        let (header, sections) = match read_header(alloc, body) {
            Ok(parts) => parts,
            Err(refusal) => return Err(TableStop::from(refusal).of(name)),
        };
        match header.shard {
            Some(shard) if !are_shards(shard) => Err(TableStop::Damaged.of(name)),
            _ => Ok((header, sections)),
        }
    }
}
