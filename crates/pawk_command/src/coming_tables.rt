//! Tables that several threads read and check at once, before their turns come.

use crate::checked_table::{CheckedTable, TableStop};
use crate::operands::FileTurn;
use crate::reports::RunFailure;
use crate::script::STANDARD_INPUT;
use std::alloc::{AllocError, Global};
use std::fs::File;
use std::io::Read;
use std::rt::Files;
use std::sync::Wait;
use std::thread::{Builder, Threads};
use std::{fs, io, thread};

/// How many bytes a file has at least that a thread reads.
const LEAST_SIZE: u64 = 65_536;

/// A table whose turn is to come.
#[derive(Drop)]
pub enum ComingTable {
    /// It is in a regular file of this size, which is open and large enough for a thread.
    Open(File, usize),
    /// It was read and checked, or could not be.
    Read(Result<CheckedTable, TableStop>),
    /// It is read when its turn comes, since it is small, or a read of it may wait.
    Later,
}

/// Opens a regular file that is large enough for a thread; nothing where it is another one.
fn open_large<R: Files<File = File>>(rt: &R, name: &str) -> io::Result<Option<(File, usize)>> {
    let metadata = fs::metadata(rt, name)?;
    if !metadata.is_file() || metadata.len() < LEAST_SIZE {
        return Ok(None);
    }
    Ok(Some((File::open(rt, name)?, metadata.len() as usize)))
}

impl ComingTable {
    /// The table of this name, whose file is opened where a thread may read it.
    fn of<R: Files<File = File>>(rt: &R, name: &str) -> ComingTable {
        if name == STANDARD_INPUT {
            return ComingTable::Later;
        }
        match open_large(rt, name) {
            Ok(Some((file, size))) => ComingTable::Open(file, size),
            Ok(None) => ComingTable::Later,
            Err(error) => ComingTable::Read(Err(TableStop::from(error))),
        }
    }

    /// Whether its file is open.
    fn is_open(&self) -> bool {
        matches!(self, ComingTable::Open(_, _))
    }

    /// Reads and checks the table of an open file.
    fn read(&mut self, alloc: Global) {
        if let ComingTable::Open(file, size) = self {
            let read = CheckedTable::read_open(alloc, file, *size);
            *self = ComingTable::Read(read);
        }
    }

    /// The table, which has this name, now that its turn has come.
    pub fn take<'a, R, I>(
        self,
        rt: &R,
        name: &'a str,
        input: &mut I,
    ) -> Result<CheckedTable, RunFailure<'a>>
    where
        R: Files<File = File> + AllocGlobal,
        I: Read,
    {
        match self {
            ComingTable::Read(Ok(table)) => Ok(table),
            ComingTable::Read(Err(stop)) => Err(stop.of(name)),
            ComingTable::Open(_, _) | ComingTable::Later => CheckedTable::read(rt, name, input),
        }
    }
}

/// Reads and checks the large ones of the tables of these names, each on a thread of its own, where it can be started, the first on
/// this one.
///
/// The error comes where memory was refused.
pub fn read_ahead<R>(rt: &R, turns: &[FileTurn<'_, '_>]) -> Result<Vec<ComingTable>, AllocError>
where
    R: Files<File = File> + AllocGlobal + Threads + Wait,
{
    let alloc = rt.alloc();
    let mut tables = Vec::with_capacity(alloc, turns.len())?;
    for turn in turns {
        tables.push(ComingTable::of(rt, turn.name))?;
    }
    thread::scope(thread::scope_env(), rt, |scope| {
        let mut others = tables.iter_mut();
        let own = others.next();
        for table in others {
            if table.is_open() {
                let _ = Builder::new().spawn_scoped(scope, move || table.read(alloc));
            }
        }
        if let Some(table) = own {
            table.read(alloc);
        }
    });
    Ok(tables)
}
