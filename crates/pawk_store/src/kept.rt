//! What a run keeps beside the globals while its input's buffer is used again.

ghost use Rattle.std.specs.Prelude.{◌≡◌, IfOk};
ghost use Rattle.std.specs.Option.{option_map};
ghost use Rattle.pawk_store.specs.StateViews.{state_of};

use crate::state::RecordState;
use pawk_record::Record;
use std::alloc::{AllocError, Global};
use std::marker::Model;
use std::mem;

/// A record state that lends nothing from an input, since the line and the name of the file are its own.
#[derive(Drop)]
pub struct KeptState {
    alloc: Global,
    line: Record<'static>,
    nr: u64,
    fnr: u64,
    name: Option<Vec<u8>>,
    rstart: i64,
    rlength: i64,
    status: u8,
    taken: Option<Vec<u8>>,
    ranges: Vec<bool>,
}

impl Model for KeptState {
    ghost use Rattle.pawk_store.specs.RecordStates.{RecordState};
    ghost use Rattle.pawk_store.specs.KeptViews.{kept_state};

    ghost Value = { RecordState };

    ghost view = { kept_state };
}

/// A copy of a name, if there is one.
fn copy_name(alloc: Global, name: Option<&[u8]>) -> Result<Option<Vec<u8>>, AllocError>
    ensures { IfOk result (λ copy. option_map (λ bytes. bytes.items) copy
        ≡ option_map (λ bytes. bytes.now) name.entry) }
{
    match name {
        Some(bytes) => Ok(Some(Vec::from_slice(alloc, bytes)?)),
        None => Ok(None),
    }
}

/// A name, lent, if there is one.
fn lend_name(name: &Option<Vec<u8>>) -> Option<&[u8]>
    ensures { option_map (λ bytes. bytes.now) result
        ≡ option_map (λ bytes. bytes.items) name.now }
{
    match name {
        Some(bytes) => Some(bytes.as_slice()),
        None => None,
    }
}

impl RecordState<'_> {
    /// The same state, which lends nothing from an input, so that the input's buffer may be used again: the
    /// last record and its file's name are there in `END` (POSIX.1-2017, awk, "Variables and Special
    /// Variables", `NF` and `FILENAME`).
    ///
    /// Takes memory for the name, and for the line where the record has too little space of its own.
    pub fn keep(self, alloc: Global) -> Result<KeptState, AllocError>
        ensures { IfOk result (λ kept. kept ≡ state_of self.entry) }
    {
        let RecordState {
            line,
            nr,
            fnr,
            name,
            rstart,
            rlength,
            status,
            taken,
            ranges,
        } = self;
        Ok(KeptState {
            alloc,
            line: line.keep()?,
            nr,
            fnr,
            name: copy_name(alloc, name)?,
            rstart,
            rlength,
            status,
            taken,
            ranges,
        })
    }
}

impl KeptState {
    /// How many records were read (`NR`).
    pub fn count(&self) -> u64
        ensures { result ≡ self.now.nr }
    {
        self.nr
    }

    /// Says that this many records were read; all else stays.
    pub fn set_count(&mut self, count: u64)
        ensures { self.new ≡ record self.old { nr = count } }
    {
        self.nr = count;
    }

    /// The state with which a run goes on. Its `FILENAME` is lent from here, and all else is taken out; what
    /// stays is to be replaced by what the run leaves. Takes no memory.
    pub fn lend(&mut self) -> RecordState<'_>
        ensures { state_of result ≡ self.old }
    {
        RecordState {
            line: mem::replace(&mut self.line, Record::new(self.alloc)),
            nr: self.nr,
            fnr: self.fnr,
            name: lend_name(&self.name),
            rstart: self.rstart,
            rlength: self.rlength,
            status: self.status,
            taken: self.taken.take(),
            ranges: mem::replace(&mut self.ranges, Vec::new(self.alloc)),
        }
    }
}
