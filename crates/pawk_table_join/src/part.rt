//! A part that is not written yet.

ghost use Rattle.pawk_compose.specs.Compositions.{MayFollow};

use crate::refusal::JoinRefusal;
use pawk_compose::Composition;
use pawk_device::Sink;
use pawk_frozen::Table;
use pawk_map::{MapRefusal, Progress, write_sections};
use pawk_store::Seed;
use pawk_tables::push_part;
use std::alloc::{AllocError, Global};

/// A part that is not written yet, since the next one may be added to it.
#[derive(Drop)]
pub(crate) struct Pending {
    /// How many records it has.
    pub(crate) records: u64,
    /// What they wrote.
    pub(crate) output: Vec<u8>,
    /// What they noted of the globals.
    pub(crate) table: Composition,
}

impl Pending {
    /// A part of so many records, which wrote and noted this; keys are hashed by `seed`.
    ///
    /// The error comes where memory was refused.
    pub(crate) fn new(
        alloc: Global,
        seed: Seed,
        records: u64,
        output: &[u8],
        table: Table,
    ) -> Result<Pending, AllocError> {
        Ok(Pending {
            records,
            output: Vec::from_slice(alloc, output)?,
            table: Composition::new(alloc, seed, table)?,
        })
    }

    /// Adds a part, whose table may follow.
    ///
    /// `Input` comes where there are more records than can be counted, `Memory` where memory was refused.
    pub(crate) fn add(
        &mut self,
        records: u64,
        output: &[u8],
        table: Table,
    ) -> Result<(), JoinRefusal>
        requires { MayFollow self.old.table table }
    {
        self.records = self.records.checked_add(records).ok_or(MapRefusal::Input)?;
        self.output.extend_from_slice(output)?;
        self.table.add(table)?;
        Ok(())
    }

    /// Writes the part.
    ///
    /// `Write` comes where a write failed, `Memory` where memory was refused, and `Damage` where no lines say what its table has.
    pub(crate) fn write<K: Sink>(
        self,
        alloc: Global,
        progress: Progress,
        sink: &mut K,
    ) -> Result<Progress, JoinRefusal> {
        let Pending {
            records,
            output,
            table,
        } = self;
        let table = table.into_table()?;
        let mut lines = Vec::new(alloc);
        push_part(&mut lines, records, &output, &table)?;
        // (a part is of no file)
        let name = Vec::from_slice(alloc, &progress.name)?;
        Ok(write_sections(alloc, progress, &name, &lines, records, sink)?)
    }
}
