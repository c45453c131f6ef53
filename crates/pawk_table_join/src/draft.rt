//! Tables as far as they are joined.

use crate::part::Pending;
use crate::refusal::JoinRefusal;
use crate::setting::JoinSetting;
use pawk_device::Sink;
use pawk_frozen::Table;
use pawk_map::{Held, MapRefusal, Progress};
use pawk_records::Separator;
use std::alloc::Global;

/// Tables as far as they are joined.
#[derive(Drop)]
pub(crate) struct Joined {
    /// How far the table of all is written.
    pub(crate) progress: Progress,
    /// The part that comes next, if there is one.
    pub(crate) pending: Option<Pending>,
    /// The last record, which is held back, if there is one.
    pub(crate) held: Option<Held>,
}

impl Joined {
    /// How many records have come before the one that is held back.
    ///
    /// `Input` comes where they cannot be counted.
    pub(crate) fn part_count(&self) -> Result<u64, JoinRefusal> {
        let pending = match &self.pending {
            Some(pending) => pending.records,
            None => 0,
        };
        let count = self.progress.records.checked_add(pending);
        Ok(count.ok_or(MapRefusal::Input)?)
    }

    /// How many records have come, with the one that is held back.
    ///
    /// `Input` comes where they cannot be counted.
    pub(crate) fn count(&self, separator: Separator) -> Result<u64, JoinRefusal> {
        let held = match &self.held {
            Some(held) => separator.count_records(&held.bytes) as u64,
            None => 0,
        };
        let count = self.part_count()?.checked_add(held);
        Ok(count.ok_or(MapRefusal::Input)?)
    }

    /// Writes the part that comes next, if there is one.
    pub(crate) fn write_pending<K: Sink>(
        self,
        alloc: Global,
        sink: &mut K,
    ) -> Result<Joined, JoinRefusal> {
        let Joined {
            progress,
            pending,
            held,
        } = self;
        let progress = match pending {
            Some(pending) => pending.write(alloc, progress, sink)?,
            None => progress,
        };
        Ok(Joined {
            progress,
            pending: None,
            held,
        })
    }

    /// Adds a part: to the one that comes next, where its table may follow; else that one is written, and this one comes next.
    ///
    /// `Damage` comes where it has no record, `Input` where there are more than can be counted, `Memory` where memory was
    /// refused, and `Write` where a write failed.
    pub(crate) fn add_part<K: Sink>(
        self,
        setting: JoinSetting<'_>,
        records: u64,
        output: &[u8],
        table: Table,
        sink: &mut K,
    ) -> Result<Joined, JoinRefusal> {
        if records == 0 {
            return Err(JoinRefusal::Part(MapRefusal::Damage));
        }
        let mut joined = self;
        if let Some(pending) = &mut joined.pending {
            if pending.table.takes(&table) {
                pending.add(records, output, table)?;
                return Ok(joined);
            }
        }
        let alloc = setting.setting.alloc;
        let mut joined = joined.write_pending(alloc, sink)?;
        let seed = setting.shape.seed;
        joined.pending = Some(Pending::new(alloc, seed, records, output, table)?);
        Ok(joined)
    }
}
