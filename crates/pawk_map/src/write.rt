//! What is written of a table file.

ghost use Rattle.std.specs.Prelude.{ℕ, List, ◌++◌, OnOk};
ghost use Rattle.std.specs.Io.KnownBytes.{Appends};
ghost use Rattle.pawk_lines.specs.Lines.{IsLine, line_bytes};
ghost use Rattle.pawk_lines.specs.Lines as lines;
ghost use Rattle.pawk_tables.specs.Layout.{end_bytes};
ghost use Rattle.pawk_map.specs.Maps.{Writes};
ghost use Rattle.sha2.specs.Hashers.{Holds256};

use crate::refusal::MapRefusal;
use pawk_device::{Sink, write_all};
use pawk_tables::{push_end, push_records};
use sha2::{Digest, Sha256};
use std::alloc::Global;

/// Writes bytes of a table file to a sink, and takes them into the digest of what was written.
///
/// `Write` comes where a write failed, or took nothing.
pub fn write_lines<K: Sink>(
    sink: &mut K,
    digest: &mut Sha256,
    lines: &[u8],
) -> Result<(), MapRefusal>
    ensures { OnOk result (Writes (K.taken sink.old) (K.taken sink.new) digest.old digest.new
        lines.now) }
{
    digest.update(lines);
    match write_all(sink, lines) {
        Ok(()) => Ok(()),
        Err(_) => Err(MapRefusal::Write),
    }
}

/// Writes the last bytes of a file, and hands on all of them.
///
/// `Write` comes where a write or the flush failed.
pub(crate) fn write_last<K: Sink>(sink: &mut K, lines: &[u8]) -> Result<(), MapRefusal>
    ensures { OnOk result (Appends (K.taken sink.old) (K.taken sink.new) lines.now) }
{
    if write_all(sink, lines).is_err() {
        return Err(MapRefusal::Write);
    }
    match sink.flush() {
        Ok(()) => Ok(()),
        Err(_) => Err(MapRefusal::Write),
    }
}

/// Writes the end of a table file whose sections have so many records, after bytes of which this is the digest, and hands on all of
/// the file.
///
/// `Write` comes where a write or the flush failed, `Memory` where memory was refused.
pub fn end_file<K: Sink>(
    alloc: Global,
    digest: Sha256,
    records: u64,
    sink: &mut K,
) -> Result<(), MapRefusal>
    ensures written { OnOk result ((body : List ℕ) → Holds256 digest body →
        Appends (K.taken sink.old) (K.taken sink.new) (line_bytes (lines.records records)
        ++ end_bytes (body ++ line_bytes (lines.records records)))) }
    ensures line { OnOk result (IsLine (lines.records records)) }
{
    let mut digest = digest;
    let mut lines = Vec::new(alloc);
    push_records(&mut lines, records)?;
    write_lines(sink, &mut digest, &lines)?;
    let mut end = Vec::new(alloc);
    push_end(&mut end, &digest.finalize())?;
    write_last(sink, &end)
}
