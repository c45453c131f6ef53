//! Output that is written as it comes.

ghost use Rattle.std.specs.Prelude.{IfErr, OnOk};
ghost use Rattle.std.specs.Io.KnownBytes.{Appends, Keeps};
ghost use Rattle.pawk_store.specs.Outputs.{in_a_row};
ghost use Rattle.pawk_table_merge.specs.TableMerges.{WroteSome};

use crate::refusal::MergeRefusal;
use pawk_device::{Sink, write_all};
use pawk_par::write_output;
use pawk_sequential::Output;

/// Hands on what a sink holds back.
fn hand_on<K: Sink>(sink: &mut K) -> Result<(), MergeRefusal>
    ensures { Keeps (K.taken sink.old) (K.taken sink.new) }
{
    match sink.flush() {
        Ok(()) => Ok(()),
        Err(_) => Err(MergeRefusal::Write),
    }
}

/// Writes parts in order, and hands them on.
///
/// `Write` comes where a write or the flush failed, `Memory` where the parts have 2^64 bytes or more.
pub(crate) fn write_parts<K: Sink>(sink: &mut K, parts: Vec<Vec<u8>>) -> Result<(), MergeRefusal>
    ensures all { OnOk result
        (Appends (K.taken sink.old) (K.taken sink.new) (in_a_row parts.items)) }
    ensures some { IfErr result (λ _.
        WroteSome (K.taken sink.old) (K.taken sink.new) (in_a_row parts.items)) }
{
    write_output(sink, Output::of(parts))?;
    hand_on(sink)
}

/// Writes bytes, and hands them on.
///
/// `Write` comes where a write or the flush failed.
pub(crate) fn write_bytes<K: Sink>(sink: &mut K, bytes: &[u8]) -> Result<(), MergeRefusal>
    ensures all { OnOk result (Appends (K.taken sink.old) (K.taken sink.new) bytes.now) }
    ensures some { IfErr result (λ _.
        WroteSome (K.taken sink.old) (K.taken sink.new) bytes.now) }
{
    match write_all(sink, bytes) {
        Ok(()) => hand_on(sink),
        Err(_) => Err(MergeRefusal::Write),
    }
}
