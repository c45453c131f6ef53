//! Output that is written as it comes.

ghost use Rattle.std.specs.Prelude.{IfErr, OnOk};
ghost use Rattle.std.specs.Io.KnownBytes.{Appends};
ghost use Rattle.pawk_store.specs.Outputs.{in_a_row};
ghost use Rattle.pawk_feeds.specs.Feeds.{WroteSome};

use pawk_device::Sink;
use pawk_par::{StreamRefusal, write_output};
use pawk_sequential::Output;

/// Writes parts in order, and hands them on.
///
/// `Write` comes where a write or the flush failed, `Memory` where the parts have 2^64 bytes or more.
pub(crate) fn write_on<K: Sink>(sink: &mut K, parts: Vec<Vec<u8>>) -> Result<(), StreamRefusal>
    ensures all { OnOk result
        (Appends (K.taken sink.old) (K.taken sink.new) (in_a_row parts.items)) }
    ensures some { IfErr result (λ _.
        WroteSome (K.taken sink.old) (K.taken sink.new) (in_a_row parts.items)) }
{
    write_output(sink, Output::of(parts))?;
    match sink.flush() {
        Ok(()) => Ok(()),
        Err(_) => Err(StreamRefusal::Write(0)),
    }
}
