//! What a run writes to a sink.

ghost use Rattle.std.specs.Prelude.{◌≡◌, ◌<◌, ◌^◌, length, IfOk, IfErr, IfSome, OnOk};
ghost use Rattle.std.specs.Io.KnownBytes.{Appends};
ghost use Rattle.pawk_store.specs.Outputs.{in_a_row};
ghost use Rattle.pawk_par.specs.Streams.{TookPart, WhyUnwritten};

use crate::refusal::StreamRefusal;
use pawk_device::{Sink, write_all};
use pawk_threads::Output;

/// How many bytes these parts have together, where 64 bits are enough for it.
fn size_of_all(parts: &[Vec<u8>]) -> Option<u64>
    ensures { IfSome result (λ size. size ≡ length (in_a_row parts.now)) }
{
    let mut size = 0u64;
    for part in parts {
        size = size.checked_add(part.len() as u64)?;
    }
    Some(size)
}

/// Writes these parts, whose size fits in 64 bits, one after the other, and frees each when it was written. The
/// error is the count of bytes that went out before a write failed, or took nothing.
fn write_parts<K: Sink>(sink: &mut K, parts: Vec<Vec<u8>>) -> Result<(), u64>
    requires { length (in_a_row parts.items) < 2 ^ 64 }
    ensures all { OnOk result
        (Appends (K.taken sink.old) (K.taken sink.new) (in_a_row parts.items)) }
    ensures failed { IfErr result (λ _. K.failures sink.old < K.failures sink.new) }
    ensures part { IfErr result
        (TookPart (in_a_row parts.items) (K.taken sink.old) (K.taken sink.new)) }
{
    let mut done = 0u64;
    for part in parts {
        match write_all(sink, &part) {
            Ok(()) => done += part.len() as u64,
            Err(count) => return Err(done + count),
        }
    }
    Ok(())
}

/// Writes an output to a sink, part by part, and frees each when it was written.
///
/// `Write` comes where a write failed or took nothing, with the count of bytes that went out before; `Memory` where the
/// output has 2^64 bytes or more, and nothing was written then.
pub fn write_output<K: Sink>(sink: &mut K, output: Output) -> Result<(), StreamRefusal>
    ensures all { OnOk result (Appends (K.taken sink.old) (K.taken sink.new) output) }
    ensures refused { IfErr result (WhyUnwritten output (K.taken sink.old) (K.taken sink.new)
        (K.failures sink.old) (K.failures sink.new)) }
{
    let parts = output.into_parts();
    if size_of_all(&parts).is_none() {
        return Err(StreamRefusal::Memory);
    }
    match write_parts(sink, parts) {
        Ok(()) => Ok(()),
        Err(count) => Err(StreamRefusal::Write(count)),
    }
}
