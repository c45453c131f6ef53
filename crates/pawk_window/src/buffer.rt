//! A buffer that is filled from its front.

ghost use Rattle.std.specs.Prelude.{◌≡◌, ℕ, ◌+◌, ◌-◌, ◌*◌, ◌^◌, ◌<◌, ◌≤◌, length, take, drop, max, IfOk, OnOk, OnErr};
ghost use Rattle.std.specs.Io.KnownBytes.{ReadConsumes};
ghost use Rattle.pawk_device.specs.Device.{CountsRead};

use pawk_device::{Failed, Source};
use std::alloc::AllocError;

/// How many bytes a buffer has at first.
const FIRST: usize = 262_144;

/// How many times as long a buffer becomes that a read has filled.
const GROWTH: usize = 4;

/// How many bytes a buffer is to have before the next read, where `wanted` were thought enough after the last one, the last
/// `tail` of those that came belong to a record that goes on, and a window has `size`. It has at most the window's size; a longer
/// one it has only while that record is longer, and then at most twice the record's bytes.
pub(crate) fn next_length(wanted: usize, tail: usize, size: usize) -> usize
    requires some { 0 < size }
    requires small { tail < 2 ^ 63 }
    ensures room { tail < result }
    ensures bound { result ≤ max size (2 * tail) }
{
    if tail < size {
        wanted.max(FIRST).min(size).max(tail + 1)
    } else if wanted <= tail {
        tail * 2
    } else {
        wanted.min(tail * 2)
    }
}

/// How many bytes a buffer of `length` is to have, now that a read has filled its first `filled`: more where it was filled to
/// its end.
pub(crate) fn wanted_length(length: usize, filled: usize) -> usize {
    if filled < length {
        length
    } else {
        length.saturating_mul(GROWTH)
    }
}

/// Moves the bytes from place `from` up to place `to` to the front, and gives their count.
pub(crate) fn move_to_front(buffer: &mut Vec<u8>, from: usize, to: usize) -> usize
    requires order { from ≤ to }
    requires within { to ≤ length buffer.old.items }
    ensures count { result ≡ to - from }
    ensures same { length buffer.new.items ≡ length buffer.old.items }
    ensures front { take (to - from) buffer.new.items ≡ drop from (take to buffer.old.items) }
{
    if from > 0 {
        buffer.copy_within(from..to, 0);
    }
    to - from
}

/// The buffer with a copy of the bytes from place `from` up to place `to` at its front, as long as it was, or as they are.
///
/// The error comes where memory was refused.
pub(crate) fn copy_to_front(
    buffer: Vec<u8>,
    bytes: &[u8],
    from: usize,
    to: usize,
) -> Result<Vec<u8>, AllocError>
    requires order { from ≤ to }
    requires within { to ≤ length bytes.now }
    requires small { length buffer.items < 2 ^ 63 }
    ensures long { IfOk result (λ b. to - from ≤ length b.items) }
    ensures front { IfOk result (λ b. take (to - from) b.items ≡ drop from (take to bytes.now)) }
{
    let mut buffer = buffer;
    let count = to - from;
    if buffer.len() < count {
        set_length(&mut buffer, count)?;
    }
    let (front, _) = buffer.split_at_mut(count);
    front.copy_from_slice(&bytes[from..to]);
    Ok(buffer)
}

/// Gives the buffer this length, and memory for no more. The first bytes stay.
///
/// The error comes where memory was refused; the buffer is then as it was.
pub(crate) fn set_length(buffer: &mut Vec<u8>, size: usize) -> Result<(), AllocError>
    requires small { length buffer.old.items < 2 ^ 63 }
    ensures ok { OnOk result (length buffer.new.items ≡ size) }
    ensures kept { OnOk result ((n : ℕ) → n ≤ size → n ≤ length buffer.old.items →
        take n buffer.new.items ≡ take n buffer.old.items) }
    ensures err { OnErr result (buffer.new.items ≡ buffer.old.items) }
{
    if size > buffer.len() {
        buffer.reserve_exact(size - buffer.len())?;
    }
    buffer.resize(size, 0)?;
    buffer.shrink_to(size);
    Ok(())
}

/// Reads once, into what follows the first `filled` bytes of the buffer, and gives how many bytes came.
pub(crate) fn read_after<S: Source>(
    source: &mut S,
    buffer: &mut Vec<u8>,
    filled: usize,
) -> Result<usize, Failed>
    requires within { filled ≤ length buffer.old.items }
    ensures same { length buffer.new.items ≡ length buffer.old.items }
    ensures kept { take filled buffer.new.items ≡ take filled buffer.old.items }
    ensures bound { IfOk result (λ n. filled + n ≤ length buffer.new.items) }
    ensures bytes { ReadConsumes (S.left source.old) (S.left source.new) result
        (drop filled buffer.new.items) }
    ensures counted { CountsRead (S.failures source.old) (S.failures source.new) result }
{
    let (_, room) = buffer.split_at_mut(filled);
    source.read(room)
}
