//! All of a source's bytes, and all bytes to a sink.

ghost use Rattle.std.specs.Prelude.{◌≡◌, ◌≢◌, ◌≤◌, ◌<◌, take, drop, length, Ok, Err, IfOk, IfErr, IfSome, OnOk};
ghost use Rattle.std.specs.Io.KnownBytes.{Appends};
ghost use Rattle.pawk_input.specs.Limits.{most_bytes};

use crate::device::{Failed, Sink, Source};
use pawk_input::LIMIT;
use std::alloc::{AllocError, Global};
use thiserror::Error;

/// How many bytes are asked of a source at once.
const PIECE: usize = 131_072;

/// Why a source was not read to its end.
#[derive(Clone, Copy, Debug, Drop, Error)]
pub enum ReadStop {
    /// Memory was refused.
    #[error("out of memory")]
    Memory,
    /// A read failed.
    #[error("a read failed")]
    Failed,
    /// It gave more bytes than an input may have.
    #[error("the input is too large")]
    TooLarge,
}

impl From<AllocError> for ReadStop {
    ghost use Rattle.pawk_device.specs.declared.transfer.ReadStop.TheVariants.{Memory};

    ghost from_gives = { λ _ e. e ≡ Memory };

    fn from(_error: AllocError) -> ReadStop {
        ReadStop::Memory
    }
}

/// `count` zero bytes.
fn zeros(alloc: Global, count: usize) -> Result<Vec<u8>, AllocError>
    ensures { IfOk result (λ v. length v.items ≡ count) }
{
    vec![in alloc; 0u8; count]
}

/// Makes room for more bytes. Where there is none, an eighth of what is there is added, so that what was read never takes
/// much more than itself.
fn make_room(bytes: &mut Vec<u8>, count: usize) -> Result<(), AllocError>
    ensures { bytes.new.items ≡ bytes.old.items }
{
    if bytes.capacity() - bytes.len() < count {
        bytes.reserve_exact(count.max(bytes.len() / 8))?;
    }
    Ok(())
}

/// Reads a source to its end, a piece at a time.
fn read_pieces<S: Source>(
    alloc: Global,
    source: &mut S,
    piece: &mut [u8],
) -> Result<Vec<u8>, ReadStop>
    requires { 0 < length piece.old }
    ensures bytes { IfOk result (λ v. IfSome (S.left source.old) (λ bytes. v.items ≡ bytes)) }
    ensures small { IfOk result (λ v. length v.items ≤ most_bytes) }
    ensures failed { result ≡ Err ReadStop.Failed → S.failures source.old < S.failures source.new }
    ensures unfailing { result ≢ Err ReadStop.Failed
        → S.failures source.new ≡ S.failures source.old }
    ensures large { result ≡ Err ReadStop.TooLarge →
        IfSome (S.left source.old) (λ bytes. most_bytes < length bytes) }
{
    let mut bytes = Vec::new(alloc);
    loop {
        let count = match source.read(piece) {
            Ok(count) => count,
            Err(Failed) => return Err(ReadStop::Failed),
        };
        if count == 0 {
            return Ok(bytes);
        }
        make_room(&mut bytes, count)?;
        bytes.extend_from_slice(&piece[..count])?;
        if bytes.len() as u64 > LIMIT {
            return Err(ReadStop::TooLarge);
        }
    }
}

/// Reads a source to its end, and gives all its bytes, at most as many as an input may have.
///
/// `Failed` comes where a read failed, and then alone; `TooLarge` where the source has more bytes than that, `Memory` where
/// memory was refused; the source was then read in part.
pub fn read_all<S: Source>(alloc: Global, source: &mut S) -> Result<Vec<u8>, ReadStop>
    ensures bytes { IfOk result (λ v. IfSome (S.left source.old) (λ bytes. v.items ≡ bytes)) }
    ensures small { IfOk result (λ v. length v.items ≤ most_bytes) }
    ensures failed { result ≡ Err ReadStop.Failed → S.failures source.old < S.failures source.new }
    ensures unfailing { result ≢ Err ReadStop.Failed
        → S.failures source.new ≡ S.failures source.old }
    ensures large { result ≡ Err ReadStop.TooLarge →
        IfSome (S.left source.old) (λ bytes. most_bytes < length bytes) }
{
    let mut piece = zeros(alloc, PIECE)?;
    read_pieces(alloc, source, &mut piece)
}

/// What follows the first `count` bytes.
fn past(bytes: &[u8], count: usize) -> &[u8]
    ensures { result.now ≡ drop count bytes.now }
{
    if count < bytes.len() {
        &bytes[count..]
    } else {
        &[]
    }
}

/// Writes all the bytes, in order. The error is the count of bytes that went out before a write failed, or took nothing.
pub fn write_all<K: Sink>(sink: &mut K, bytes: &[u8]) -> Result<(), u64>
    ensures all { OnOk result (Appends (K.taken sink.old) (K.taken sink.new) bytes.now) }
    ensures unfailing { OnOk result (K.failures sink.new ≡ K.failures sink.old) }
    ensures failed { IfErr result (λ _. K.failures sink.old < K.failures sink.new) }
    ensures part { IfErr result (λ n.
        (n < length bytes.now) × Appends (K.taken sink.old) (K.taken sink.new) (take n bytes.now)) }
{
    let mut done = 0;
    while done < bytes.len() {
        let count = match sink.write(past(bytes, done)) {
            Ok(count) => count,
            Err(Failed) => return Err(done as u64),
        };
        if count == 0 {
            return Err(done as u64);
        }
        done += count;
    }
    Ok(())
}
