//! Bytes of a file that several threads read at once.

use std::alloc::{AllocError, Global};
use std::fs::File;
use std::io::ErrorKind;
use std::os::unix::fs::FileExt;
use std::sync::Wait;
use std::thread::{Builder, Threads};
use std::{io, thread};

/// How many bytes a thread reads at least.
const LEAST_SHARE: usize = 524_288;

/// Space for consecutive bytes of a file, and what came of them.
#[derive(Drop)]
struct Stripe<'b> {
    /// Where they begin in the file.
    place: u64,
    buffer: &'b mut [u8],
    /// How many of them came, from the first on.
    count: usize,
    /// Why no more came, where a read failed.
    failure: Option<ErrorKind>,
}

/// Reads once, and again where a signal interrupted the call, and gives how many bytes came.
fn read_part(file: &File, part: &mut [u8], place: u64) -> Result<usize, ErrorKind> {
    for _ in 0..u64::MAX {
        match file.read_at(part, place) {
            Ok(count) => return Ok(count),
            Err(error) if error.kind() == ErrorKind::Interrupted => {}
            Err(error) => return Err(error.kind()),
        }
    }
    Err(ErrorKind::Interrupted)
}

/// Fills a stripe, up to the end of the file or a failure.
fn fill(file: &File, stripe: &mut Stripe<'_>) {
    for _ in 0..u64::MAX {
        let count = stripe.count.min(stripe.buffer.len());
        let place = stripe.place.saturating_add(count as u64);
        let (_, rest) = stripe.buffer.split_at_mut(count);
        if rest.is_empty() {
            return;
        }
        match read_part(file, rest, place) {
            Ok(0) => return,
            Ok(more) => stripe.count = count.saturating_add(more),
            Err(kind) => {
                stripe.failure = Some(kind);
                return;
            }
        }
    }
}

impl<'b> Stripe<'b> {
    /// A stripe of which nothing has come.
    fn new(place: u64, buffer: &'b mut [u8]) -> Stripe<'b> {
        Stripe {
            place,
            buffer,
            count: 0,
            failure: None,
        }
    }
}

/// The stripes of a buffer, each of this size but the last, for the bytes of a file from this place on.
fn stripes_of(
    alloc: Global,
    buffer: &mut [u8],
    size: usize,
    place: u64,
) -> Result<Vec<Stripe<'_>>, AllocError> {
    let mut stripes = Vec::new(alloc);
    let mut next = place;
    for part in buffer.chunks_mut(size.max(1)) {
        let length = part.len() as u64;
        stripes.push(Stripe::new(next, part))?;
        next = next.saturating_add(length);
    }
    Ok(stripes)
}

/// How many bytes came of these stripes, up to the first that is not full. The error comes where nothing came since a read failed.
fn count_of(stripes: &[Stripe<'_>]) -> io::Result<usize> {
    let mut sum: usize = 0;
    for stripe in stripes {
        match stripe.failure {
            Some(kind) if sum == 0 && stripe.count == 0 => return Err(io::Error::from(kind)),
            _ => sum = sum.saturating_add(stripe.count),
        }
        if stripe.count < stripe.buffer.len() {
            break;
        }
    }
    Ok(sum)
}

/// Reads bytes of a file from this place on, by at most `readers` threads, and gives how many came: 0 at the end of the file. The
/// first of them are read on this thread, the others each on a thread of its own, where it can be started.
///
/// The error comes where the first read failed, or memory was refused.
pub fn read_stripes<R: Threads + Wait>(
    rt: &R,
    alloc: Global,
    file: &File,
    place: u64,
    buffer: &mut [u8],
    readers: usize,
) -> io::Result<usize> {
    let readers = readers.min(buffer.len() / LEAST_SHARE);
    if readers < 2 {
        return file.read_at(buffer, place);
    }
    let size = buffer.len().div_ceil(readers);
    let mut stripes = stripes_of(alloc, buffer, size, place)?;
    thread::scope(thread::scope_env(), rt, |scope| {
        let mut others = stripes.iter_mut();
        let own = others.next();
        for stripe in others {
            let _ = Builder::new().spawn_scoped(scope, move || fill(file, stripe));
        }
        if let Some(stripe) = own {
            fill(file, stripe);
        }
    });
    count_of(&stripes)
}
