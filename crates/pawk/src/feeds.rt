//! The feeds of the input, and what comes of each.

use pawk_command::device::{Device, failure_by};
use pawk_command::held::HeldInput;
use pawk_command::operands::FileTurn;
use pawk_command::reports::RunFailure;
use pawk_command::script::STANDARD_INPUT;
use pawk_command::statistics::{Timed, Traffic};
use pawk_feeds::Feed;
use pawk_par::{Reader, StreamRefusal};
use pawk_settings::Assignment;
use std::alloc::{AllocError, Global};
use std::fs::File;
use std::io::Read;
use std::rt::{Clock, Files};
use std::sync::Wait;
use std::thread::Threads;

/// How many files are open at most before they are read; the others are opened again where their turn comes.
const OPEN: usize = 256;

/// Where as many bytes come of standard input by its first read, more is to be expected: what programs write to a pipe at once.
const MANY: usize = 4_096;

/// What a feed of the input comes from: a device whose reads are timed, and of which bytes may be held.
pub(crate) type FeedSource<'d, R, I> = Reader<HeldInput<Timed<'d, R, Device<'d, R, I>>>>;

/// The feed of a device. In the program standard input has no name.
fn feed<'d, 'p, R: Clock + AllocGlobal, I: Drop>(
    rt: &'d R,
    before: &'p [Assignment],
    device: Device<'d, R, I>,
) -> Result<Feed<'p, FeedSource<'d, R, I>>, AllocError> {
    let name = match device.name() {
        STANDARD_INPUT => "",
        name => name,
    };
    Ok(Feed {
        before,
        name: Vec::from_slice(rt.alloc(), name.as_bytes())?,
        source: Reader::new(HeldInput::new(rt.alloc(), Timed::new(rt, device))),
    })
}

/// The feeds of these files, in order, of which `-` is standard input: where it comes again, it is at its end. Each file is
/// looked at; the first that cannot be read is reported. A regular file is read by at most `readers` threads.
///
/// POSIX.1-2017, awk, "OPERANDS" and "STDIN".
pub(crate) fn open_feeds<'d, 'p, R, I>(
    rt: &'d R,
    turns: &[FileTurn<'d, 'p>],
    input: I,
    readers: usize,
) -> Result<Vec<Feed<'p, FeedSource<'d, R, I>>>, RunFailure<'d>>
where
    R: Files<File = File> + AllocGlobal + Clock,
    I: Drop,
{
    let alloc = rt.alloc();
    let mut feeds = Vec::with_capacity(alloc, turns.len())?;
    let mut standard = Some(input);
    for (number, turn) in turns.iter().enumerate() {
        let device = if turn.name == STANDARD_INPUT {
            Device::standard(rt, standard.take())
        } else {
            match Device::open(rt, turn.name, readers, number < OPEN) {
                Ok(device) => device,
                Err(error) => return Err(RunFailure::read(turn.name, &error)),
            }
        };
        feeds.push(feed(rt, turn.before, device)?)?;
    }
    Ok(feeds)
}

/// Reads of the feeds in order what is to be there before the run: regular files as long as they have no more than `most` bytes
/// in all, and of the first other feed what one read gives; or everything, where `most` is the greatest number. Where much comes of
/// standard input, a thread reads it ahead. Gives whether it was everything, of one feed or more.
pub(crate) fn hold_feeds<'d, R, I>(
    alloc: Global,
    feeds: &mut [Feed<'_, FeedSource<'d, R, I>>],
    most: usize,
) -> Result<bool, RunFailure<'d>>
where
    R: Files<File = File> + AllocGlobal + Threads + Wait + Clock + Copy + Send + Drop + 'static,
    I: Read + Copy + Send + Drop + 'static,
{
    let mut room = most;
    for feed in feeds.iter_mut() {
        let input = &mut feed.source.inner;
        let reads_on = most == usize::MAX || input.device().device().limit() <= room as u64;
        let is_ended = match input.hold(alloc, reads_on) {
            Ok(is_ended) => is_ended,
            Err(error) => return Err(failure_by(input.device().device().name(), error.kind())),
        };
        if !is_ended {
            if input.size() >= MANY {
                input.device_mut().device_mut().read_ahead();
            }
            return Ok(false);
        }
        room = room.saturating_sub(input.size());
    }
    Ok(!feeds.is_empty())
}

/// Why a run over these feeds failed that was refused so: with the name of the file that could not be read.
pub(crate) fn failure_of<'d, R: Clock, I>(
    feeds: &[Feed<'_, FeedSource<'d, R, I>>],
    refusal: StreamRefusal,
) -> RunFailure<'d> {
    if let StreamRefusal::Read = refusal {
        for feed in feeds {
            if let Some(failure) = feed.source.inner.device().device().failure() {
                return failure;
            }
        }
    }
    RunFailure::Refused(refusal)
}

/// How many bytes these feeds have at most, in all.
pub(crate) fn limit_of<R: Clock, I>(feeds: &[Feed<'_, FeedSource<'_, R, I>>]) -> u64 {
    let mut sum: u64 = 0;
    for feed in feeds {
        sum = sum.saturating_add(feed.source.inner.device().device().limit());
    }
    sum
}

/// What came of these feeds, in all.
pub(crate) fn traffic_of<R: Clock, I>(feeds: &[Feed<'_, FeedSource<'_, R, I>>]) -> Traffic {
    let mut sum = Traffic::NONE;
    for feed in feeds {
        sum = sum.and(feed.source.inner.device().traffic());
    }
    sum
}
