//! The records of a shard, piece by piece.

ghost use Rattle.std.specs.Prelude.{◌≡◌, ◌+◌, ◌++◌, List, None, length, IfOk};
ghost use Rattle.pawk_records.specs.Records.{records_by};
ghost use Rattle.pawk_input.specs.Input.{File};
ghost use Rattle.pawk_pieces.specs.Pieces.{piece_items, piece_records};
ghost use Rattle.pawk_window.specs.Feeds.{IsFileOf};
ghost use Rattle.pawk_map.specs.Maps.{Adds, AreFilesOf, ReadsOn, Tells, held_items};
ghost use Rattle.pawk_map.specs.Maps.{numbered_in, records_of};
ghost use Rattle.pawk_map.specs.Readings.{IsUsable, ground_of};

use crate::apart::{Setting, run_apart};
use crate::cut::part_last;
use crate::draft::{Course, Draft, Held, Progress, held_of};
use crate::refusal::MapRefusal;
use crate::run::{Run, write_apart};
use pawk_chunks::Gate;
use pawk_device::{Sink, Source};
use pawk_pieces::Piece;
use pawk_records::Separator;
use pawk_window::{Feed, Window};
use std::sync::Wait;
use std::thread::Threads;

/// What stays the same from piece to piece.
#[derive(Clone, Copy)]
pub(crate) struct Reading<'p> {
    pub setting: Setting<'p>,
    /// The bytes of `RS`, at most one.
    pub rs: &'p [u8],
    /// How many records the shards before have.
    pub before: u64,
}

/// A run over a shard whose records are to come, with the buffers that they come into.
#[derive(Drop)]
pub(crate) struct Stream {
    pub draft: Draft,
    pub window: Window,
    /// The bytes of the piece that was run last.
    pub spare: Vec<u8>,
}

/// Runs a piece apart, and writes the lines that tell of it.
fn run_piece<K: Sink, G: Gate + Sync, R: Threads + Wait>(
    rt: &R,
    reading: Reading<'_>,
    progress: Progress,
    piece: Piece<'_>,
    sink: &mut K,
    gate: &G,
) -> Result<Run, MapRefusal>
    requires usable { IsUsable reading }
    requires by_rs { piece.rs.now ≡ reading.rs.now }
    ensures tells { IfOk result (λ run. Tells (ground_of reading.entry)
        (K.taken sink.old) (K.taken sink.new) progress (piece_items piece.entry)
        run.course run.progress) }
    ensures counted { IfOk result (λ run. run.records ≡ length (piece_records piece.entry)) }
{
    let name = piece.name;
    let before = progress
        .records
        .checked_add(reading.before)
        .ok_or(MapRefusal::Input)?;
    let apart = run_apart(rt, reading.setting, before, piece, gate)?;
    write_apart(reading.setting.alloc, progress, name, apart, sink)
}

/// Runs the record that is held back, if there is one, as a part of its own.
fn run_held<K: Sink, G: Gate + Sync, R: Threads + Wait>(
    rt: &R,
    reading: Reading<'_>,
    progress: Progress,
    held: Option<Held>,
    sink: &mut K,
    gate: &G,
) -> Result<(Progress, Course), MapRefusal>
    requires usable { IsUsable reading }
    ensures { IfOk result (λ r. Tells (ground_of reading.entry)
        (K.taken sink.old) (K.taken sink.new) progress
        (held_items reading.entry.rs.now held) r.1 r.0) }
{
    match held {
        Some(Held { name, fnr, bytes }) => {
            let piece = Piece {
                rs: reading.rs,
                name: &name,
                fnr,
                bytes,
            };
            let run = run_piece(rt, reading, progress, piece, sink, gate)?;
            Ok((run.progress, run.course))
        }
        None => Ok((progress, Course::On)),
    }
}

/// A piece was added to a draft.
#[derive(Drop)]
struct Added {
    draft: Draft,
    course: Course,
    /// How many records of their file have come, where more are run.
    fnr: u64,
    /// Bytes of the piece, whose memory the next one may use.
    bytes: Vec<u8>,
}

/// Adds records of a file, and the last one that came with them, to a draft that holds back none: runs the records before the
/// last one apart, and holds that one back.
fn hold_last<K: Sink, G: Gate + Sync, R: Threads + Wait>(
    rt: &R,
    reading: Reading<'_>,
    progress: Progress,
    piece: Piece<'_>,
    last: Vec<u8>,
    sink: &mut K,
    gate: &G,
) -> Result<Added, MapRefusal>
    requires usable { IsUsable reading }
    requires by_rs { piece.rs.now ≡ reading.rs.now }
    ensures adds { IfOk result (λ added. Adds (ground_of reading.entry)
        (K.taken sink.old) (K.taken sink.new) (record { progress = progress; held = None })
        (numbered_in piece.entry.name.now piece.entry.fnr
        (piece_records piece.entry ++ records_by reading.entry.rs.now last.items))
        added.course added.draft) }
    ensures counted { IfOk result (λ added. added.fnr ≡ piece.entry.fnr
        + length (piece_records piece.entry ++ records_by reading.entry.rs.now last.items)) }
{
    let (name, fnr) = (piece.name, piece.fnr);
    let Run {
        progress,
        course,
        records,
        bytes,
    } = run_piece(rt, reading, progress, piece, sink, gate)?;
    let before = fnr.checked_add(records).ok_or(MapRefusal::Input)?;
    let count = Separator::of(reading.rs).count_records(&last) as u64;
    let fnr = before.checked_add(count).ok_or(MapRefusal::Input)?;
    let held = held_of(reading.setting.alloc, course, name, before, last)?;
    Ok(Added {
        draft: Draft { progress, held },
        course,
        fnr,
        bytes,
    })
}

/// Adds a piece to a draft: runs the record that is held back apart, then the records of the piece before the last one, and holds
/// that one back. A piece without a record changes nothing. Where one of the two does not go through, the rest is left unread.
fn add_piece<K: Sink, G: Gate + Sync, R: Threads + Wait>(
    rt: &R,
    reading: Reading<'_>,
    draft: Draft,
    piece: Piece<'_>,
    sink: &mut K,
    gate: &G,
) -> Result<Added, MapRefusal>
    requires usable { IsUsable reading }
    requires by_rs { piece.rs.now ≡ reading.rs.now }
    ensures adds { IfOk result (λ added. Adds (ground_of reading.entry)
        (K.taken sink.old) (K.taken sink.new) draft
        (numbered_in piece.entry.name.now piece.entry.fnr (piece_records piece.entry))
        added.course added.draft) }
    ensures counted { IfOk result (λ added. added.course ≡ Course.On →
        added.fnr ≡ piece.entry.fnr + length (piece_records piece.entry)) }
{
    let Piece {
        rs,
        name,
        fnr,
        bytes,
    } = piece;
    let separator = Separator::of(rs);
    let (bytes, last) = part_last(reading.setting.alloc, separator, bytes)?;
    if bytes.is_empty() && separator.count_records(&last) == 0 {
        return Ok(Added {
            draft,
            course: Course::On,
            fnr,
            bytes,
        });
    }
    let Draft { progress, held } = draft;
    let (progress, course) = run_held(rt, reading, progress, held, sink, gate)?;
    match course {
        Course::On => {
            let piece = Piece {
                rs,
                name,
                fnr,
                bytes,
            };
            hold_last(rt, reading, progress, piece, last, sink, gate)
        }
        Course::Over => Ok(Added {
            draft: Draft {
                progress,
                held: None,
            },
            course,
            fnr,
            bytes,
        }),
    }
}

/// Reads the next piece of a feed, of which so many records came before, and adds it. Gives the course, and how many records of
/// the file have come.
fn step<S: Source, K: Sink, G: Gate + Sync, R: Threads + Wait>(
    rt: &R,
    reading: Reading<'_>,
    stream: Stream,
    fnr: u64,
    feed: &mut Feed<'_, S>,
    sink: &mut K,
    gate: &G,
) -> Result<(Stream, Course, u64), MapRefusal>
    requires usable { IsUsable reading }
    requires by_rs { stream.window.rs ≡ reading.rs.now }
    ensures reads { IfOk result (λ r. ReadsOn (ground_of reading.entry)
        (S.left feed.old.source) (S.left feed.new.source) (K.taken sink.old) (K.taken sink.new)
        feed.old.name.items stream fnr r.1 r.0 r.2) }
    ensures by_rs { IfOk result (λ r. r.0.window.rs ≡ reading.entry.rs.now) }
    ensures name { feed.new.name ≡ feed.old.name }
{
    let Stream {
        draft,
        window,
        spare,
    } = stream;
    let mut window = window;
    let piece = Piece {
        rs: reading.rs,
        name: feed.name.as_slice(),
        fnr,
        bytes: window.next_records(spare, &mut feed.source)?,
    };
    let Added {
        draft,
        course,
        fnr,
        bytes,
    } = add_piece(rt, reading, draft, piece, sink, gate)?;
    let stream = Stream {
        draft,
        window,
        spare: bytes,
    };
    Ok((stream, course, fnr))
}

/// Adds the records of a feed, to its end, or to where no more are run.
fn add_feed<S: Source, K: Sink, G: Gate + Sync, R: Threads + Wait>(
    rt: &R,
    reading: Reading<'_>,
    stream: Stream,
    feed: &mut Feed<'_, S>,
    sink: &mut K,
    gate: &G,
) -> Result<(Stream, Course), MapRefusal>
    requires usable { IsUsable reading }
    requires by_rs { stream.window.rs ≡ reading.rs.now }
    ensures adds { IfOk result (λ r. (file : File) × IsFileOf S.left feed.old file
        × Adds (ground_of reading.entry) (K.taken sink.old) (K.taken sink.new) stream.draft
        (numbered_in file.name 0 (records_by reading.entry.rs.now file.bytes)) r.1 r.0.draft) }
    ensures by_rs { IfOk result (λ r. r.0.window.rs ≡ reading.entry.rs.now) }
{
    let mut stream = stream;
    stream.window.clear();
    let mut fnr = 0;
    for _ in 0..u64::MAX {
        let (next, course, count) = step(rt, reading, stream, fnr, feed, sink, gate)?;
        stream = next;
        fnr = count;
        match course {
            Course::On => {
                if stream.window.is_ended() {
                    return Ok((stream, Course::On));
                }
            }
            Course::Over => return Ok((stream, Course::Over)),
        }
    }
    Err(MapRefusal::Input)
}

/// Adds the records of all feeds in order, up to where no more are run.
pub(crate) fn add_all<S: Source, K: Sink, G: Gate + Sync, R: Threads + Wait>(
    rt: &R,
    reading: Reading<'_>,
    stream: Stream,
    feeds: &mut [Feed<'_, S>],
    sink: &mut K,
    gate: &G,
) -> Result<(Stream, Course), MapRefusal>
    requires usable { IsUsable reading }
    requires by_rs { stream.window.rs ≡ reading.rs.now }
    ensures { IfOk result (λ r. (files : List File) × AreFilesOf S.left feeds.old files
        × Adds (ground_of reading.entry) (K.taken sink.old) (K.taken sink.new) stream.draft
        (records_of reading.entry.rs.now files) r.1 r.0.draft) }
{
    let mut stream = stream;
    for feed in feeds.iter_mut() {
        let (next, course) = add_feed(rt, reading, stream, feed, sink, gate)?;
        stream = next;
        match course {
            Course::On => {}
            Course::Over => return Ok((stream, Course::Over)),
        }
    }
    Ok((stream, Course::On))
}
