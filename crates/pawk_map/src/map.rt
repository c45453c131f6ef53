//! A run over a shard.

ghost use Rattle.std.specs.Prelude.{◌≡◌, ◌<◌, [], ℕ, List, None, All, IfOk};
ghost use Rattle.std.specs.Io.KnownBytes.{Appends};
ghost use Rattle.sha2.specs.Hashers.{Holds256};
ghost use Rattle.sha2.specs.declared.Sha256.{Sha256 as SpecDigest};
ghost use Rattle.pawk_records.specs.Separator.{rs_of};
ghost use Rattle.pawk_code.specs.ProgramViews.{code_view};
ghost use Rattle.pawk_input.specs.Input.{File};
ghost use Rattle.pawk_store.specs.Openings.{pairs_of};
ghost use Rattle.pawk_board.specs.Limits.{IsCrew};
ghost use Rattle.pawk_lines.specs.Lines.{IsLine};
ghost use Rattle.pawk_parts.specs.Parts.{all_bytes};
ghost use Rattle.pawk_tables.specs.Layout.{header_lines};
ghost use Rattle.pawk_pieces.specs.Begins.{IsStart};
ghost use Rattle.pawk_map.specs.Maps.{AreFilesOf, Writes};
ghost use Rattle.pawk_map.specs.Orders.{IsEmptyFile, IsFileFrom, IsMapOf, WritesAll};
ghost use Rattle.pawk_map.specs.Orders.{header_in};
ghost use Rattle.pawk_map.specs.Readings.{IsUsable, ground_of};

use crate::apart::Setting;
use crate::draft::{Course, Draft, Progress, keep_held};
use crate::mapped::Mapped;
use crate::order::MapOrder;
use crate::refusal::MapRefusal;
use crate::stream::{Reading, Stream, add_all};
use crate::write::{end_file, write_lines};
use pawk_chunks::Gate;
use pawk_device::{Sink, Source};
use pawk_pieces::{Begun, Flow, Start, begin_flow};
use pawk_records::Separator;
use pawk_routes::{Cutting, Way};
use pawk_tables::laws::files_are_written;
use pawk_tables::{Header, push_header};
use pawk_window::{Feed, Window};
use sha2::{Digest, Sha256};
use std::alloc::Global;
use std::sync::Wait;
use std::thread::Threads;

/// Writes the header of the table file of an order, and gives the digest of what was written.
///
/// `Write` comes where a write failed, `Memory` where memory was refused.
fn write_header<K: Sink>(
    alloc: Global,
    order: MapOrder<'_>,
    sink: &mut K,
) -> Result<Sha256, MapRefusal>
    ensures wrote { IfOk result (λ digest. (old : SpecDigest) × Holds256 old []
        × Writes (K.taken sink.old) (K.taken sink.new) old digest
        (all_bytes (header_lines (header_in order.entry)))) }
    ensures lines { IfOk result (λ _. All IsLine (header_lines (header_in order.entry))) }
{
    let mut digest = Sha256::new();
    let mut lines = Vec::new(alloc);
    let header = Header {
        program: order.program,
        budget: order.job.budget,
        assignments: order.assignments,
        shard: order.shard,
        before: order.before,
        first: order.first,
    };
    push_header(&mut lines, &header)?;
    write_lines(sink, &mut digest, &lines)?;
    Ok(digest)
}

/// Writes the file of a shard of which no record is read.
fn map_nothing<K: Sink>(
    alloc: Global,
    order: MapOrder<'_>,
    sink: &mut K,
) -> Result<Mapped, MapRefusal>
    ensures { IfOk result (λ mapped. (bytes : List ℕ)
        × Appends (K.taken sink.old) (K.taken sink.new) bytes
        × IsEmptyFile order.entry bytes mapped) }
{
    files_are_written();
    let digest = write_header(alloc, order, sink)?;
    end_file(alloc, digest, 0, sink)?;
    Ok(Mapped {
        records: 0,
        is_left: false,
    })
}

/// A run over a shard before its first record, of which so much was written; its window has so many bytes.
fn stream_of(alloc: Global, digest: Sha256, separator: Separator, window: usize) -> Stream
    requires window { 0 < window }
    ensures digest { result.draft.progress.digest ≡ digest }
    ensures name { result.draft.progress.name.items ≡ [] }
    ensures records { result.draft.progress.records ≡ 0 }
    ensures held { result.draft.held ≡ None }
    ensures by_rs { result.window.rs ≡ rs_of separator }
{
    let progress = Progress {
        digest,
        name: Vec::new(alloc),
        records: 0,
    };
    Stream {
        draft: Draft {
            progress,
            held: None,
        },
        window: Window::new(alloc, separator, window),
        spare: Vec::new(alloc),
    }
}

/// Writes the file of a shard from its records on, after a header of which this is the digest, and ends it; the window has so many
/// bytes.
fn map_records<S: Source, K: Sink, G: Gate + Sync, R: Threads + Wait>(
    rt: &R,
    reading: Reading<'_>,
    digest: Sha256,
    window: usize,
    feeds: &mut [Feed<'_, S>],
    sink: &mut K,
    gate: &G,
) -> Result<Mapped, MapRefusal>
    requires usable { IsUsable reading }
    requires window { 0 < window }
    ensures { IfOk result (λ mapped. (files : List File) × AreFilesOf S.left feeds.old files
        × WritesAll (ground_of reading.entry) (K.taken sink.old) (K.taken sink.new)
        digest files mapped) }
{
    let alloc = reading.setting.alloc;
    let stream = stream_of(alloc, digest, Separator::of(reading.rs), window);
    let (stream, course) = add_all(rt, reading, stream, feeds, sink, gate)?;
    let progress = keep_held(alloc, reading.rs, stream.draft, sink)?;
    let records = progress.records;
    end_file(alloc, progress.digest, records, sink)?;
    Ok(Mapped {
        records,
        is_left: matches!(course, Course::Over),
    })
}

/// Writes the file of a shard of an order after BEGIN, where records are read.
fn map_on<S: Source, K: Sink, G: Gate + Sync, R: Threads + Wait>(
    rt: &R,
    order: MapOrder<'_>,
    start: Start,
    feeds: &mut [Feed<'_, S>],
    sink: &mut K,
    gate: &G,
) -> Result<Mapped, MapRefusal>
    requires workers { IsCrew order.workers }
    requires window { 0 < order.window }
    requires begun { IsStart (code_view order.job.code.now) order.job.budget
        (pairs_of order.assignments.now) (pairs_of order.first.now) start }
    ensures { IfOk result (λ mapped. (files : List File) × AreFilesOf S.left feeds.old files
        × (bytes : List ℕ) × Appends (K.taken sink.old) (K.taken sink.new) bytes
        × IsFileFrom order.entry files bytes mapped start) }
{
    files_are_written();
    let Start {
        flow,
        output: _,
        rs,
        roles,
    } = start;
    let roles = match roles {
        Ok(roles) => roles,
        Err(reason) => return Err(MapRefusal::NotAdmitted(reason)),
    };
    let Flow {
        alloc,
        globals,
        state: kept,
    } = flow;
    let mut kept = kept;
    let state = kept.lend();
    let cutting = Cutting::AtLeast(order.chunk);
    let reading = Reading {
        setting: Setting {
            alloc,
            job: order.job,
            globals: &globals,
            roles: &roles,
            state: &state,
            way: Way {
                cutting: &cutting,
                workers: order.workers,
            },
        },
        rs: &rs,
        before: order.before,
    };
    let digest = write_header(alloc, order, sink)?;
    map_records(rt, reading, digest, order.window, feeds, sink, gate)
}

/// Runs a program over a shard of an input, which feeds give, each as a file, and writes a table file of it to a sink: for each
/// part of the shard's records that was run apart, over the globals that BEGIN left, what it wrote and what it noted of the
/// globals; and the last record as bytes. The parts are chunks of pieces, each of whole records of a file, at most as large as the
/// window or one record; the lines of a piece are written before more is read. BEGIN is run, and what it writes is left out. What
/// is assigned before a feed is left out, too.
///
/// Where a part does not go through, as after `exit`, its piece is kept as bytes, and nothing more is read.
///
/// There are 1 to 64 workers; one is this thread, and all threads have ended when this returns. The gate is called round each
/// chunk that is run, on its worker's thread.
///
/// `NotAdmitted` comes where the records may not be run in chunks, and nothing was written then; `Memory` where memory was
/// refused, `Thread` where a worker could not be started, which the gate did not allow, `Read` where a read failed, `Write` where
/// a write failed, `Input` where more records came than can be counted, and `Damage` where something was noted that no line can
/// say. What was written then is no whole table file.
///
/// POSIX.1-2017, awk, "OPERANDS", "STDIN", "INPUT FILES" and "Overall Program Structure".
pub fn map_feeds<S: Source, K: Sink, G: Gate + Sync, R: Threads + Wait>(
    rt: &R,
    alloc: Global,
    order: MapOrder<'_>,
    feeds: &mut [Feed<'_, S>],
    sink: &mut K,
    gate: &G,
) -> Result<Mapped, MapRefusal>
    requires workers { IsCrew order.workers }
    requires window { 0 < order.window }
    ensures { IfOk result (λ mapped. (files : List File) × AreFilesOf S.left feeds.old files
        × (bytes : List ℕ) × Appends (K.taken sink.old) (K.taken sink.new) bytes
        × IsMapOf order.entry files bytes mapped) }
{
    match begin_flow(alloc, order.job, order.assignments, order.first)? {
        Begun::Ended(_, _) => map_nothing(alloc, order, sink),
        Begun::Flows(start) => map_on(rt, order, start, feeds, sink, gate),
    }
}
