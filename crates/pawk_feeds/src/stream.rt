//! The run of the feeds of an order.

ghost use Rattle.std.specs.Prelude.{◌≡◌, List, IfOk, IfErr, IfSome};
ghost use Rattle.pawk_code.specs.ProgramViews.{code_view};
ghost use Rattle.pawk_input.specs.Input.{File};
ghost use Rattle.pawk_admit.specs.Roles.{roles_view};
ghost use Rattle.pawk_store.specs.LeftViews.{left_view};
ghost use Rattle.pawk_merge_law.specs.Phases.{FaultsOrCreates, MayRun};
ghost use Rattle.pawk_flow.specs.Pieces.{GoesInChunks, RunsPiece, phase_between, piece_items};
ghost use Rattle.pawk_merge_law.specs.Flows.{Turn};
ghost use Rattle.pawk_feeds.specs.Feeds.{AreTurnsOf, WroteSome};
ghost use Rattle.pawk_window.specs.Feeds.{IsFileOf};
ghost use Rattle.pawk_feeds.specs.Streams.{IsReady, IsUsable, RefusesIn, RunsFile, RunsFiles, RunsOn, Tells, course_of, is_over, with_file, with_turns};

use crate::law::{routes_go_on, runs_go_on};
use crate::pace::Pace;
use crate::reading::next_records;
use crate::write::write_on;
use pawk_admit::Roles;
use pawk_device::{Sink, Source};
use pawk_flow::{
    Flow, Piece, PieceEnd, PieceRefusal, assign, assignments_keep_ready, run_piece_in_chunks,
    run_piece_in_turn, run_piece_noting,
};
use pawk_par::{Cutting, Gate, StreamRefusal, Way};
use pawk_sequential::{Job, Left};
use pawk_settings::Assignment;
use pawk_window::{Feed, Window};
use std::alloc::Global;
use std::sync::Wait;
use std::thread::Threads;

/// What stays the same from piece to piece.
#[derive(Clone, Copy)]
pub(crate) struct Setting<'p> {
    pub alloc: Global,
    pub job: Job<'p>,
    /// The bytes of `RS`, at most one.
    pub rs: &'p [u8],
    /// What is assigned after the last file.
    pub last: &'p [Assignment],
    /// How chunks are cut, and how many workers there are.
    pub way: Way<'p>,
}

/// A run whose records are to come, with the buffers that they come into.
#[derive(Drop)]
pub(crate) struct Stream {
    pub flow: Flow,
    /// What the records do with each global, where the next piece is run in chunks.
    pub roles: Option<Roles>,
    pub window: Window,
    /// The bytes of the piece that was run last.
    pub spare: Vec<u8>,
    /// How many records of its file came before that piece.
    pub before: u64,
    /// Whether the next piece is run in chunks, where it may be.
    pub pace: Pace,
}

/// The refusal of a run for a piece that was not run.
fn refusal_of_piece(refusal: PieceRefusal) -> StreamRefusal {
    match refusal {
        PieceRefusal::Memory => StreamRefusal::Memory,
        PieceRefusal::Thread => StreamRefusal::Thread,
        PieceRefusal::Input => StreamRefusal::Input,
    }
}

/// Runs a piece of a program that may run in chunks: by several workers in chunks, unless the pace says otherwise; else by one
/// worker in turn, which finds out whether all chunks could be merged.
fn run_admitted_piece<G: Gate + Sync, R: Threads + Wait>(
    rt: &R,
    setting: Setting<'_>,
    flow: Flow,
    roles: &Roles,
    piece: Piece<'_>,
    pace: Pace,
    gate: &G,
) -> Result<(Flow, PieceEnd), PieceRefusal>
    requires usable { IsUsable setting }
    requires by_rs { piece.rs.now ≡ setting.rs.now }
    requires ready { MayRun (phase_between
        (code_view setting.job.code.now) (roles_view roles.now) setting.job.budget flow) }
    ensures runs { IfOk result (λ r. RunsPiece (code_view setting.entry.job.code.now)
        setting.entry.job.budget piece.entry flow r.0 r.1) }
    ensures goes { IfOk result (λ r. GoesInChunks (code_view setting.entry.job.code.now)
        (roles_view roles.now) setting.entry.job.budget piece.entry flow r.0 r.1.is_stopped) }
{
    let Setting { job, way, .. } = setting;
    if way.workers > 1 && pace.is_in_chunks() {
        run_piece_in_chunks(rt, job, flow, roles, piece, way, gate)
    } else {
        run_piece_noting(job, flow, roles, piece)
    }
}

/// Runs a piece: where there are roles as a program that may run in chunks; they then stay unless a chunk could not be merged.
fn run_piece<G: Gate + Sync, R: Threads + Wait>(
    rt: &R,
    setting: Setting<'_>,
    flow: Flow,
    roles: Option<Roles>,
    piece: Piece<'_>,
    pace: Pace,
    gate: &G,
) -> Result<(Flow, Option<Roles>, PieceEnd), StreamRefusal>
    requires usable { IsUsable setting }
    requires by_rs { piece.rs.now ≡ setting.rs.now }
    requires ready { IfSome roles (λ roles. MayRun (phase_between
        (code_view setting.job.code.now) (roles_view roles) setting.job.budget flow)) }
    ensures runs { IfOk result (λ r. RunsPiece (code_view setting.entry.job.code.now)
        setting.entry.job.budget piece.entry flow r.0 r.2) }
    ensures ready { IfOk result (λ r. IfSome r.1 (λ roles. MayRun (phase_between
        (code_view setting.entry.job.code.now) (roles_view roles) setting.entry.job.budget r.0))) }
    ensures tells { IfOk result (λ r. Tells (λ roles. FaultsOrCreates (phase_between
        (code_view setting.entry.job.code.now) (roles_view roles) setting.entry.job.budget flow)
        (piece_items piece.entry)) (λ roles. ⊥) roles r.1) }
{
    match roles {
        Some(roles) => match run_admitted_piece(rt, setting, flow, &roles, piece, pace, gate) {
            Ok((flow, end)) => {
                let roles = if end.is_stopped { None } else { Some(roles) };
                Ok((flow, roles, end))
            }
            Err(refusal) => Err(refusal_of_piece(refusal)),
        },
        None => match run_piece_in_turn(setting.job, flow, piece) {
            Ok((flow, end)) => Ok((flow, None, end)),
            Err(refusal) => Err(refusal_of_piece(refusal)),
        },
    }
}

/// What a piece leaves: how its last record was left, and how many records of its file have come.
#[derive(Clone, Copy)]
struct Progress {
    left: Left,
    fnr: u64,
}

/// Reads the next piece of a feed, of which so many records came before, runs it, and writes its output.
fn step<S: Source, K: Sink, G: Gate + Sync, R: Threads + Wait>(
    rt: &R,
    setting: Setting<'_>,
    stream: Stream,
    fnr: u64,
    feed: &mut Feed<'_, S>,
    sink: &mut K,
    gate: &G,
) -> Result<(Stream, Progress), StreamRefusal>
    requires usable { IsUsable setting }
    requires ready { IsReady (course_of setting) stream }
    ensures ran { IfOk result (λ r. RunsOn (course_of setting.entry)
        (S.left feed.old.source) (S.left feed.new.source) (K.taken sink.old) (K.taken sink.new)
        feed.old.name.items stream fnr (left_view r.1.left) r.0 r.1.fnr) }
    ensures ready { IfOk result (λ r. IsReady (course_of setting.entry) r.0) }
    ensures name { feed.new.name ≡ feed.old.name }
    ensures refused { IfErr result (λ _. RefusesIn (course_of setting.entry)
        (S.left feed.old.source) (K.taken sink.old) (K.taken sink.new)
        feed.old.name.items stream fnr) }
{
    runs_go_on();
    routes_go_on();
    let Stream {
        flow,
        roles,
        window,
        spare,
        before: _,
        pace,
    } = stream;
    let mut window = window;
    let piece = Piece {
        rs: setting.rs,
        name: feed.name.as_slice(),
        fnr,
        bytes: next_records(&mut window, spare, &mut feed.source)?,
    };
    let (flow, roles, end) = run_piece(rt, setting, flow, roles, piece, pace, gate)?;
    let pace = pace.after(&end, end.fnr.saturating_sub(fnr), setting.way.cutting);
    let PieceEnd {
        outputs,
        left,
        fnr: now_fnr,
        bytes,
        is_stopped: _,
        noted: _,
    } = end;
    write_on(sink, outputs)?;
    let stream = Stream {
        flow,
        roles,
        window,
        spare: bytes,
        before: fnr,
        pace,
    };
    Ok((stream, Progress { left, fnr: now_fnr }))
}

/// Runs a feed to its end, or to where the run ends; `nextfile` leaves the rest of it unread.
fn run_feed<S: Source, K: Sink, G: Gate + Sync, R: Threads + Wait>(
    rt: &R,
    setting: Setting<'_>,
    stream: Stream,
    feed: &mut Feed<'_, S>,
    sink: &mut K,
    gate: &G,
) -> Result<(Stream, Left), StreamRefusal>
    requires usable { IsUsable setting }
    requires ready { IsReady (course_of setting) stream }
    ensures ran { IfOk result (λ r. (file : File) × IsFileOf S.left feed.old file
        × RunsFile (course_of setting.entry) (K.taken sink.old) (K.taken sink.new)
        file stream (left_view r.1) r.0) }
    ensures ready { IfOk result (λ r. IsReady (course_of setting.entry) r.0) }
    ensures refused { IfErr result (λ _. (file : File) × IsFileOf S.left feed.old file
        × ((ts : List Turn) → WroteSome (K.taken sink.old) (K.taken sink.new)
        (with_file (course_of setting.entry) stream.flow file ts).output)) }
{
    let mut stream = stream;
    stream.window.clear();
    let mut fnr = 0;
    for _ in 0..u64::MAX {
        let (next, progress) = step(rt, setting, stream, fnr, feed, sink, gate)?;
        stream = next;
        match progress.left {
            Left::Through => {
                if stream.window.is_ended() {
                    return Ok((stream, Left::Through));
                }
            }
            left => return Ok((stream, left)),
        }
        fnr = progress.fnr;
    }
    Err(StreamRefusal::Input)
}

/// Whether no record is read after a part that is left so.
fn is_end(left: Left) -> bool
    ensures { result ≡ is_over (left_view left) }
{
    match left {
        Left::Through | Left::NextFile => false,
        Left::Exit(_) | Left::Fault(_) | Left::Clash => true,
    }
}

/// Runs all feeds in order, each after its assignments, up to one in which the run ends; else makes the last assignments.
pub(crate) fn run_all<S: Source, K: Sink, G: Gate + Sync, R: Threads + Wait>(
    rt: &R,
    setting: Setting<'_>,
    stream: Stream,
    feeds: &mut [Feed<'_, S>],
    sink: &mut K,
    gate: &G,
) -> Result<(Stream, Left), StreamRefusal>
    requires usable { IsUsable setting }
    requires ready { IsReady (course_of setting) stream }
    ensures ran { IfOk result (λ r. (turns : List Turn) × AreTurnsOf S.left feeds.old turns
        × RunsFiles (course_of setting.entry) (K.taken sink.old) (K.taken sink.new)
        turns stream (left_view r.1) r.0) }
    ensures refused { IfErr result (λ _. (turns : List Turn) × AreTurnsOf S.left feeds.old turns
        × WroteSome (K.taken sink.old) (K.taken sink.new)
        (with_turns (course_of setting.entry) stream.flow turns).output) }
{
    assignments_keep_ready();
    let mut stream = stream;
    for feed in feeds.iter_mut() {
        assign(setting.job, &mut stream.flow.globals, feed.before)?;
        let (next, left) = run_feed(rt, setting, stream, feed, sink, gate)?;
        stream = next;
        if is_end(left) {
            return Ok((stream, left));
        }
    }
    assign(setting.job, &mut stream.flow.globals, setting.last)?;
    Ok((stream, Left::Through))
}
