//! Runs from feeds to a sink.

ghost use Rattle.std.specs.Prelude.{◌≡◌, ◌<◌, ◌∷◌, [], List, Some, None, IfErr, IfOk, MatchResult, OnOk};
ghost use Rattle.std.specs.Io.KnownBytes.{Appends};
ghost use Rattle.pawk_routes.specs.Limits.{IsCrew};
ghost use Rattle.pawk_code.specs.ProgramViews.{code_view};
ghost use Rattle.pawk_store.specs.Openings.{pairs_of};
ghost use Rattle.pawk_merge_law.specs.Flows.{Turn};
ghost use Rattle.pawk_flow.specs.Begins.{IsStart};
ghost use Rattle.pawk_flow.specs.Operands.{run_over};
ghost use Rattle.pawk_feeds.specs.Feeds.{AreTurnsOf, FlowsTo, WroteSome, operands_of};
ghost use Rattle.pawk_feeds.specs.Streams.{route_from};

use crate::flowed::{Flowed, LastPiece};
use crate::order::Order;
use crate::pace::Pace;
use crate::stream::{Setting, Stream, run_all};
use crate::write::write_on;
use pawk_admit::{Reason, Roles};
use pawk_device::{Sink, Source};
use pawk_flow::{Begun, PieceRefusal, Start, begin_flow, finish_flow};
use pawk_par::{Cutting, Gate, Route, StreamRefusal, Way};
use pawk_records::Separator;
use pawk_sequential::Outcome;
use pawk_window::{Feed, Window};
use std::alloc::{AllocError, Global};
use std::sync::Wait;
use std::thread::Threads;

/// Which way a run went that began with these roles, and at its end has roles or not.
fn route_of(begun: Option<Reason>, runs_in_chunks: bool) -> Route
    ensures { result ≡ route_from begun runs_in_chunks }
{
    match begun {
        Some(reason) => Route::NotAdmitted(reason),
        None => {
            if runs_in_chunks {
                Route::Parallel
            } else {
                Route::Redo
            }
        }
    }
}

/// The roles, or why there are none.
fn parted(roles: Result<Roles, Reason>) -> (Option<Roles>, Option<Reason>)
    ensures { MatchResult roles
        (λ r. (result.0 ≡ Some r) × (result.1 ≡ None))
        (λ e. (result.0 ≡ None) × (result.1 ≡ Some e)) }
{
    match roles {
        Ok(roles) => (Some(roles), None),
        Err(reason) => (None, Some(reason)),
    }
}

/// Writes what a run has left to write, and gives the rest of what it leaves.
fn end_run<K: Sink>(
    sink: &mut K,
    outcome: Outcome,
    route: Route,
    last: Option<LastPiece>,
) -> Result<Flowed, StreamRefusal>
    ensures globals { IfOk result (λ r. r.globals ≡ outcome.globals) }
    ensures specials { IfOk result (λ r. r.specials ≡ outcome.specials) }
    ensures ending { IfOk result (λ r. r.ending ≡ outcome.ending) }
    ensures route { IfOk result (λ r. r.route ≡ route) }
    ensures wrote { OnOk result (Appends (K.taken sink.old) (K.taken sink.new) outcome.output) }
    ensures refused { IfErr result (λ _.
        WroteSome (K.taken sink.old) (K.taken sink.new) outcome.output) }
{
    let Outcome {
        output,
        globals,
        specials,
        ending,
    } = outcome;
    write_on(sink, output.into_parts())?;
    Ok(Flowed {
        globals,
        specials,
        ending,
        route,
        last,
    })
}

/// A vector of one part.
fn one_part(alloc: Global, part: Vec<u8>) -> Result<Vec<Vec<u8>>, AllocError>
    ensures { IfOk result (λ parts. parts.items ≡ part ∷ []) }
{
    let mut parts = Vec::new(alloc);
    parts.push(part)?;
    Ok(parts)
}

/// Runs the records of an order after BEGIN, and END.
fn run_on<S: Source, K: Sink, G: Gate + Sync, R: Threads + Wait>(
    rt: &R,
    alloc: Global,
    order: Order<'_>,
    start: Start,
    feeds: &mut [Feed<'_, S>],
    sink: &mut K,
    gate: &G,
) -> Result<Flowed, StreamRefusal>
    requires workers { IsCrew order.workers }
    requires window { 0 < order.window }
    requires begun { IsStart (code_view order.job.code.now) order.job.budget
        (pairs_of order.assignments.now) (pairs_of order.first.now) start }
    ensures answered { IfOk result (λ r.
        (turns : List Turn) × AreTurnsOf S.left feeds.old turns
        × FlowsTo (code_view order.entry.job.code.now) order.entry.job.budget
        (pairs_of order.entry.assignments.now) (operands_of order.entry turns)
        (K.taken sink.old) (K.taken sink.new) r) }
    ensures refused { IfErr result (λ _.
        (turns : List Turn) × AreTurnsOf S.left feeds.old turns
        × WroteSome (K.taken sink.old) (K.taken sink.new)
        (run_over (code_view order.entry.job.code.now) order.entry.job.budget
        (pairs_of order.entry.assignments.now) (operands_of order.entry turns)).output) }
{
    let Start {
        flow,
        output,
        rs,
        roles,
    } = start;
    write_on(sink, one_part(alloc, output)?)?;
    let cutting = Cutting::AtLeast(order.chunk);
    let setting = Setting {
        alloc,
        job: order.job,
        rs: rs.as_slice(),
        last: order.last,
        way: Way {
            cutting: &cutting,
            workers: order.workers,
        },
    };
    let (roles, reason) = parted(roles);
    let stream = Stream {
        flow,
        roles,
        window: Window::new(alloc, Separator::of(rs.as_slice()), order.window),
        spare: Vec::new(alloc),
        before: 0,
        pace: Pace::new(),
    };
    let (stream, left) = run_all(rt, setting, stream, feeds, sink, gate)?;
    let Stream {
        flow,
        roles,
        window: _,
        spare,
        before,
        pace: _,
    } = stream;
    let outcome = finish_flow(order.job, flow, left)?;
    let last = LastPiece {
        rs,
        fnr: before,
        bytes: spare,
    };
    end_run(sink, outcome, route_of(reason, roles.is_some()), Some(last))
}

/// Runs a program over what feeds give, each as a file, and writes the output to a sink: piece by piece, each of whole records
/// of a file, at most as large as the window or one record. What BEGIN wrote, and the output of a piece, is written, and handed
/// on, before more is read. Where there are several workers records are run in chunks, if the program allows it. Gives what the
/// run leaves beside its output. After `exit`, a fault or `nextfile` nothing more is read of a feed.
///
/// The first assignments are made after BEGIN, where records are read; those of a feed before it is read; the last ones after
/// the last feed, unless the run has ended. A name that the program does not have changes nothing. RS is taken once, after the
/// first assignments.
///
/// There are 1 to 64 workers; one is this thread, and all threads have ended when this returns. The gate is called round each
/// chunk that is run, on its worker's thread.
///
/// `Memory` comes where memory was refused, `Thread` where a worker could not be started, which the gate did not allow, `Read`
/// where a read failed, `Write` where a write failed, and `Input` where more records came than can be counted. What was
/// written then is a beginning of the output.
///
/// POSIX.1-2017, awk, "OPERANDS", "STDIN", "INPUT FILES", "STDOUT" and "Overall Program Structure".
pub fn run_feeds<S: Source, K: Sink, G: Gate + Sync, R: Threads + Wait>(
    rt: &R,
    alloc: Global,
    order: Order<'_>,
    feeds: &mut [Feed<'_, S>],
    sink: &mut K,
    gate: &G,
) -> Result<Flowed, StreamRefusal>
    requires workers { IsCrew order.workers }
    requires window { 0 < order.window }
    ensures answered { IfOk result (λ r.
        (turns : List Turn) × AreTurnsOf S.left feeds.old turns
        × FlowsTo (code_view order.entry.job.code.now) order.entry.job.budget
        (pairs_of order.entry.assignments.now) (operands_of order.entry turns)
        (K.taken sink.old) (K.taken sink.new) r) }
    ensures refused { IfErr result (λ _.
        (turns : List Turn) × AreTurnsOf S.left feeds.old turns
        × WroteSome (K.taken sink.old) (K.taken sink.new)
        (run_over (code_view order.entry.job.code.now) order.entry.job.budget
        (pairs_of order.entry.assignments.now) (operands_of order.entry turns)).output) }
{
    match begin_flow(alloc, order.job, order.assignments, order.first) {
        Ok(Begun::Ended(outcome, route)) => end_run(sink, outcome, route, None),
        Ok(Begun::Flows(start)) => run_on(rt, alloc, order, start, feeds, sink, gate),
        Err(PieceRefusal::Thread) => Err(StreamRefusal::Thread),
        Err(PieceRefusal::Memory) => Err(StreamRefusal::Memory),
        Err(PieceRefusal::Input) => Err(StreamRefusal::Input),
    }
}
