//! Workers that a test starts itself, over a board of two seats: two threads, or one worker whose memory may be refused.
//!
//! Each step of what they begin with is a function that owns one value and ends with it.

ghost use Rattle.std.specs.Prelude.{◌≡◌, ◌≤◌, [], ◌∷◌, length, IfOk};
ghost use Rattle.pawk_board.specs.Limits.{most_chunks};
ghost use Rattle.pawk_board.specs.Views.{fresh};
ghost use Rattle.pawk_input.specs.Input.{IsReady, files_of};
ghost use Rattle.pawk_input.specs.Plan.{IsPlanOf};
ghost use Rattle.pawk_chunks.specs.Task.{IsChunked, IsTask};

use crate::boards::two_seats;
use crate::fixtures::{code_of, job_of, one_file};
use crate::gates::{Holding, Until, seen_by};
use pawk_admit::{Roles, admit};
use pawk_board::BoardSeat;
use pawk_code::program::Code;
use pawk_input::{Input, Plan};
use pawk_par::{ChunkResult, Chunked, Gate, Left, Opening, StreamRefusal, Task, work};
use pawk_store::{Globals, RecordState, Seed};
use std::alloc::{AllocError, Global};
use std::sync::atomic::{AtomicU64, Ordering};
use std::test::Fail;
use std::thread;
use std::thread::Threads;

/// Who works.
#[derive(Clone, Copy)]
enum Crew {
    /// A worker on this thread.
    One,
    /// A worker for each seat, on threads of their own.
    Two,
}

/// The number and the line of the one chunk that each of two workers ran, where it was one.
type Lines = (Option<(u64, u8)>, Option<(u64, u8)>);

/// A plan with a chunk for each line; memory is refused for too many.
fn plan_of_lines(alloc: Global, input: &Input) -> Result<Plan, AllocError>
    requires { IsReady (10 ∷ []) input.now }
    ensures plan { IfOk result (λ p. IsPlanOf (10 ∷ []) (files_of input.now) p) }
    ensures few { IfOk result (λ p. length p ≤ most_chunks) }
{
    match Plan::by_size(alloc, input, b"\n", 1) {
        Ok(plan) => Ok(plan),
        Err(_) => Err(AllocError),
    }
}

/// The number of the one chunk that a worker ran, and whether it was left through with an output of this byte and a newline.
fn only_line(results: &Result<Vec<(u64, ChunkResult<'_>)>, AllocError>) -> Option<(u64, u8)> {
    match results {
        Ok(results) => match results.as_slice() {
            [(chunk, result)] => match (result.left, result.output.as_slice()) {
                (Left::Through, [byte, b'\n']) => Some((*chunk, *byte)),
                _ => None,
            },
            _ => None,
        },
        Err(_) => None,
    }
}

/// The work of one thread: the number and the line of the one chunk that it ran.
fn work_alone<G: Gate>(
    alloc: Global,
    task: Task<'_, '_>,
    mut seat: BoardSeat,
    gate: &G,
) -> Option<(u64, u8)>
    requires task { IsTask task }
    requires seat { seat ≡ fresh task.board.now.id }
{
    only_line(&work(alloc, &task, &mut seat, gate))
}

/// A board of two seats, and a thread for each of them: what each worker ran.
fn both_work<G: Gate + Sync, R: AllocGlobal + Threads>(
    rt: &R,
    opening: Opening<'_, '_>,
    source: Chunked<'_, '_>,
    gate: &G,
) -> Result<Lines, AllocError>
    requires source { IsChunked source }
    requires few { length source.plan.now ≤ most_chunks }
{
    let alloc = rt.alloc();
    let (board, a, b) = two_seats(alloc, source.plan.len() as u64)?;
    let task = Task {
        opening,
        source,
        board: &board,
    };
    Ok(thread::join(
        rt,
        move || work_alone(alloc, task, a, gate),
        move || work_alone(alloc, task, b, gate),
    ))
}

/// The work of one worker, whose results are dropped.
fn work_here<G: Gate>(
    alloc: Global,
    task: Task<'_, '_>,
    mut seat: BoardSeat,
    gate: &G,
) -> Result<Lines, AllocError>
    requires task { IsTask task }
    requires seat { seat ≡ fresh task.board.now.id }
{
    match work(alloc, &task, &mut seat, gate) {
        Ok(_) => Ok((None, None)),
        Err(error) => Err(error),
    }
}

/// A board of two seats, one of them for a worker on this thread.
fn one_works<G: Gate>(
    alloc: Global,
    opening: Opening<'_, '_>,
    source: Chunked<'_, '_>,
    gate: &G,
) -> Result<Lines, AllocError>
    requires source { IsChunked source }
    requires few { length source.plan.now ≤ most_chunks }
{
    let (board, seat, _) = two_seats(alloc, source.plan.len() as u64)?;
    let task = Task {
        opening,
        source,
        board: &board,
    };
    work_here(alloc, task, seat, gate)
}

/// What a crew runs over a source with globals of its own.
fn lines_of_state<G: Gate + Sync, R: AllocGlobal + Threads>(
    rt: &R,
    code: &Code,
    roles: &Roles,
    state: &RecordState<'_>,
    source: Chunked<'_, '_>,
    gate: &G,
    crew: Crew,
) -> Result<Lines, AllocError>
    requires source { IsChunked source }
    requires few { length source.plan.now ≤ most_chunks }
{
    let alloc = rt.alloc();
    let names = code.scalars.as_slice();
    let globals = Globals::open(alloc, Seed::new(0), names, code.arrays.len(), &[])?;
    let opening = Opening {
        job: job_of(code),
        globals: &globals,
        roles,
        state,
    };
    match crew {
        Crew::One => one_works(alloc, opening, source, gate),
        Crew::Two => both_work(rt, opening, source, gate),
    }
}

/// What a crew runs over a source with a record state of its own.
fn lines_of_roles<G: Gate + Sync, R: AllocGlobal + Threads>(
    rt: &R,
    code: &Code,
    roles: &Roles,
    source: Chunked<'_, '_>,
    gate: &G,
    crew: Crew,
) -> Result<Lines, AllocError>
    requires source { IsChunked source }
    requires few { length source.plan.now ≤ most_chunks }
{
    let state = RecordState::new(rt.alloc(), code.rules.len())?;
    lines_of_state(rt, code, roles, &state, source, gate, crew)
}

/// What a crew runs over a source; memory is refused for a program that may not run in chunks.
fn lines_of_source<G: Gate + Sync, R: AllocGlobal + Threads>(
    rt: &R,
    code: &Code,
    source: Chunked<'_, '_>,
    gate: &G,
    crew: Crew,
) -> Result<Lines, AllocError>
    requires source { IsChunked source }
    requires few { length source.plan.now ≤ most_chunks }
{
    match admit(rt.alloc(), code) {
        Ok(roles) => lines_of_roles(rt, code, &roles, source, gate, crew),
        Err(_) => Err(AllocError),
    }
}

/// What a crew runs over an input, each line a chunk.
fn lines_of_input<G: Gate + Sync, R: AllocGlobal + Threads>(
    rt: &R,
    code: &Code,
    input: &Input,
    gate: &G,
    crew: Crew,
) -> Result<Lines, AllocError>
    requires { IsReady (10 ∷ []) input.now }
{
    let plan = plan_of_lines(rt.alloc(), input)?;
    let source = Chunked {
        input,
        plan: &plan,
        rs: b"\n",
    };
    lines_of_source(rt, code, source, gate, crew)
}

/// What a crew runs over the bytes of a file, each line a chunk.
fn lines_of_bytes<G: Gate + Sync, R: AllocGlobal + Threads>(
    rt: &R,
    code: &Code,
    bytes: &[u8],
    gate: &G,
    crew: Crew,
) -> Result<Lines, AllocError> {
    let input = one_file(rt.alloc(), bytes)?;
    lines_of_input(rt, code, &input, gate, crew)
}

/// What a crew runs of a program's text over the bytes of a file, each line a chunk.
fn lines_of<G: Gate + Sync, R: AllocGlobal + Threads>(
    rt: &R,
    text: &[u8],
    bytes: &[u8],
    gate: &G,
    crew: Crew,
) -> Result<Lines, StreamRefusal> {
    let code = code_of(rt.alloc(), text)?;
    match lines_of_bytes(rt, &code, bytes, gate, crew) {
        Ok(lines) => Ok(lines),
        Err(_) => Err(StreamRefusal::Memory),
    }
}

// Two threads of the test's own, each with a seat: each runs one chunk, and the gate is lent its output.
#[test]
fn two_threads_work(rt: HostRuntime) -> Result<(), Fail> {
    let gate = Holding::new(&rt, 0, 1, Until::Entered);
    let lines = lines_of(&rt, b"{ print $1 }", b"5\n7\n", &gate, Crew::Two)?;
    let (zero, one) = (Some((0, b'5')), Some((1, b'7')));
    assert!(rt; seen_by(&gate) == (0, 2, 3, 3));
    assert!(rt; lines == (zero, one) || lines == (one, zero));
    assert!(rt; gate.lent() == 0x3702_3502);
    Ok(())
}

/// Counts chunks. Only the one that entered last can leave, and once.
#[derive(Drop)]
struct Tally {
    /// The number after that of the chunk that entered last, or 0 where it has left.
    inside: AtomicU64,
    enters: AtomicU64,
    leaves_with: AtomicU64,
    leaves_without: AtomicU64,
}

impl Tally {
    fn new() -> Tally {
        Tally {
            inside: AtomicU64::new(0),
            enters: AtomicU64::new(0),
            leaves_with: AtomicU64::new(0),
            leaves_without: AtomicU64::new(0),
        }
    }

    /// How many chunks entered, how many left with their output, and how many without.
    fn told(&self) -> (u64, u64, u64) {
        (
            self.enters.load(Ordering::SeqCst),
            self.leaves_with.load(Ordering::SeqCst),
            self.leaves_without.load(Ordering::SeqCst),
        )
    }

    /// Whether all have left.
    fn is_even(&self) -> bool {
        let (enters, leaves_with, leaves_without) = self.told();
        leaves_with.wrapping_add(leaves_without) == enters
    }
}

impl Gate for Tally {
    fn enter(&self, chunk: u64) {
        self.inside.store(chunk.wrapping_add(1), Ordering::SeqCst);
        self.enters.fetch_add(1, Ordering::SeqCst);
    }

    fn leave(&self, chunk: u64, output: Option<&[u8]>) {
        if self.inside.swap(0, Ordering::SeqCst) != chunk.wrapping_add(1) {
            return;
        }
        let counter = match output {
            Some([_, ..]) => &self.leaves_with,
            Some([]) => return,
            None => &self.leaves_without,
        };
        counter.fetch_add(1, Ordering::SeqCst);
    }
}

/// Whether the gate of one worker that runs `{ print $0 }` over lines is told that so many chunks entered, left with their
/// output, and left without. Where memory is refused all that entered must have left.
fn is_told<R: AllocGlobal + Threads>(
    rt: &R,
    lines: &[u8],
    told: (u64, u64, u64),
) -> Result<bool, StreamRefusal> {
    let gate = Tally::new();
    match lines_of(rt, b"{ print $0 }", lines, &gate, Crew::One) {
        Ok(_) => Ok(gate.told() == told),
        Err(_) if !gate.is_even() => Ok(false),
        Err(why) => Err(why),
    }
}

// A worker tells its gate of each chunk, also where memory is refused to it: tests/memory/crates runs this test, each time with
// one of its requests for memory refused, and it must then pass, or report that.
#[test]
fn a_worker_tells_its_gate(rt: HostRuntime) -> Result<(), Fail> {
    assert!(rt; is_told(&rt, b"1\n2\n3\n", (3, 3, 0))?, "three lines");
    let one = b"one chunk, of which no newline ends the line";
    assert!(rt; is_told(&rt, one, (1, 1, 0))?, "one line");
    assert!(rt; is_told(&rt, b"", (0, 0, 0))?, "nothing");
    Ok(())
}
