//! What several tests need. Each function has one owned value at most where it can return early, and ends with it.

ghost use Rattle.std.specs.Prelude.{◌≤◌, [], ◌∷◌, IfOk};
ghost use Rattle.pawk_board.specs.Limits.{IsCrew};
ghost use Rattle.pawk_input.specs.Input.{IsReady};
ghost use Rattle.pawk_routes.specs.Cuttings.{IsSized};

use pawk_code::program::Code;
use pawk_input::Input;
use pawk_par::{
    Cutting, Ending, Gate, Job, Outcome, Place, Refusal, Request, Route, Seed, StreamRefusal, Way,
    prepare, run,
};
use pawk_value::Fault;
use std::alloc::{AllocError, Global};
use std::sync::Wait;
use std::thread::Threads;

/// The program that adds up the first field.
pub(crate) const SUM: &[u8] = b"{ n += $1 } END { print n }";

/// An input of one file without a name; memory is refused for one that is too large.
pub(crate) fn one_file(alloc: Global, bytes: &[u8]) -> Result<Input, AllocError>
    ensures { IfOk result (λ input. IsReady (10 ∷ []) input) }
{
    let bytes = Vec::from_slice(alloc, bytes)?;
    match Input::new(vec![in alloc; (Vec::new(alloc), bytes)]?) {
        Ok(input) => Ok(input),
        Err(_) => Err(AllocError),
    }
}

/// The request of a run of a text by two workers.
pub(crate) fn request_of<'a>(text: &'a [u8], budget: u64, cutting: &'a Cutting) -> Request<'a> {
    Request {
        text,
        assigns: &[],
        budget,
        cutting,
        workers: 2,
        seed: Seed::new(0),
    }
}

/// The code of a program's text.
pub(crate) fn code_of(alloc: Global, text: &[u8]) -> Result<Code, StreamRefusal> {
    let (code, _) = prepare(alloc, &request_of(text, 1000, &Cutting::Size(1)))?;
    Ok(code)
}

/// A program with 1,000 steps for each record.
pub(crate) fn job_of(code: &Code) -> Job<'_> {
    Job {
        code,
        budget: 1000,
        seed: Seed::new(0),
    }
}

/// Whether these parts are a text.
fn are_text(parts: &[Vec<u8>], text: &[u8]) -> bool {
    let mut rest = text;
    for part in parts {
        match rest.strip_prefix(part.as_slice()) {
            Some(more) => rest = more,
            None => return false,
        }
    }
    rest.is_empty()
}

/// Whether a run ended with this status, or with this fault at the record of this number.
fn is_ending(ending: Ending, wanted: Result<u8, (Fault, u64)>) -> bool {
    match (ending, wanted) {
        (Ending::Status(status), Ok(wanted)) => status == wanted,
        (Ending::Fault(fault, Place::Record(number)), Err(wanted)) => (fault, number) == wanted,
        _ => false,
    }
}

/// What a run shows: its output, the status with which it ends, or else the fault and the number of its record, and the way it
/// went.
#[derive(Clone, Copy)]
pub(crate) struct RunOutcome<'t> {
    pub(crate) output: &'t [u8],
    pub(crate) ending: Result<u8, (Fault, u64)>,
    pub(crate) route: Route,
}

/// What a run shows that ends with status 0 and went in chunks.
pub(crate) fn chunks_show(output: &[u8]) -> RunOutcome<'_> {
    RunOutcome {
        output,
        ending: Ok(0),
        route: Route::Parallel,
    }
}

/// Whether a run that went this way showed this.
fn is_shown(outcome: &Outcome, route: Route, shown: RunOutcome<'_>) -> bool {
    are_text(outcome.output.parts(), shown.output)
        && is_ending(outcome.ending, shown.ending)
        && route == shown.route
}

/// Whether a program shows this over these bytes: not where the cutting is refused.
fn job_shows<R, G>(
    rt: &R,
    job: Job<'_>,
    bytes: &[u8],
    way: Way<'_>,
    gate: &G,
    shown: RunOutcome<'_>,
) -> Result<bool, StreamRefusal>
where
    R: AllocGlobal + Threads + Wait,
    G: Gate + Sync,
    requires sized { IsSized way.cutting.now }
    requires workers { IsCrew way.workers }
{
    let alloc = rt.alloc();
    let mut input = one_file(alloc, bytes)?;
    match run(rt, alloc, job, &[], &mut input, way, gate) {
        Ok((outcome, report)) => Ok(is_shown(&outcome, report.route, shown)),
        Err(Refusal::Cutting) => Ok(false),
        Err(why) => Err(StreamRefusal::from(why)),
    }
}

/// Whether a program's text shows this over these bytes, with 1,000 steps for each record: not where the cutting is refused.
pub(crate) fn runs<R, G>(
    rt: &R,
    text: &[u8],
    bytes: &[u8],
    way: Way<'_>,
    gate: &G,
    shown: RunOutcome<'_>,
) -> Result<bool, StreamRefusal>
where
    R: AllocGlobal + Threads + Wait,
    G: Gate + Sync,
    requires sized { IsSized way.cutting.now }
    requires workers { IsCrew way.workers }
{
    let code = code_of(rt.alloc(), text)?;
    job_shows(rt, job_of(&code), bytes, way, gate, shown)
}

/// Whether a program's text shows this over these bytes, cut into chunks of one byte or more.
pub(crate) fn shows<R, G>(
    rt: &R,
    text: &[u8],
    bytes: &[u8],
    workers: usize,
    gate: &G,
    shown: RunOutcome<'_>,
) -> Result<bool, StreamRefusal>
where
    R: AllocGlobal + Threads + Wait,
    G: Gate + Sync,
    requires { IsCrew workers }
{
    let cutting = Cutting::Size(1);
    let way = Way {
        cutting: &cutting,
        workers,
    };
    runs(rt, text, bytes, way, gate, shown)
}
