//! Runs from a source to a sink.

ghost use Rattle.std.specs.Prelude.{IfOk, IfErr};
ghost use Rattle.pawk_routes.specs.Limits.{IsCrew};
ghost use Rattle.pawk_routes.specs.Cuttings.{IsSized};
ghost use Rattle.pawk_par.specs.Streams.{Answers, WhyRefused, devices};

use crate::preparing::prepare;
use crate::reading::read_input;
use crate::refusal::StreamRefusal;
use crate::request::Request;
use crate::writing::write_output;
use pawk_device::{Sink, Source};
use pawk_threads::{Ending, Gate, Job, Outcome, Report, Way, run};
use std::alloc::Global;
use std::sync::Wait;
use std::thread::Threads;

/// Runs a program's text over what a source gives, as one file without a name, and writes the output to a
/// sink, part by part. Gives how the run ended, and which way it went: output, ending and way are those of
/// [`run`]. The program's input is empty, and nothing is read, where it has neither a main rule nor END.
///
/// A size of a cutting is 1 or more, and there are 1 to 64 workers. All threads have ended when this
/// returns. The gate is called round each chunk that is run, on its worker's thread.
///
/// Refusals, in the order in which they are met: `Program` where the text is refused, with its cause and
/// place; `Settings` where an assignment or the budget is refused, the first at fault; `Read` where a read
/// failed, `Input` where the source has more than 4,611,686,018,427,387,904 bytes; `Cutting` where the
/// records may be run in chunks and the cutting has no plan, `Thread` where a worker could not be started, which the
/// gate did not allow;
/// `Write` where a write failed or took nothing, after some bytes; and at any time `Memory` where memory
/// was refused. Nothing was written, but with `Write`; nothing was read with `Program` and `Settings`.
///
/// POSIX.1-2017, awk, "OPTIONS" (-v), "STDIN", "STDOUT" and "Overall Program Structure".
pub fn run_streams<S: Source, K: Sink, G: Gate + Sync, R: Threads + Wait>(
    rt: &R,
    alloc: Global,
    request: &Request<'_>,
    source: &mut S,
    sink: &mut K,
    gate: &G,
) -> Result<(Ending, Report), StreamRefusal>
    requires sized { IsSized request.now.cutting.now }
    requires workers { IsCrew request.now.workers }
    ensures answered { IfOk result (λ r. Answers request.now
        (devices (S.left source.old) (S.failures source.old)
        (K.taken sink.old) (K.failures sink.old))
        (devices (S.left source.new) (S.failures source.new)
        (K.taken sink.new) (K.failures sink.new))
        r.0 r.1) }
    ensures refused { IfErr result (WhyRefused request.now
        (devices (S.left source.old) (S.failures source.old)
        (K.taken sink.old) (K.failures sink.old))
        (devices (S.left source.new) (S.failures source.new)
        (K.taken sink.new) (K.failures sink.new))) }
{
    let (code, settings) = prepare(alloc, request)?;
    let job = Job {
        code: &code,
        budget: request.budget,
        seed: request.seed,
    };
    let mut input = read_input(alloc, job, source)?;
    let way = Way {
        cutting: request.cutting,
        workers: request.workers,
    };
    let assignments = settings.assignments();
    let (outcome, report) = run(rt, alloc, job, assignments, &mut input, way, gate)?;
    let Outcome {
        output,
        globals: _,
        specials: _,
        ending,
    } = outcome;
    write_output(sink, output)?;
    Ok((ending, report))
}
