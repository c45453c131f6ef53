//! Whole runs: from a program's text to its output.

ghost use Rattle.std.specs.Prelude.{◌<◌};
ghost use Rattle.pawk_routes.specs.Limits.{IsCrew};

use crate::count::{Beginning, count_records};
use crate::explanations::{Remains, explain_end};
use crate::feeds::{FeedSource, failure_of, hold_feeds, limit_of, open_feeds, traffic_of};
use crate::map::{ShardRun, run_shard};
use pawk_command::command_line::{CommandLine, ShardPlace, Task, Tools};
use pawk_command::deep::Depth;
use pawk_command::held::HeldOutput;
use pawk_command::listing::append_globals;
use pawk_command::reports::{End, RunFailure, UNWRITTEN};
use pawk_command::statistics::{Moment, Statistics, Tally, Timed, Traffic};
use pawk_feeds::{Feed, Flowed, Order, run_feeds};
use pawk_par::{Cutting, Ending, Job, Request, SettingsRefusal, StreamRefusal, Writer, prepare};
use pawk_settings::Assignment;
use pawk_store::Names;
use pawk_syntax::{SyntaxRefusal, parse, show};
use std::alloc::{AllocError, Global};
use std::fs::File;
use std::io::{Read, Write};
use std::rt::{Clock, Files};
use std::sync::Wait;
use std::thread::Threads;
use std::time::Duration;

/// A name, and the text that it is assigned.
pub(crate) type Pair = (Vec<u8>, Vec<u8>);

/// A name and a value: a text is cut at its first `=`, and without one its name is empty.
fn assignment(alloc: Global, text: &str) -> Result<Pair, AllocError> {
    let (name, value) = text.split_once('=').unwrap_or(("", text));
    let name = Vec::from_slice(alloc, name.as_bytes())?;
    Ok((name, Vec::from_slice(alloc, value.as_bytes())?))
}

/// Appends the pairs of these texts.
fn append_pairs(alloc: Global, pairs: &mut Vec<Pair>, texts: &[&str]) -> Result<(), AllocError> {
    for text in texts {
        pairs.push(assignment(alloc, *text)?)?;
    }
    Ok(())
}

/// What is assigned, in the order in which it is looked at: the values of `-v`, FS, and the assignments among the operands.
fn all_assignments(alloc: Global, line: &CommandLine<'_>) -> Result<Vec<Pair>, AllocError> {
    let mut pairs = Vec::new(alloc);
    append_pairs(alloc, &mut pairs, line.assignments.as_slice())?;
    if let Some(text) = line.separator {
        let name = Vec::from_slice(alloc, b"FS")?;
        pairs.push((name, Vec::from_slice(alloc, text.as_bytes())?))?;
    }
    append_pairs(alloc, &mut pairs, line.operands.assignments())?;
    Ok(pairs)
}

/// What is assigned, in the order in which it is looked at: all, or where `RS` is assigned after the first file, which is refused,
/// what comes before it.
pub(crate) fn assignments(alloc: Global, line: &CommandLine<'_>) -> Result<Vec<Pair>, AllocError> {
    let mut pairs = all_assignments(alloc, line)?;
    if let Some(number) = line.late_separator() {
        pairs.truncate(number);
    }
    Ok(pairs)
}

/// What is asked of a run beside its output.
#[derive(Clone, Copy)]
struct Wishes {
    tools: Tools,
    /// Whether its end is explained.
    explains: bool,
}

impl Wishes {
    /// Whether the program and its settings are read, and nothing is run.
    fn run_nothing(self) -> bool {
        self.tools.check || self.tools.show
    }
}

/// A run that is ready: what is asked for, and what is assigned.
#[derive(Clone, Copy)]
struct Ready<'a> {
    wishes: Wishes,
    job: Job<'a>,
    /// What options assign.
    options: &'a [Assignment],
    /// What operands assign.
    operands: &'a [Assignment],
}

impl<'a> Ready<'a> {
    /// The names of the program's globals, by their slots.
    fn names(self) -> Names<'a> {
        Names {
            scalars: self.job.code.scalars.as_slice(),
            arrays: self.job.code.arrays.as_slice(),
            assignments: self.options,
        }
    }
}

/// Appends the lines that follow the report of a run: how it ended, in words, and the final variables.
fn append_more(
    alloc: Global,
    lines: &mut Vec<u8>,
    ready: Ready<'_>,
    flowed: Flowed,
) -> Result<(), AllocError> {
    let tools = ready.wishes.tools;
    let Flowed {
        globals,
        specials,
        ending,
        route,
        last,
    } = flowed;
    if ready.wishes.explains {
        let remains = Remains {
            ending,
            route,
            specials: &specials,
        };
        explain_end(alloc, lines, tools.why, remains, last)?;
    }
    if tools.globals {
        let globals = globals.list(alloc, ready.names(), &specials)?;
        append_globals(lines, globals.as_slice())?;
    }
    Ok(())
}

/// The end of a run that left this.
fn end_of(alloc: Global, ready: Ready<'_>, flowed: Flowed) -> Result<End, AllocError> {
    let (ending, route) = (flowed.ending, flowed.route);
    let mut lines = Vec::new(alloc);
    append_more(alloc, &mut lines, ready, flowed)?;
    Ok(End {
        ending,
        route: Some(route),
        lines,
        statistics: None,
    })
}

/// The feeds of what a program reads: of the files among the operands, or of standard input; none where it reads none.
fn open_input<'a, 'p, R, I>(
    rt: &'a R,
    line: &'a CommandLine<'a>,
    ready: Ready<'p>,
    input: I,
) -> Result<Vec<Feed<'p, FeedSource<'a, R, I>>>, RunFailure<'a>>
where
    R: Files<File = File> + AllocGlobal + Clock,
    I: Drop,
{
    if !ready.job.reads_records() {
        return Ok(Vec::new(rt.alloc()));
    }
    let turns = line.operands.turns(rt.alloc(), ready.operands)?;
    open_feeds(rt, turns.as_slice(), input, usize::from(line.workers))
}

/// Where the output of a run goes: a writer whose writes are timed, and whose bytes may be held.
type Outflow<'o, R, O> = HeldOutput<Timed<'o, R, &'o mut O>>;

/// Runs an order over feeds, and writes its output; where everything is held, it is written when all of it has run.
fn run_order<'d, R, I, O>(
    rt: &'d R,
    order: Order<'_>,
    feeds: &mut [Feed<'_, FeedSource<'d, R, I>>],
    output: &mut Outflow<'_, R, O>,
    gate: &Tally,
    is_held: bool,
) -> Result<Flowed, RunFailure<'d>>
where
    R: Files<File = File> + AllocGlobal + Threads + Wait + Clock + Copy + Send + Drop + 'static,
    I: Read + Copy + Send + Drop + 'static,
    O: Write,
    requires workers { IsCrew order.workers }
    requires window { 0 < order.window }
{
    let alloc = rt.alloc();
    if is_held {
        output.hold(alloc);
    }
    let mut sink = Writer::new(output);
    let answer = run_feeds(rt, alloc, order, feeds, &mut sink, gate);
    let output = sink.inner;
    match answer {
        Ok(flowed) => match output.release() {
            Ok(()) => Ok(flowed),
            Err(_) => Err(RunFailure::from(UNWRITTEN)),
        },
        Err(_) if output.is_refused() => Err(RunFailure::from(StreamRefusal::Memory)),
        Err(refusal) => Err(failure_of(feeds, refusal)),
    }
}

/// Figures of a run that left this, which took this long, with so much of it for writing.
fn statistics_of(
    line: &CommandLine<'_>,
    flowed: &Flowed,
    gate: &Tally,
    input: Traffic,
    writing: Duration,
    time: Duration,
) -> Statistics {
    let chunks = gate.chunks();
    Statistics {
        route: flowed.route,
        workers: if chunks == 0 { 1 } else { line.workers },
        lacking_threads: gate.lacking_threads(),
        chunks,
        records: flowed.specials.nr,
        input,
        writing,
        time,
    }
}

/// Runs what is ready over the files that are named, or over standard input, and writes its output.
fn run_ready<'a, R, I, O>(
    rt: &'a R,
    line: &'a CommandLine<'a>,
    ready: Ready<'_>,
    input: I,
    output: &mut O,
) -> Result<End, RunFailure<'a>>
where
    R: Files<File = File> + AllocGlobal + Threads + Wait + Clock + Copy + Send + Drop + 'static,
    I: Read + Copy + Send + Drop + 'static,
    O: Write,
{
    let alloc = rt.alloc();
    let start = Moment::now(rt);
    let mut feeds = open_input(rt, line, ready, input)?;
    let feeds = feeds.as_mut_slice();
    let size = limit_of(feeds);
    let is_held = hold_feeds(alloc, feeds, line.held_for(line.window_for(size)))?;
    let window = line.run_window_for(size, ready.job.code.expressions.len());
    let order = Order {
        job: ready.job,
        assignments: ready.options,
        first: line.operands.first(ready.operands),
        last: line.operands.last(ready.operands),
        chunk: line.chunk_for(window),
        workers: usize::from(line.workers),
        window,
    };
    let gate = Tally::new();
    let mut output = HeldOutput::new(Timed::new(rt, output));
    let flowed = run_order(rt, order, feeds, &mut output, &gate, is_held)?;
    let writing = output.writer().traffic().time;
    let time = Moment::now(rt).since(start);
    let statistics = statistics_of(line, &flowed, &gate, traffic_of(feeds), writing, time);
    let mut end = end_of(alloc, ready, flowed)?;
    if line.tools.statistics {
        end.statistics = Some(statistics);
    }
    Ok(end)
}

/// The canonical text of a program.
fn canonical(alloc: Global, text: &[u8]) -> Result<Vec<u8>, StreamRefusal> {
    match parse(alloc, text) {
        Ok(program) => Ok(show(alloc, &program)?),
        Err(SyntaxRefusal::Memory) => Err(StreamRefusal::Memory),
        Err(why) => Err(StreamRefusal::Program(why)),
    }
}

/// Writes the canonical text of a program that was read, where that is asked for, and runs nothing.
fn check<O: Write>(
    alloc: Global,
    tools: Tools,
    text: &[u8],
    output: &mut O,
) -> Result<End, StreamRefusal> {
    if tools.show
        && output
            .write_all(canonical(alloc, text)?.as_slice())
            .is_err()
    {
        return Err(UNWRITTEN);
    }
    Ok(End::of(alloc, Ending::Status(0)))
}

/// Runs what is ready over a shard, the files that are named or standard input, and writes its table.
fn map_ready<'a, R, I, O>(
    rt: &'a R,
    line: &'a CommandLine<'a>,
    ready: Ready<'_>,
    text: &[u8],
    place: ShardPlace,
    input: I,
    output: &mut O,
) -> Result<End, RunFailure<'a>>
where
    R: Files<File = File> + AllocGlobal + Threads + Wait + Clock + Copy + Send + Drop + 'static,
    I: Read + Copy + Send + Drop + 'static,
    O: Write,
{
    let program = canonical(rt.alloc(), text)?;
    let run = ShardRun {
        job: ready.job,
        program: program.as_slice(),
        options: ready.options,
        operands: ready.operands,
        place,
    };
    run_shard(rt, line, run, input, output)
}

/// Writes how many records the files have that are named, or standard input, where what is ready reads them.
fn count_ready<'a, R, I, O>(
    rt: &'a R,
    line: &'a CommandLine<'a>,
    ready: Ready<'_>,
    input: I,
    output: &mut O,
) -> Result<End, RunFailure<'a>>
where
    R: Files<File = File> + AllocGlobal + Threads + Wait + Clock + Copy + Send + Drop + 'static,
    I: Read + Copy + Send + Drop + 'static,
    O: Write,
{
    let mut feeds = open_input(rt, line, ready, input)?;
    let beginning = Beginning {
        job: ready.job,
        options: ready.options,
        first: line.operands.first(ready.operands),
    };
    count_records(rt.alloc(), line, beginning, feeds.as_mut_slice(), output)
}

/// Does with the program of a request what is asked for: reads it alone, or runs it over the files that are named, or where
/// there are none over standard input, and writes its output. A program with functions is refused on a flat stack.
fn run_request<'a, R, I, O>(
    rt: &'a R,
    line: &'a CommandLine<'a>,
    request: Request<'_>,
    wishes: Wishes,
    input: I,
    output: &mut O,
) -> Result<End, RunFailure<'a>>
where
    R: Files<File = File> + AllocGlobal + Threads + Wait + Clock + Copy + Send + Drop + 'static,
    I: Read + Copy + Send + Drop + 'static,
    O: Write,
{
    let (code, settings) = prepare(rt.alloc(), &request)?;
    if line.late_separator().is_some() {
        return Err(RunFailure::from(StreamRefusal::Settings(SettingsRefusal::Target)));
    }
    if wishes.run_nothing() {
        return Ok(check(rt.alloc(), wishes.tools, request.text, output)?);
    }
    if line.host.depth == Depth::Flat && !code.functions.is_empty() {
        return Err(RunFailure::from(StreamRefusal::Thread));
    }
    let assigned = settings.assignments();
    let (options, operands) = assigned.split_at(line.option_count().min(assigned.len()));
    let job = Job {
        code: &code,
        budget: request.budget,
        seed: request.seed,
    };
    let ready = Ready {
        wishes,
        job,
        options,
        operands,
    };
    match line.task {
        Task::Map(place) => map_ready(rt, line, ready, request.text, place, input, output),
        Task::Count => count_ready(rt, line, ready, input, output),
        _ => run_ready(rt, line, ready, input, output),
    }
}

/// Does with the program of this text what is asked for: reads it alone, or runs it over the files that are
/// named, or where there are none over standard input, and writes its output.
pub(crate) fn run_whole<'a, R, I, O>(
    rt: &'a R,
    line: &'a CommandLine<'a>,
    text: &[u8],
    explains: bool,
    input: I,
    output: &mut O,
) -> Result<End, RunFailure<'a>>
where
    R: Files<File = File> + AllocGlobal + Threads + Wait + Clock + Copy + Send + Drop + 'static,
    I: Read + Copy + Send + Drop + 'static,
    O: Write,
{
    let assigns = assignments(rt.alloc(), line)?;
    let cutting = Cutting::AtLeast(line.chunk_for(1));
    let request = Request {
        text,
        assigns: assigns.as_slice(),
        budget: line.steps,
        cutting: &cutting,
        workers: usize::from(line.workers),
        seed: line.host.seed,
    };
    let wishes = Wishes {
        tools: line.tools,
        explains,
    };
    run_request(rt, line, request, wishes, input, output)
}
