//! What the words of the command line ask for.

ghost use Rattle.std.specs.Prelude.{◌<◌, ◌≤◌};

use crate::base64_line::TableForm;
use crate::host::Host;
use crate::operands::Operands;
use crate::options::definition;
use clap::error::ErrorKind;
use clap::{ArgMatches, Command, Error};
use pawk_tables::Shard;
use std::alloc::{AllocError, Global};
use std::io::IsTerminal;

/// How many workers there are where `-j` does not say.
const WORKERS: u8 = 4;

/// The greatest size of a chunk in bytes where `-c` does not say.
const CHUNK: u64 = 4_194_304;

/// The least size of a chunk in bytes where `-c` does not say.
const SMALL_CHUNK: u64 = 262_144;

/// How many bytes of a file are run at once at most where `-w` does not say.
const WINDOW: u64 = 16_777_216;

/// How many bytes of an input of known size are run at once at least where `-w` does not say.
const SMALL_WINDOW: u64 = 1_048_576;

/// How many bytes are run at once that a processor's cache holds.
const CACHED_WINDOW: usize = 262_144;

/// How many steps BEGIN, each record and END may take where `-s` does not say.
const STEPS: u64 = 10_000_000;

/// Where the program's text is.
#[derive(Drop)]
pub enum ProgramSource<'a> {
    /// In the words.
    Word(&'a str),
    /// In the files of these names, one after the other.
    Files(Vec<&'a str>),
    /// In the tables that are merged, or nowhere, since none is run.
    Elsewhere,
}

/// When causes are explained in words.
#[derive(Clone, Copy)]
pub enum Explaining {
    Always,
    Never,
    /// Where standard error is a terminal.
    OnTerminal,
}

/// Where a shard lies in the input, and how its table is written.
#[derive(Clone, Copy)]
pub struct ShardPlace {
    /// Which shard of how many, where that is said.
    pub shard: Option<Shard>,
    /// How many records the shards before it have.
    pub before: u64,
    pub form: TableForm,
}

/// What is done with the program and the files.
#[derive(Clone, Copy)]
pub enum Task {
    /// The program is run over them.
    Run,
    /// The program is run over them as a shard of an input, and its table is written.
    Map(ShardPlace),
    /// The records that it would read are counted.
    Count,
    /// They are tables of shards, which are merged.
    Merge,
    /// They are tables of neighbouring shards, which are joined to one of this form.
    Join(TableForm),
    /// They are tables, and what they say is written in words.
    ShowTables,
    /// There is one file, which is cut in so many shards.
    Cut(u64),
}

/// What is reported beside the output, and what is done in place of a run.
#[derive(Clone, Copy)]
pub struct Tools {
    /// Whether the route is reported.
    pub why: bool,
    pub explaining: Explaining,
    /// Whether the program and its settings are read, and nothing is run.
    pub check: bool,
    /// Whether the canonical text of the program is written, and nothing is run.
    pub show: bool,
    /// Whether the final variables are reported.
    pub globals: bool,
    /// Whether figures of the run are reported.
    pub statistics: bool,
}

impl Tools {
    /// Whether causes are explained on these errors.
    pub fn explains<E: IsTerminal>(self, errors: &E) -> bool {
        match self.explaining {
            Explaining::Always => true,
            Explaining::Never => false,
            Explaining::OnTerminal => errors.is_terminal(),
        }
    }
}

/// What the words of the command line ask for, and what the run takes of its host.
#[derive(Drop)]
pub struct CommandLine<'a> {
    pub program: ProgramSource<'a>,
    /// The values of `-v`, each a name and a value with `=` between.
    pub assignments: Vec<&'a str>,
    /// The value of `-F`.
    pub separator: Option<&'a str>,
    /// How many steps BEGIN, each record and END may take.
    pub steps: u64,
    pub task: Task,
    /// The files, and what is assigned before, between and after them.
    pub operands: Operands<'a>,
    /// How many workers there are.
    pub workers: u8,
    /// The size of a chunk in bytes, where `-c` says it.
    chunk: Option<u64>,
    /// How many bytes of a file are run at once at most, where `-w` says it.
    window: Option<u64>,
    /// Whether the input is read whole before it is run, and the output is held.
    is_whole: bool,
    /// How many bytes of memory the run may have, where `-m` says it.
    pub memory: Option<u64>,
    pub host: Host,
    pub tools: Tools,
    ghost some: { 1 ≤ workers },
    ghost few: { workers ≤ 64 },
}

impl<'a> CommandLine<'a> {
    /// How many assignments are made by options.
    pub fn option_count(&self) -> usize {
        let separators = usize::from(self.separator.is_some());
        self.assignments.len().saturating_add(separators)
    }

    /// The number of the first assignment to `RS` after the first file, counted from 0 among those of options and operands.
    pub fn late_separator(&self) -> Option<usize> {
        let number = self.operands.late_separator()?;
        Some(self.option_count().saturating_add(number))
    }

    /// How many bytes of a file are run at once at most, of an input that has at most this size: a quarter of it, where `-w`
    /// does not say.
    pub fn window_for(&self, size: u64) -> usize
        ensures { 0 < result }
    {
        match self.window {
            Some(bytes) => bytes.clamp(1, 1_073_741_824) as usize,
            None => (size / 4).clamp(SMALL_WINDOW, WINDOW) as usize,
        }
    }

    /// How many bytes of a file are run at once at most by a program with so many regular expressions. One worker takes few, where
    /// `-w` does not say: a window costs it nothing but a matcher for each expression.
    pub fn run_window_for(&self, size: u64, expressions: usize) -> usize
        ensures { 0 < result }
    {
        if self.workers == 1 && expressions == 0 && self.window.is_none() {
            return CACHED_WINDOW;
        }
        self.window_for(size)
    }

    /// The size of a chunk in bytes in windows of this size: the share of a worker, where `-c` does not say.
    pub fn chunk_for(&self, window: usize) -> u64 {
        match self.chunk {
            Some(bytes) => bytes.max(1),
            None => (window as u64 / u64::from(self.workers)).clamp(SMALL_CHUNK, CHUNK),
        }
    }

    /// Up to how many bytes the input is read whole before it is run, and the output is held, in windows of this size.
    pub fn held_for(&self, window: usize) -> usize {
        if self.is_whole { usize::MAX } else { window }
    }
}

/// Whether an option's value is written in digits alone.
fn is_plain(matches: &ArgMatches<'_>, id: &str) -> bool {
    match matches.get_str(id) {
        Some(text) => text.bytes().all(|byte| byte.is_ascii_digit()),
        None => true,
    }
}

/// The number that digits alone spell, if it is at least 1.
fn ordinal(text: &str) -> Option<u64> {
    if !text.bytes().all(|byte| byte.is_ascii_digit()) {
        return None;
    }
    match text.parse::<u64>() {
        Ok(number) if number > 0 => Some(number),
        _ => None,
    }
}

/// The shard that `number/of` says.
fn shard_of(text: &str) -> Option<Shard> {
    let (number, of) = text.split_once('/')?;
    let (number, of) = (ordinal(number)?, ordinal(of)?);
    if number > of {
        return None;
    }
    Some(Shard {
        first: number,
        last: number,
        of,
    })
}

/// How a table is to be written.
fn form_of(matches: &ArgMatches<'_>) -> TableForm {
    if matches.get_flag("line") {
        TableForm::Line
    } else {
        TableForm::Bytes
    }
}

/// The run over a shard that is asked for; nothing where its number is no shard.
fn map_task(matches: &ArgMatches<'_>) -> Option<Task> {
    let shard = match matches.get_str("shard") {
        Some(text) => Some(shard_of(text)?),
        None => None,
    };
    Some(Task::Map(ShardPlace {
        shard,
        before: matches.get_one::<u64>("before").unwrap_or(0),
        form: form_of(matches),
    }))
}

/// Whether there is an option that says where a shard lies.
fn places_shard(matches: &ArgMatches<'_>) -> bool {
    matches.get_str("shard").is_some() || matches.get_one::<u64>("before").is_some()
}

/// The task that an option names alone, if one does.
fn named_task(matches: &ArgMatches<'_>) -> Option<Task> {
    if matches.get_flag("map") {
        return map_task(matches);
    }
    if matches.get_flag("join") {
        return Some(Task::Join(form_of(matches)));
    }
    if matches.get_flag("merge") {
        return Some(Task::Merge);
    }
    if matches.get_flag("count") {
        return Some(Task::Count);
    }
    if matches.get_flag("show-table") {
        return Some(Task::ShowTables);
    }
    matches.get_one::<u64>("shards").map(Task::Cut)
}

/// How many options name a task.
fn task_count(matches: &ArgMatches<'_>) -> usize {
    let names = ["map", "join", "merge", "count", "show-table"];
    let flags = names.iter().filter(|name| matches.get_flag(name)).count();
    flags + usize::from(matches.get_one::<u64>("shards").is_some())
}

/// What is to be done; nothing where options contradict each other.
fn task_of(matches: &ArgMatches<'_>) -> Option<Task> {
    let is_map = matches.get_flag("map");
    let is_written = is_map || matches.get_flag("join");
    if !is_map && places_shard(matches) || !is_written && matches.get_flag("line") {
        return None;
    }
    match task_count(matches) {
        0 => Some(Task::Run),
        1 => named_task(matches),
        _ => None,
    }
}

/// Where the program's text is, if the words say.
fn program_source<'a>(
    alloc: Global,
    matches: &ArgMatches<'a>,
    task: Task,
) -> Result<Option<ProgramSource<'a>>, AllocError> {
    if let Task::Merge | Task::Join(_) | Task::ShowTables | Task::Cut(_) = task {
        return Ok(Some(ProgramSource::Elsewhere));
    }
    match matches.get_strs("program-file") {
        Some(names) => Ok(Some(ProgramSource::Files(Vec::from_slice(alloc, names)?))),
        None => Ok(matches.get_str("program").map(ProgramSource::Word)),
    }
}

/// The operands: all words that are no options where the program's text is in files or in none, else those after the text.
fn read_operands<'a>(
    alloc: Global,
    matches: &ArgMatches<'a>,
    program: &ProgramSource<'a>,
) -> Result<Operands<'a>, AllocError> {
    let mut words = Vec::new(alloc);
    if let (ProgramSource::Files(_) | ProgramSource::Elsewhere, Some(first)) = (
        program,
        matches.get_str("program"),
    ) {
        words.push(first)?;
    }
    words.extend_from_slice(matches.get_strs("operand").unwrap_or(&[]))?;
    Operands::new(alloc, words.as_slice())
}

/// Whether the values of all options that are numbers are written in digits alone.
fn are_plain(matches: &ArgMatches<'_>) -> bool {
    [
        "workers", "chunk", "window", "steps", "memory", "before", "shards",
    ]
    .iter()
    .all(|id| is_plain(matches, *id))
}

/// What is reported of words at fault, or that memory was refused.
fn fault(command: &mut Command<'_>, kind: ErrorKind, text: &str) -> Error {
    match command.error(kind, text) {
        Ok(error) => error,
        Err(refusal) => Error::from(refusal),
    }
}

/// When causes are explained.
fn read_explaining(matches: &ArgMatches<'_>) -> Explaining {
    match matches.get_str("explain") {
        Some("always") => Explaining::Always,
        Some("never") => Explaining::Never,
        _ => Explaining::OnTerminal,
    }
}

/// What is reported and done beside the run.
fn read_tools(matches: &ArgMatches<'_>) -> Tools {
    Tools {
        why: matches.get_flag("why"),
        explaining: read_explaining(matches),
        check: matches.get_flag("check"),
        show: matches.get_flag("show"),
        globals: matches.get_flag("globals"),
        statistics: matches.get_flag("statistics"),
    }
}

/// What the words ask for that were read so.
fn line_of<'a>(
    alloc: Global,
    matches: &ArgMatches<'a>,
    program: ProgramSource<'a>,
    task: Task,
    host: Host,
) -> Result<CommandLine<'a>, AllocError> {
    let operands = read_operands(alloc, matches, &program)?;
    let assignments = Vec::from_slice(alloc, matches.get_strs("assignment").unwrap_or(&[]))?;
    Ok(CommandLine {
        program,
        task,
        assignments,
        separator: matches.get_str("separator"),
        steps: matches.get_one::<u64>("steps").unwrap_or(STEPS),
        operands,
        workers: matches
            .get_one::<u8>("workers")
            .unwrap_or(WORKERS)
            .clamp(1, 64),
        chunk: matches.get_one::<u64>("chunk"),
        window: matches.get_one::<u64>("window"),
        is_whole: matches.get_flag("whole"),
        memory: matches.get_one::<u64>("memory"),
        host,
        tools: read_tools(matches),
    })
}

/// Reads the words by the definition of the command.
fn read_by<'a>(
    alloc: Global,
    command: &mut Command<'a>,
    words: &'a [String],
    host: Host,
) -> Result<CommandLine<'a>, Error> {
    let matches = command.try_get_matches_from_mut(words)?;
    let Some(task) = task_of(&matches) else {
        let text =
            "--map (with --shard number/of, --before, --line), --count, --merge, --join (with --line), --show-table and --shards stand alone";
        return Err(fault(command, ErrorKind::ValueValidation, text));
    };
    match program_source(alloc, &matches, task)? {
        Some(program) if are_plain(&matches) => Ok(line_of(alloc, &matches, program, task, host)?),
        Some(_) => {
            let text = "a number is written in digits alone";
            Err(fault(command, ErrorKind::ValueValidation, text))
        }
        None => Err(fault(command, ErrorKind::MissingRequiredArgument, "no program")),
    }
}

/// Reads the words, of which the first is the program's name, as [`unambiguous`](crate::words::unambiguous)
/// writes them.
///
/// An error comes where the words are at fault or ask for help, or where memory was refused.
pub fn read_words<'a>(
    alloc: Global,
    words: &'a [String],
    host: Host,
) -> Result<CommandLine<'a>, Error> {
    let mut command = definition(alloc)?;
    read_by(alloc, &mut command, words, host)
}
