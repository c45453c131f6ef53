//! What the command does.

use crate::explanations::explain_stop;
use crate::joining::join_tables;
use crate::merging::merge_tables;
use crate::shards::cut_file;
use crate::whole::run_whole;
use clap::Error;
use pawk_command::command_line::{CommandLine, Task, read_words};
use pawk_command::host::Host;
use pawk_command::outlet::Outlet;
use pawk_command::reports::{End, RunFailure, UNWRITTEN, report_end, report_stop, report_words};
use pawk_command::script::read_script;
use pawk_command::table_listing::show_tables;
use pawk_command::words::unambiguous;
use pawk_explain::Script;
use pawk_par::StreamRefusal;
use std::alloc::{AllocError, Global};
use std::fs::File;
use std::io;
use std::io::{IsTerminal, Read, Write};
use std::rt::{Clock, Files};
use std::sync::Wait;
use std::thread::Threads;

/// Does what was asked for with this program.
fn run_script<'a, R, I, O>(
    rt: &'a R,
    line: &'a CommandLine<'a>,
    script: &Script<'_>,
    explains: bool,
    input: I,
    output: &mut Outlet<O>,
) -> Result<End, RunFailure<'a>>
where
    R: Files<File = File> + AllocGlobal + Threads + Wait + Clock + Copy + Send + Drop + 'static,
    I: Read + Copy + Send + Drop + 'static,
    O: Write,
{
    let end = match line.task {
        Task::Run | Task::Map(_) | Task::Count => {
            run_whole(rt, line, script.text(), explains, input, output)?
        }
        Task::Merge => merge_tables(rt, line, input, output)?,
        Task::Join(form) => join_tables(rt, line, form, input, output)?,
        Task::ShowTables => show_tables(rt, line, input, output)?,
        Task::Cut(count) => cut_file(rt, line, count, input, output)?,
    };
    if output.flush().is_err() {
        return Err(RunFailure::from(UNWRITTEN));
    }
    Ok(end)
}

/// Writes the explanation of why nothing was run to its end, where there is memory for it.
fn write_explanation<E: Write>(
    alloc: Global,
    line: &CommandLine<'_>,
    script: &Script<'_>,
    stop: RunFailure<'_>,
    errors: &mut E,
) -> io::Result<()> {
    let mut lines = Vec::new(alloc);
    match explain_stop(alloc, &mut lines, line, script, stop) {
        Ok(()) => errors.write_all(lines.as_slice()),
        Err(_) => Ok(()),
    }
}

/// Reports why nothing was run to its end, with an explanation where it is asked for.
fn report_with_explanation<O: Write, E: Write + IsTerminal>(
    alloc: Global,
    line: &CommandLine<'_>,
    script: &Script<'_>,
    stop: RunFailure<'_>,
    output: &Outlet<O>,
    errors: &mut E,
) -> io::Result<u8> {
    let status = report_stop(stop, script, output, errors)?;
    if line.tools.explains(errors) {
        write_explanation(alloc, line, script, stop, errors)?;
    }
    Ok(status)
}

/// Does what was asked for with this program, and reports how it ended.
fn do_script<R, I, O, E>(
    rt: &R,
    line: &CommandLine<'_>,
    script: &Script<'_>,
    input: I,
    output: &mut Outlet<O>,
    errors: &mut E,
) -> io::Result<u8>
where
    R: Files<File = File> + AllocGlobal + Threads + Wait + Clock + Copy + Send + Drop + 'static,
    I: Read + Copy + Send + Drop + 'static,
    O: Write,
    E: Write + IsTerminal,
{
    let explains = line.tools.explains(errors);
    match run_script(rt, line, script, explains, input, output) {
        Ok(end) => report_end(&end, line.tools.why, errors),
        Err(stop) => report_with_explanation(rt.alloc(), line, script, stop, output, errors),
    }
}

/// Whether the memory of this process is limited to this number of bytes, if to any: a block of as many is refused then. The
/// limit is set before `main` by what the program is linked with (release/glue.c), which reads it from the command line.
fn is_limited(alloc: Global, memory: Option<u64>) -> bool {
    match memory {
        Some(bytes) => {
            let size = usize::try_from(bytes).unwrap_or(usize::MAX);
            Vec::<u8>::with_capacity(alloc, size).is_err()
        }
        None => true,
    }
}

/// The text of the program that is asked for.
fn read_program<'a, R: Files + AllocGlobal, I: Read>(
    rt: &R,
    line: &CommandLine<'a>,
    input: &mut I,
) -> Result<Script<'a>, RunFailure<'a>> {
    if is_limited(rt.alloc(), line.memory) {
        read_script(rt, &line.program, input)
    } else {
        Err(RunFailure::from(StreamRefusal::Memory))
    }
}

/// Does what was asked for, and reports how it ended.
fn do_line<R, I, O, E>(
    rt: &R,
    line: &CommandLine<'_>,
    input: I,
    output: &mut Outlet<O>,
    errors: &mut E,
) -> io::Result<u8>
where
    R: Files<File = File> + AllocGlobal + Threads + Wait + Clock + Copy + Send + Drop + 'static,
    I: Read + Copy + Send + Drop + 'static,
    O: Write,
    E: Write + IsTerminal,
{
    let mut input = input;
    match read_program(rt, line, &mut input) {
        Ok(script) => do_script(rt, line, &script, input, output, errors),
        Err(stop) => {
            let none = Script::new(rt.alloc());
            report_with_explanation(rt.alloc(), line, &none, stop, output, errors)
        }
    }
}

/// Does what the words ask for, and reports how it ended.
fn do_words<R, I, O, E>(
    rt: &R,
    words: &[String],
    host: Host,
    input: I,
    output: &mut Outlet<O>,
    errors: &mut E,
) -> io::Result<u8>
where
    R: Files<File = File> + AllocGlobal + Threads + Wait + Clock + Copy + Send + Drop + 'static,
    I: Read + Copy + Send + Drop + 'static,
    O: Write,
    E: Write + IsTerminal,
{
    let alloc = rt.alloc();
    let Ok(words) = unambiguous(alloc, words) else {
        return report_words(alloc, &Error::from(AllocError), output, errors);
    };
    match read_words(alloc, words.as_slice(), host) {
        Ok(line) => do_line(rt, &line, input, output, errors),
        Err(error) => report_words(alloc, &error, output, errors),
    }
}

/// Does what the words ask for, the first of which is the program's name, and gives the exit status: the output goes to
/// `output`, what else there is to report to `errors`. Without files in the words, `input` is the one file without a name.
/// `host` says what keys of elements are hashed by, and how deep this thread's stack is.
pub(crate) fn command<R, I, O, E>(
    rt: &R,
    words: &[String],
    host: Host,
    input: I,
    output: O,
    mut errors: E,
) -> u8
where
    R: Files<File = File> + AllocGlobal + Threads + Wait + Clock + Copy + Send + Drop + 'static,
    I: Read + Copy + Send + Drop + 'static,
    O: Write + Drop,
    E: Write + IsTerminal + Drop,
{
    let mut output = Outlet::new(output);
    match do_words(rt, words, host, input, &mut output, &mut errors) {
        Ok(status) => status,
        Err(_) => {
            let _ = errors.write_all(b"pawk: cannot write\n");
            2
        }
    }
}
