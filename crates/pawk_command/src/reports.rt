//! What the program reports beside the output.

use crate::outlet::Outlet;
use crate::statistics::Statistics;
use crate::table_failure::TableFailure;
use clap::Error;
use clap::error::ErrorKind;
use pawk_admit::Reason;
use pawk_explain::Script;
use pawk_par::{Ending, Place, Route, SettingsRefusal, StreamRefusal, SyntaxRefusal};
use pawk_tables::TableRefusal;
use std::alloc::{AllocError, AllocFailed, Global};
use std::io;
use std::io::Write;

/// Why a file could not be read, as far as it is explained.
#[derive(Clone, Copy)]
pub enum ReadCause {
    Missing,
    Directory,
    Forbidden,
    Other,
}

impl ReadCause {
    /// The cause of an error.
    pub fn of(error: &io::Error) -> ReadCause {
        match error.kind() {
            io::ErrorKind::NotFound => ReadCause::Missing,
            io::ErrorKind::IsADirectory => ReadCause::Directory,
            io::ErrorKind::PermissionDenied => ReadCause::Forbidden,
            _ => ReadCause::Other,
        }
    }
}

/// Output that could not be written; how much of it was written is not reported.
pub const UNWRITTEN: StreamRefusal = StreamRefusal::Write(0);

/// Why nothing was run to its end.
#[derive(Clone, Copy)]
pub enum RunFailure<'a> {
    /// The run was refused, or standard input or the output failed.
    Refused(StreamRefusal),
    /// The file of this name could not be read, for this cause.
    Read(&'a str, ReadCause),
    /// The records may not be run in chunks, for this reason, so there is no table of them.
    NotAdmitted(Reason),
    /// An operand after a file assigns, where a table is written.
    LateAssignment,
    /// The tables of shards are not merged.
    Table(TableFailure<'a>),
}

impl<'a> From<StreamRefusal> for RunFailure<'a> {
    fn from(refusal: StreamRefusal) -> RunFailure<'a> {
        RunFailure::Refused(refusal)
    }
}

impl<'a> From<AllocError> for RunFailure<'a> {
    fn from(error: AllocError) -> RunFailure<'a> {
        RunFailure::Refused(StreamRefusal::from(error))
    }
}

impl<'a, T: Drop> From<AllocFailed<T>> for RunFailure<'a> {
    fn from(_error: AllocFailed<T>) -> RunFailure<'a> {
        RunFailure::Refused(StreamRefusal::Memory)
    }
}

impl<'a> RunFailure<'a> {
    /// A file that could not be read, or a refusal of memory where the error says so.
    pub fn read(name: &'a str, error: &io::Error) -> RunFailure<'a> {
        if error.kind() == io::ErrorKind::OutOfMemory {
            return RunFailure::Refused(StreamRefusal::Memory);
        }
        RunFailure::Read(name, ReadCause::of(error))
    }

    /// Why the table of this name could not be read: memory was refused, or it is not as it was written.
    pub fn of_table(name: &'a str, refusal: TableRefusal) -> RunFailure<'a> {
        match refusal {
            TableRefusal::Memory => RunFailure::Refused(StreamRefusal::Memory),
            TableRefusal::Damage => RunFailure::Table(TableFailure::Damaged(name)),
        }
    }
}

/// What is reported where memory was refused.
const NO_MEMORY: &[u8] = b"pawk: refused: memory\n";

/// The exit status of a run whose output nobody reads any more: what a shell shows where the signal PIPE
/// ended a program.
const CLOSED: u8 = 141;

/// Reports why nothing was run to its end, and gives the exit status. The script is what was read of the
/// program's text.
pub fn report_stop<O: Write, E: Write>(
    stop: RunFailure<'_>,
    script: &Script<'_>,
    output: &Outlet<O>,
    errors: &mut E,
) -> io::Result<u8> {
    match stop {
        RunFailure::Refused(StreamRefusal::Write(_)) if output.is_closed() => return Ok(CLOSED),
        RunFailure::Refused(refusal) => report_refusal(refusal, script, errors)?,
        RunFailure::Read(name, _) => report_unread(name, errors)?,
        RunFailure::NotAdmitted(reason) => {
            writeln!(errors, "pawk: not admitted {}", reason.number())?;
        }
        RunFailure::LateAssignment => {
            errors.write_all(b"pawk: an assignment after a file has no place in a table\n")?;
        }
        RunFailure::Table(failure) => failure.report(errors)?,
    }
    Ok(2)
}

/// Reports a refusal, or that standard input or the output failed.
fn report_refusal<E: Write>(
    refusal: StreamRefusal,
    script: &Script<'_>,
    errors: &mut E,
) -> io::Result<()> {
    match refusal {
        StreamRefusal::Memory => errors.write_all(NO_MEMORY),
        StreamRefusal::Thread => errors.write_all(b"pawk: refused: thread\n"),
        StreamRefusal::Cutting => errors.write_all(b"pawk: refused: cutting\n"),
        StreamRefusal::Input => errors.write_all(b"pawk: refused: input\n"),
        StreamRefusal::Program(why) => report_program(why, script, errors),
        StreamRefusal::Settings(why) => report_settings(why, errors),
        StreamRefusal::Read => errors.write_all(b"pawk: cannot read \n"),
        StreamRefusal::Write(_) => errors.write_all(b"pawk: cannot write\n"),
    }
}

/// Reports that the file of this name could not be read: with `?` for each control character of it.
fn report_unread<E: Write>(name: &str, errors: &mut E) -> io::Result<()> {
    errors.write_all(b"pawk: cannot read ")?;
    for character in name.chars() {
        let shown = if character.is_control() {
            '?'
        } else {
            character
        };
        write!(errors, "{shown}")?;
    }
    errors.write_all(b"\n")
}

fn report_program<E: Write>(
    refusal: SyntaxRefusal,
    script: &Script<'_>,
    errors: &mut E,
) -> io::Result<()> {
    let number = refusal.number();
    match refusal.place() {
        Some(place) => {
            let place = script.place(place);
            writeln!(errors, "pawk: program refused: {number} at byte {place}")
        }
        None => errors.write_all(NO_MEMORY),
    }
}

fn report_settings<E: Write>(refusal: SettingsRefusal, errors: &mut E) -> io::Result<()> {
    let number = refusal.number();
    writeln!(errors, "pawk: bad assignment: {number}")
}

/// The text of a fault of the command line, which begins as every message does.
fn text_of_fault(alloc: Global, error: &Error) -> Result<String, AllocError> {
    if error.kind() == ErrorKind::OutOfMemory {
        return Err(AllocError);
    }
    format!(in alloc; "{error}")
}

/// Reports a fault of the command line; it begins as every message does.
fn report_fault_of_words<E: Write>(alloc: Global, error: &Error, errors: &mut E) -> io::Result<()> {
    let Ok(text) = text_of_fault(alloc, error) else {
        return errors.write_all(NO_MEMORY);
    };
    let fault = text.as_str();
    errors.write_all(b"pawk: ")?;
    errors.write_all(fault.strip_prefix("error: ").unwrap_or(fault).as_bytes())
}

/// Writes help or the version, which were asked for.
fn write_help<O: Write>(error: &Error, output: &mut O) -> io::Result<()> {
    write!(output, "{error}")?;
    output.flush()
}

/// Reports why the words of the command line were not read, and gives the exit status: help that was asked for goes to
/// the output.
pub fn report_words<O: Write, E: Write>(
    alloc: Global,
    error: &Error,
    output: &mut Outlet<O>,
    errors: &mut E,
) -> io::Result<u8> {
    if error.use_stderr() {
        report_fault_of_words(alloc, error, errors)?;
        return Ok(2);
    }
    if write_help(error, output).is_ok() {
        return Ok(0);
    }
    if output.is_closed() {
        return Ok(CLOSED);
    }
    errors.write_all(b"pawk: cannot write\n")?;
    Ok(2)
}

/// How a run ended, which way it went, and what more there is to report.
#[derive(Drop)]
pub struct End {
    pub ending: Ending,
    /// The route, where something was run.
    pub route: Option<Route>,
    /// Lines that follow the report: explanations, and the final variables.
    pub lines: Vec<u8>,
    /// Figures, where they are asked for.
    pub statistics: Option<Statistics>,
}

impl End {
    /// The end of what was done in place of a run.
    pub fn of(alloc: Global, ending: Ending) -> End {
        End {
            ending,
            route: None,
            lines: Vec::new(alloc),
            statistics: None,
        }
    }
}

/// Writes which way a run went, and ends the line.
pub fn write_route<E: Write>(route: Route, errors: &mut E) -> io::Result<()> {
    match route {
        Route::NoMain => errors.write_all(b"no main\n"),
        Route::NotAdmitted(reason) => {
            let number = reason.number();
            writeln!(errors, "not admitted {number}")
        }
        Route::Redo => errors.write_all(b"redo\n"),
        Route::Parallel => errors.write_all(b"parallel\n"),
    }
}

/// Reports a fault and where it came.
fn report_fault<E: Write>(name: &str, place: Place, errors: &mut E) -> io::Result<()> {
    match place {
        Place::Begin => writeln!(errors, "pawk: fault {name} in BEGIN"),
        Place::Record(number) => writeln!(errors, "pawk: fault {name} at record {number}"),
        Place::End => writeln!(errors, "pawk: fault {name} in END"),
    }
}

/// Reports a fault, and gives the exit status. The globals of a run allow all that is asked of them, so it
/// is never disallowed.
fn report_ending<E: Write>(ending: Ending, errors: &mut E) -> io::Result<u8> {
    match ending {
        Ending::Status(status) => Ok(status),
        Ending::Fault(fault, place) => {
            report_fault(fault.name(), place, errors)?;
            Ok(2)
        }
        Ending::Disallowed => {
            errors.write_all(NO_MEMORY)?;
            Ok(2)
        }
    }
}

/// Reports the route where it is asked for, a fault, and what more there is, and gives the exit status.
pub fn report_end<E: Write>(end: &End, why: bool, errors: &mut E) -> io::Result<u8> {
    if let Some(route) = end.route
        && why
    {
        errors.write_all(b"pawk: route ")?;
        write_route(route, errors)?;
    }
    let status = report_ending(end.ending, errors)?;
    errors.write_all(end.lines.as_slice())?;
    if let Some(statistics) = &end.statistics {
        statistics.write(errors)?;
    }
    Ok(status)
}
