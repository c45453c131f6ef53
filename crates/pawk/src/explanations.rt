//! Explanations of how a run ended, where they are asked for.

use crate::whole::{Pair, assignments};
use pawk_command::command_line::CommandLine;
use pawk_command::reports::{ReadCause, RunFailure};
use pawk_explain::{
    Origin, RecordPlace, Script, explain_fault, explain_no_main, explain_parallel, explain_program,
    explain_reason, explain_redo, explain_setting,
};
use pawk_feeds::LastPiece;
use pawk_input::{Blocks, Input, TooLarge};
use pawk_par::{Ending, Place, Route, StreamRefusal};
use pawk_settings::{Settings, SettingsRefusal};
use pawk_store::Specials;
use pawk_syntax::{Program, parse};
use pawk_value::{Fault, Value};
use std::alloc::{AllocError, Global};

/// A word of the command line that makes an assignment that is refused.
#[derive(Clone, Copy)]
enum RefusedWord<'a> {
    /// The value of a `-v` or of `-F`.
    Value(Origin<'a>),
    /// An operand.
    Operand(&'a str),
    /// An operand that assigns `RS` after the first file.
    LateSeparator,
}

/// The word that makes the assignment of this number, counted from 0.
fn word_of<'a>(line: &CommandLine<'a>, number: usize) -> Option<RefusedWord<'a>> {
    if line.late_separator() == Some(number) {
        return Some(RefusedWord::LateSeparator);
    }
    if let Some(text) = line.assignments.get(number) {
        return Some(RefusedWord::Value(Origin::Assignment(*text)));
    }
    match number.checked_sub(line.option_count()) {
        Some(place) => Some(RefusedWord::Operand(*line.operands.assignments().get(place)?)),
        None => Some(RefusedWord::Value(Origin::Separator(line.separator?))),
    }
}

/// The word that makes the first assignment that is refused beside the program of this text.
fn refused_word<'a>(
    alloc: Global,
    line: &CommandLine<'a>,
    text: &[u8],
) -> Result<Option<RefusedWord<'a>>, AllocError> {
    let pairs = assignments(alloc, line)?;
    let Ok(program) = parse(alloc, text) else {
        return Ok(None);
    };
    let first = first_refused(alloc, &program, pairs.as_slice(), line.steps);
    match first.or(line.late_separator()) {
        Some(number) => Ok(word_of(line, number)),
        None => Ok(None),
    }
}

/// The number of the first assignment that is refused beside a program, counted from 0.
fn first_refused(alloc: Global, program: &Program, pairs: &[Pair], steps: u64) -> Option<usize> {
    for (number, pair) in pairs.chunks(1).enumerate() {
        if Settings::new(alloc, program.tree(), pair, steps).is_err() {
            return Some(number);
        }
    }
    None
}

/// Appends the explanation of why an operand is refused: as of a `-v`, which is read as it is, but for how the line begins.
fn explain_operand(
    alloc: Global,
    lines: &mut Vec<u8>,
    refusal: SettingsRefusal,
    operand: &str,
) -> Result<(), AllocError> {
    let mut option = Vec::new(alloc);
    explain_setting(&mut option, refusal, Origin::Assignment(operand))?;
    let option = option.as_slice();
    let begin: &[u8] = b"  -v ";
    lines.extend_from_slice(b"  operand ")?;
    lines.extend_from_slice(option.strip_prefix(begin).unwrap_or(option))?;
    lines.extend_from_slice(b"  the name of a file that begins so is written with ./ before it\n")
}

/// What is reported about `RS` after the first file.
const LATE_SEPARATOR: &[u8] =
    b"  operand RS=..: RS is taken once, before the first file is read\n  write it before that file, or as -v RS=..\n";

/// Appends the explanation of why an assignment is refused.
fn explain_settings(
    alloc: Global,
    lines: &mut Vec<u8>,
    line: &CommandLine<'_>,
    text: &[u8],
    refusal: SettingsRefusal,
) -> Result<(), AllocError> {
    match refused_word(alloc, line, text)? {
        Some(RefusedWord::Value(origin)) => explain_setting(lines, refusal, origin),
        Some(RefusedWord::Operand(text)) => explain_operand(alloc, lines, refusal, text),
        Some(RefusedWord::LateSeparator) => lines.extend_from_slice(LATE_SEPARATOR),
        None => Ok(()),
    }
}

/// What is reported about a file of this name that could not be read.
fn words_of(name: &str, cause: ReadCause) -> &'static str {
    match cause {
        ReadCause::Missing if name.contains('=') =>
            "  there is no such file, and an assignment begins with a name: a letter or _, and then letters, digits and _\n",
        ReadCause::Missing => "  there is no such file\n",
        ReadCause::Directory => "  it is a directory\n",
        ReadCause::Forbidden => "  you may not read it\n",
        ReadCause::Other => "",
    }
}

/// Appends the explanation of why nothing was run to its end.
pub(crate) fn explain_stop(
    alloc: Global,
    lines: &mut Vec<u8>,
    line: &CommandLine<'_>,
    script: &Script<'_>,
    stop: RunFailure<'_>,
) -> Result<(), AllocError> {
    match stop {
        RunFailure::Refused(StreamRefusal::Program(why)) => {
            explain_program(alloc, lines, script, why)
        }
        RunFailure::Refused(StreamRefusal::Settings(why)) => {
            explain_settings(alloc, lines, line, script.text(), why)
        }
        RunFailure::Read(name, cause) => lines.extend_from_slice(words_of(name, cause).as_bytes()),
        _ => Ok(()),
    }
}

/// What a run left that is needed to explain its end.
#[derive(Clone, Copy)]
pub(crate) struct Remains<'a> {
    pub(crate) ending: Ending,
    pub(crate) route: Route,
    pub(crate) specials: &'a Specials,
}

impl<'a> Remains<'a> {
    /// Whether the run ended at a record, the last one that it read.
    fn are_at_record(self) -> bool {
        match self.ending {
            Ending::Fault(_, Place::Record(number)) => u64::try_from(self.specials.nr)
                == Ok(number),
            _ => false,
        }
    }

    /// The number of the last record in its file.
    fn fnr(self) -> u64 {
        u64::try_from(self.specials.fnr).unwrap_or(0)
    }

    /// The name of the last record's file; none for standard input.
    fn file(self) -> &'a [u8] {
        match &self.specials.filename {
            Value::Maybe(name) => name.as_slice(),
            _ => b"",
        }
    }
}

/// Bytes of a file as an input of their own.
fn input_of(alloc: Global, bytes: Vec<u8>) -> Result<Input, AllocError> {
    let mut files = Vec::new(alloc);
    files.push((Vec::new(alloc), Blocks::whole(alloc, bytes)?))?;
    match Input::from_blocks(files) {
        Ok(input) => Ok(input),
        Err(TooLarge) => Err(AllocError),
    }
}

/// The bytes of the record of this number, where records end as `rs` says.
fn record_bytes<'a>(
    input: &'a mut Input,
    rs: &[u8],
    number: u64,
) -> Result<Option<&'a [u8]>, AllocError> {
    if rs.len() > 1 {
        return Ok(None);
    }
    input.mend(rs)?;
    for item in input.records(rs) {
        if item.nr == number {
            return Ok(Some(item.bytes));
        }
    }
    Ok(None)
}

/// Where the record is that was read last, which has these bytes.
fn place_of<'a>(remains: Remains<'a>, bytes: Option<&'a [u8]>) -> RecordPlace<'a> {
    RecordPlace {
        file: remains.file(),
        fnr: remains.fnr(),
        bytes,
    }
}

/// Appends the explanation of a fault at the record that was read last.
fn explain_record(
    alloc: Global,
    lines: &mut Vec<u8>,
    fault: Fault,
    remains: Remains<'_>,
    last: LastPiece,
) -> Result<(), AllocError> {
    let LastPiece { rs, fnr, bytes } = last;
    let number = remains.fnr().saturating_sub(fnr);
    let mut input = input_of(alloc, bytes)?;
    let bytes = record_bytes(&mut input, rs.as_slice(), number)?;
    explain_fault(lines, fault, Some(place_of(remains, bytes)))
}

/// Appends the explanation of which way a run went.
fn explain_route(lines: &mut Vec<u8>, route: Route) -> Result<(), AllocError> {
    match route {
        Route::NoMain => explain_no_main(lines),
        Route::NotAdmitted(reason) => explain_reason(lines, reason),
        Route::Redo => explain_redo(lines),
        Route::Parallel => explain_parallel(lines),
    }
}

/// Appends the explanation of how a run ended, and where `why` says so of which way it went.
pub(crate) fn explain_end(
    alloc: Global,
    lines: &mut Vec<u8>,
    why: bool,
    remains: Remains<'_>,
    last: Option<LastPiece>,
) -> Result<(), AllocError> {
    if why {
        explain_route(lines, remains.route)?;
    }
    match (remains.ending, last) {
        (Ending::Fault(fault, _), Some(last)) if remains.are_at_record() => {
            explain_record(alloc, lines, fault, remains, last)
        }
        (Ending::Fault(fault, _), _) => explain_fault(lines, fault, None),
        _ => Ok(()),
    }
}
