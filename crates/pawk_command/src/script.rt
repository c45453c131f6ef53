//! The program's text.

use crate::command_line::ProgramSource;
use crate::files::{read_file, read_stream};
use crate::reports::RunFailure;
use pawk_explain::Script;
use std::io::Read;
use std::rt::Files;

/// The name that standard input has among files.
pub const STANDARD_INPUT: &str = "-";

/// Reads a file, or standard input.
fn read_text<'a, R: Files + AllocGlobal, I: Read>(
    rt: &R,
    name: &'a str,
    input: &mut I,
) -> Result<Vec<u8>, RunFailure<'a>> {
    if name == STANDARD_INPUT {
        return Ok(read_stream(rt.alloc(), input)?);
    }
    match read_file(rt, name) {
        Ok(text) => Ok(text),
        Err(error) => Err(RunFailure::read(name, &error)),
    }
}

/// Appends the text of a file, or of standard input.
fn append_file<'a, R: Files + AllocGlobal, I: Read>(
    rt: &R,
    script: &mut Script<'a>,
    name: &'a str,
    input: &mut I,
) -> Result<(), RunFailure<'a>> {
    let text = read_text(rt, name, input)?;
    Ok(script.append_file(name, text.as_slice())?)
}

/// The program's text, out of the words or of its files, in which CR LF ends a line as LF does.
///
/// POSIX.1-2017, awk, "OPTIONS" (-f).
pub fn read_script<'a, R: Files + AllocGlobal, I: Read>(
    rt: &R,
    source: &ProgramSource<'a>,
    input: &mut I,
) -> Result<Script<'a>, RunFailure<'a>> {
    let alloc = rt.alloc();
    match source {
        ProgramSource::Word(text) => Ok(Script::of_word(alloc, text.as_bytes())?),
        ProgramSource::Files(names) => {
            let mut script = Script::new(alloc);
            for name in names {
                append_file(rt, &mut script, *name, input)?;
            }
            Ok(script)
        }
        ProgramSource::Elsewhere => Ok(Script::new(alloc)),
    }
}
