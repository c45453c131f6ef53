//! Where a fault is: its position, and the text of its line with a mark.

use crate::position::{Position, position_after};
use crate::script::Script;
use crate::words::{append_number, append_plain};
use memchr::{memchr, memrchr};
use std::alloc::AllocError;

/// How many bytes of a line are shown at most.
const WINDOW: usize = 100;

/// How many bytes of a long line are shown before the place.
const BEFORE: usize = 50;

/// Appends the position of a place of the text, counted from 0.
pub(crate) fn append_position(
    out: &mut Vec<u8>,
    script: &Script<'_>,
    start: usize,
) -> Result<(), AllocError> {
    let origin = script.origin(start);
    if let Some(name) = origin.name {
        append_plain(out, name.as_bytes())?;
        out.extend_from_slice(b", ")?;
    }
    let before = script.text().get(origin.start..start).unwrap_or(&[]);
    append_line_and_column(out, position_after(before))
}

/// Appends a position in a file.
fn append_line_and_column(out: &mut Vec<u8>, position: Position) -> Result<(), AllocError> {
    out.extend_from_slice(b"line ")?;
    append_number(out, position.line as u64)?;
    out.extend_from_slice(b", column ")?;
    append_number(out, position.column as u64)
}

/// A line, and a place in it.
#[derive(Clone, Copy)]
struct Line<'t> {
    bytes: &'t [u8],
    place: usize,
}

/// The line of a text that a place is in.
fn line_at(text: &[u8], start: usize) -> Line<'_> {
    let before = text.get(..start).unwrap_or(text);
    let rest = text.get(start..).unwrap_or(&[]);
    let first = match memrchr(b'\n', before) {
        Some(newline) => newline.saturating_add(1),
        None => 0,
    };
    let length = memchr(b'\n', rest).unwrap_or(rest.len());
    let end = before.len().saturating_add(length);
    Line {
        bytes: text.get(first..end).unwrap_or(&[]),
        place: before.len().saturating_sub(first),
    }
}

/// Where the part of a line begins that is shown.
fn window_start(line: Line<'_>) -> usize {
    let last = line.bytes.len().saturating_sub(WINDOW);
    line.place.saturating_sub(BEFORE).min(last)
}

/// Appends the bytes of a line, of which those but tabs that control a terminal are written as `?`.
fn append_line(out: &mut Vec<u8>, bytes: &[u8]) -> Result<(), AllocError> {
    for byte in bytes {
        let is_shown = *byte == b'\t' || !byte.is_ascii_control();
        out.push(if is_shown { *byte } else { b'?' })?;
    }
    Ok(())
}

/// The bytes of the rest of a line that are shown, and what ends them: dots where there are more.
fn shown(rest: &[u8]) -> (&[u8], &'static [u8]) {
    match rest.get(..WINDOW) {
        Some(part) if part.len() < rest.len() => (part, b"..\n"),
        _ => (rest, b"\n"),
    }
}

/// Appends the part of a line that is shown, with dots where it was cut.
fn append_part(out: &mut Vec<u8>, line: Line<'_>, from: usize) -> Result<(), AllocError> {
    let (part, end) = shown(line.bytes.get(from..).unwrap_or(&[]));
    out.extend_from_slice(if from > 0 { b"    .." } else { b"    " })?;
    append_line(out, part)?;
    out.extend_from_slice(end)
}

/// Appends blanks below bytes. The later bytes of a character take no column.
fn append_blanks(out: &mut Vec<u8>, bytes: &[u8]) -> Result<(), AllocError> {
    for byte in bytes {
        match *byte {
            b'\t' => out.push(b'\t')?,
            0x80..=0xbf => {}
            _ => out.push(b' ')?,
        }
    }
    Ok(())
}

/// Appends a mark below the place of a line.
fn append_mark(out: &mut Vec<u8>, line: Line<'_>, from: usize) -> Result<(), AllocError> {
    let before = line.bytes.get(from..line.place).unwrap_or(&[]);
    out.extend_from_slice(if from > 0 { b"      " } else { b"    " })?;
    append_blanks(out, before)?;
    out.extend_from_slice(b"^\n")
}

/// Appends the line of a place of a text, and a mark under it; nothing where the line is empty.
pub(crate) fn append_source(
    out: &mut Vec<u8>,
    text: &[u8],
    start: usize,
) -> Result<(), AllocError> {
    let line = line_at(text, start);
    if line.bytes.is_empty() {
        return Ok(());
    }
    let from = window_start(line);
    append_part(out, line, from)?;
    append_mark(out, line, from)
}
