//! The topic `record`: what a record has after a fault.
//!
//! A row has cells between tabs, each an action on one record that is empty at first. The pieces of a cell are between bars:
//!
//! | Action | What it does |
//! |---|---|
//! | `read`, FS, a text | reads the text |
//! | `text`, FS, a text | assigns the text to `$0` |
//! | `set`, OFS, a text, an index | assigns the text to that field |
//! | `get`, an index | answers the value of that field |
//! | `count` | answers NF, for which no field has to be looked for |
//! | `all` | answers the text of the record after `=`, NF, and the value of each field |
//!
//! An action is known by its first letter. Each answer comes after a space; a value has its mark. A fault answers its name
//! in brackets, and the row goes on.

use crate::marks::push_value;
use crate::text::{number, piece, push_decimal, push_encoded, push_fault};
use pawk_record::Record;
use pawk_value::{Stop, ValueRef};
use std::alloc::{AllocError, Global};

/// The piece of a cell with that number, counted from 0.
fn part(cell: &[u8], place: usize) -> &[u8] {
    piece(cell, b'|', place)
}

/// Adds the value of a field.
fn push_field(record: &mut Record<'_>, n: usize, out: &mut Vec<u8>) -> Result<(), AllocError> {
    record.prepare(n)?;
    out.push(b' ')?;
    push_value(record.field(n), out)
}

/// Adds a number.
fn push_number(number: usize, out: &mut Vec<u8>) -> Result<(), AllocError> {
    out.push(b' ')?;
    push_decimal(number as u64, out)
}

/// Adds the values of the fields, as many as are asked for.
fn push_fields(record: &mut Record<'_>, count: usize, out: &mut Vec<u8>) -> Result<(), AllocError> {
    for n in 1..=count {
        push_field(record, n, out)?;
    }
    Ok(())
}

/// Adds the text of the record, NF, and the value of each field.
fn push_all(record: &mut Record<'_>, out: &mut Vec<u8>) -> Result<(), AllocError> {
    out.extend_from_slice(b" =")?;
    push_encoded(record.text(), out)?;
    let count = record.count()?;
    push_number(count, out)?;
    push_fields(record, count, out)
}

/// Assigns a text to a field.
fn set_field(record: &mut Record<'_>, cell: &[u8]) -> Result<(), Stop> {
    let n = number(part(cell, 3)) as usize;
    if n == 0 {
        return Ok(());
    }
    record.assign_field(n, ValueRef::Text(part(cell, 2)), part(cell, 1))
}

/// Does what a cell asks.
fn act<'a>(record: &mut Record<'a>, cell: &'a [u8], out: &mut Vec<u8>) -> Result<(), Stop> {
    match cell.first() {
        Some(b'r') => record.read(part(cell, 2), part(cell, 1), false),
        Some(b't') => record.assign_text(part(cell, 2), part(cell, 1), false),
        Some(b's') => set_field(record, cell),
        Some(b'g') => Ok(push_field(record, number(part(cell, 1)) as usize, out)?),
        Some(b'c') => Ok(push_number(record.field_count()?, out)?),
        _ => Ok(push_all(record, out)?),
    }
}

/// Adds what the cells of a row answer, one after another.
fn push_cells<'a>(
    record: &mut Record<'a>,
    row: &'a [u8],
    out: &mut Vec<u8>,
) -> Result<(), AllocError> {
    for cell in row.split(|byte| *byte == b'\t') {
        match act(record, cell, out) {
            Ok(()) => {}
            Err(Stop::Fault(fault)) => push_fault(fault, out)?,
            Err(Stop::Memory) => return Err(AllocError),
        }
    }
    Ok(())
}

/// Adds the answer to a row.
pub fn push_answer(alloc: Global, row: &[u8], out: &mut Vec<u8>) -> Result<(), AllocError> {
    push_cells(&mut Record::new(alloc), row, out)
}
