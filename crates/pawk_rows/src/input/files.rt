//! Rows about files, their records and blocks.

ghost use Rattle.std.specs.Prelude.{◌≤◌, length, IfOk, IfSome};
ghost use Rattle.pawk_input.specs.Input.{IsReady};

use super::plans::{places, push_counted, push_plan};
use super::verbs::Verb;
use crate::text::{cell, decode, number, push_decimal, push_encoded};
use pawk_input::{Block, Blocks, Input, Plan, Records, count_block, count_blocks};
use std::alloc::{AllocError, Global};

/// The number of the cell where a row's files begin. The separator is before them.
fn first_file(verb: Verb) -> usize {
    match verb {
        Verb::Files => 1,
        Verb::Records => 2,
        Verb::Counted | Verb::Stepped | Verb::Begins => 4,
        _ => 3,
    }
}

/// The separator of a row: the cell before its files, or none where they come first.
fn separator(alloc: Global, row: &[u8], first: usize) -> Result<Vec<u8>, AllocError> {
    if first < 2 {
        return Ok(Vec::new(alloc));
    }
    decode(alloc, cell(row, first - 1))
}

/// A block of these bytes, counted.
fn block_of(alloc: Global, word: &[u8]) -> Result<Block, AllocError> {
    let bytes = decode(alloc, word)?;
    let mut block = Block::with_capacity(alloc, bytes.len())?;
    block.extend(bytes.as_slice())?;
    Ok(block)
}

/// The blocks of a file, with a bar between them.
fn blocks_of(alloc: Global, word: &[u8]) -> Result<Blocks, AllocError> {
    if !word.contains(&b'|') {
        return Blocks::whole(alloc, decode(alloc, word)?);
    }
    let mut blocks = Vec::new(alloc);
    for part in word.split(|byte| *byte == b'|') {
        blocks.push(block_of(alloc, part)?)?;
    }
    Ok(Blocks::of(blocks))
}

/// The files of a row, from a cell on: the cells of names and bytes by turns.
fn files_of(alloc: Global, row: &[u8], first: usize) -> Result<Vec<&[u8]>, AllocError> {
    row.split(|byte| *byte == b'\t').skip(first).collect(alloc)
}

/// The names of files, and their bytes in blocks.
fn in_blocks(alloc: Global, files: &[&[u8]]) -> Result<Vec<(Vec<u8>, Blocks)>, AllocError> {
    let mut blocks = Vec::new(alloc);
    for file in 0..files.len() / 2 {
        let name = decode(alloc, files[2 * file])?;
        blocks.push((name, blocks_of(alloc, files[2 * file + 1])?))?;
    }
    Ok(blocks)
}

/// The input of files that are ready for a separator.
fn input_of(alloc: Global, files: &[&[u8]], rs: &[u8]) -> Result<Option<Input>, AllocError>
    requires one_byte { length rs.now ≤ 1 }
    ensures { IfOk result (λ found. IfSome found (λ input. IsReady rs.now input)) }
{
    match Input::from_blocks(in_blocks(alloc, files)?) {
        Ok(mut input) => {
            input.mend(rs)?;
            Ok(Some(input))
        }
        Err(_) => Ok(None),
    }
}

/// Adds numbers with a blank between them, and a semicolon.
pub fn push_numbers(numbers: &[u64], out: &mut Vec<u8>) -> Result<(), AllocError> {
    for (place, number) in numbers.iter().enumerate() {
        if place > 0 {
            out.push(b' ')?;
        }
        push_decimal(*number, out)?;
    }
    Ok(out.push(b';')?)
}

/// Adds each file's name and size.
fn push_files(input: &Input, out: &mut Vec<u8>) -> Result<(), AllocError> {
    for file in 0..input.files() {
        push_encoded(input.name(file), out)?;
        out.push(b' ')?;
        push_numbers(&[input.size(file) as u64], out)?;
    }
    Ok(())
}

/// Adds records: the bytes of each, its file's name and place, `NR` and `FNR`.
fn push_records(records: Records<'_>, out: &mut Vec<u8>) -> Result<(), AllocError> {
    for item in records {
        push_encoded(item.bytes, out)?;
        out.push(b' ')?;
        push_encoded(item.name, out)?;
        out.push(b' ')?;
        push_numbers(&[item.file as u64, item.nr, item.fnr], out)?;
    }
    Ok(())
}

/// Adds how many records begin in a range of the first file.
fn push_begins(row: &[u8], rs: &[u8], input: &Input, out: &mut Vec<u8>) -> Result<(), AllocError>
    requires one_byte { length rs.now ≤ 1 }
    requires ready { IsReady rs.now input.now }
{
    let start = number(cell(row, 1)) as usize;
    let end = number(cell(row, 2)) as usize;
    if input.files() == 0 || start > end || end > input.size(0) {
        return out.extend_from_slice(b"no such range");
    }
    push_decimal(count_block(input, rs, 0, start..end), out)
}

/// Adds how many records begin in each block.
fn push_counts(
    alloc: Global,
    rs: &[u8],
    input: &Input,
    block: usize,
    out: &mut Vec<u8>,
) -> Result<(), AllocError>
    requires one_byte { length rs.now ≤ 1 }
    requires ready { IsReady rs.now input.now }
{
    if block == 0 {
        return out.extend_from_slice(b"no such block");
    }
    for count in &count_blocks(alloc, input, rs, block)? {
        push_numbers(&[*count], out)?;
    }
    Ok(())
}

/// Adds the answer to a row on files.
fn push_on(
    alloc: Global,
    verb: Verb,
    row: &[u8],
    rs: &[u8],
    input: &Input,
    out: &mut Vec<u8>,
) -> Result<(), AllocError>
    requires one_byte { length rs.now ≤ 1 }
    requires ready { IsReady rs.now input.now }
{
    let asked = number(cell(row, 1));
    match verb {
        Verb::Files => push_files(input, out),
        Verb::Records => push_records(input.records(rs), out),
        Verb::Begins => push_begins(row, rs, input, out),
        Verb::Counts => push_counts(alloc, rs, input, asked as usize, out),
        Verb::Size => push_plan(alloc, Plan::by_size(alloc, input, rs, asked.max(1)), out),
        Verb::Cuts => {
            let cuts = places(alloc, cell(row, 1))?;
            push_plan(alloc, Plan::at(alloc, input, rs, cuts.as_slice()), out)
        }
        Verb::Counted | Verb::Stepped => push_counted(alloc, verb, row, rs, input, out),
        _ => out.extend_from_slice(b"no such row"),
    }
}

/// Adds the answer to a row on files.
pub fn push_answer(
    alloc: Global,
    verb: Verb,
    row: &[u8],
    out: &mut Vec<u8>,
) -> Result<(), AllocError> {
    let first = first_file(verb);
    let rs = separator(alloc, row, first)?;
    if rs.len() > 1 {
        return out.extend_from_slice(b"no such separator");
    }
    let rs = rs.as_slice();
    match input_of(alloc, &files_of(alloc, row, first)?, rs)? {
        Some(input) => push_on(alloc, verb, row, rs, &input, out),
        None => out.extend_from_slice(b"too large"),
    }
}
