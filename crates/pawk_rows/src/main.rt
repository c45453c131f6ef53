//! Reads rows from standard input, one a line, and answers each with a line. The first cell of a line is the topic, and what
//! comes after its tab is the row, which the module of that name describes:
//!
//! | topic | answer |
//! |---|---|
//! | `ere` | why an expression is refused, and where it matches from a place on |
//! | `globals` | what the globals of a run have |
//! | `input` | the records of blocks, and plans of chunks |
//! | `lex` | the tokens of a text, with their spans |
//! | `record` | what a record has after a fault |
//! | `value` | each fault's number and name |
//!
//! A topic is known by its first letter. A line of another is answered with `no topic`.
#![tactic(auto)]

mod ere;
mod globals;
mod input;
mod lex;
mod marks;
mod pieces;
mod record;
mod text;

use pawk_value::Fault;
use std::alloc::{AllocError, Global};
use std::io;
use text::{first_and_rest, push_decimal};

/// Each fault in the order of its number.
const FAULTS: [Fault; 15] = [
    Fault::Overflow,
    Fault::Zero,
    Fault::Inexact,
    Fault::Exponent,
    Fault::Numeral,
    Fault::Rs,
    Fault::Fs,
    Fault::Field,
    Fault::Status,
    Fault::Steps,
    Fault::Depth,
    Fault::Length,
    Fault::Negative,
    Fault::Format,
    Fault::Ere,
];

/// Adds the faults' numbers and names, with blanks between them.
fn push_faults(out: &mut Vec<u8>) -> Result<(), AllocError> {
    for fault in FAULTS {
        out.extend_from_slice(if out.is_empty() { b"" } else { b" " })?;
        push_decimal(u64::from(fault as u8), out)?;
        out.extend_from_slice(b" ")?;
        out.extend_from_slice(fault.name().as_bytes())?;
    }
    Ok(())
}

/// Adds the answer to a line.
fn push_answer(alloc: Global, line: &[u8], out: &mut Vec<u8>) -> Result<(), AllocError> {
    let (topic, row) = first_and_rest(line);
    match topic.first() {
        Some(b'e') => ere::push_answer(alloc, row, out),
        Some(b'g') => globals::push_answer(alloc, row, out),
        Some(b'i') => input::push_answer(alloc, row, out),
        Some(b'l') => lex::push_answer(alloc, row, out),
        Some(b'r') => record::push_answer(alloc, row, out),
        Some(b'v') => push_faults(out),
        _ => out.extend_from_slice(b"no topic"),
    }
}

fn main(rt: HostRuntime) -> io::Result<()> {
    let mut answer = Vec::new(rt.alloc());
    for line in rt.lines(rt.alloc()) {
        let row = line?;
        answer.clear();
        push_answer(rt.alloc(), row.as_str().as_bytes(), &mut answer)?;
        println!(rt;
            "{}",
            str::from_utf8(answer.as_slice()).unwrap_or("not a text")
        )?;
    }
    Ok(())
}
