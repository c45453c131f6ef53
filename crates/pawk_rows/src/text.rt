//! What the topics share: a row is cut at its tabs, and bytes are written as text.

ghost use Rattle.std.specs.Prelude.{◌≤◌, IfSome};

use itoa::Buffer;
use pawk_value::Fault;
use std::alloc::{AllocError, Global};

/// The piece of a text with that number, counted from 0, of those between the places of a byte. A text without it has an
/// empty one.
pub fn piece(text: &[u8], separator: u8, number: usize) -> &[u8] {
    text.split(|byte| *byte == separator)
        .nth(number)
        .unwrap_or(b"")
}

/// The cell of a row with that number, counted from 0: the row's pieces between its tabs. A row without it has an empty one.
pub fn cell(row: &[u8], number: usize) -> &[u8] {
    piece(row, b'\t', number)
}

/// The first cell of a row, and what is after its tab: nothing where there is no tab.
pub fn first_and_rest(row: &[u8]) -> (&[u8], &[u8]) {
    let first = cell(row, 0);
    (first, row.get(first.len() + 1..).unwrap_or(b""))
}

/// The number that a cell writes in decimal digits, or 0.
pub fn number(cell: &[u8]) -> u64 {
    str::from_utf8(cell).unwrap_or("").parse().unwrap_or(0)
}

/// The value of an octal digit.
fn octal_digit(byte: u8) -> Option<u8>
    ensures { IfSome result (λ digit. digit ≤ 7) }
{
    match byte {
        b'0'..=b'7' => Some(byte - b'0'),
        _ => None,
    }
}

/// The byte that a backslash stands for with what follows it, and how many bytes follow: three octal digits, or one byte
/// that stands for itself.
fn escaped(rest: &[u8]) -> (u8, usize) {
    match rest {
        [a, b, c, ..] => match (octal_digit(*a), octal_digit(*b), octal_digit(*c)) {
            (Some(a), Some(b), Some(c)) if a <= 3 => (a * 64 + b * 8 + c, 3),
            _ => (*a, 1),
        },
        [a, ..] => (*a, 1),
        [] => (b'\\', 0),
    }
}

/// The bytes that a cell writes: each byte is itself, but a backslash with three octal digits is the byte of that value,
/// and a backslash with another byte that byte.
pub fn decode(alloc: Global, cell: &[u8]) -> Result<Vec<u8>, AllocError> {
    let mut bytes = Vec::new(alloc);
    let mut skipped = 0;
    for (place, byte) in cell.iter().enumerate() {
        if skipped > 0 {
            skipped -= 1;
        } else if *byte == b'\\' {
            let (value, length) = escaped(&cell[place + 1..]);
            bytes.push(value)?;
            skipped = length;
        } else {
            bytes.push(*byte)?;
        }
    }
    Ok(bytes)
}

/// Adds bytes as a cell writes them: 32 to 126 as they are, but a backslash and every other byte as a backslash with three
/// octal digits.
pub fn push_encoded(bytes: &[u8], out: &mut Vec<u8>) -> Result<(), AllocError> {
    for byte in bytes {
        match *byte {
            b'\\' | 0..=31 | 127..=255 => {
                out.extend_from_slice(&[
                    b'\\',
                    b'0' + *byte / 64,
                    b'0' + *byte / 8 % 8,
                    b'0' + *byte % 8,
                ])?;
            }
            plain => out.push(plain)?,
        }
    }
    Ok(())
}

/// Adds a number in decimal digits.
pub fn push_decimal(number: u64, out: &mut Vec<u8>) -> Result<(), AllocError> {
    out.extend_from_slice(Buffer::new().format(number).as_bytes())
}

/// Adds the bytes that a cell writes, so often.
fn push_repeated(
    alloc: Global,
    cell: &[u8],
    count: u64,
    out: &mut Vec<u8>,
) -> Result<(), AllocError> {
    let bytes = decode(alloc, cell)?;
    for _ in 0..count {
        out.extend_from_slice(bytes.as_slice())?;
    }
    Ok(())
}

/// Adds the bytes that parts write, which tabs part: how often a part occurs, and its bytes, by turns.
pub fn push_parts(alloc: Global, parts: &[u8], out: &mut Vec<u8>) -> Result<(), AllocError> {
    let mut count = None;
    for part in parts.split(|byte| *byte == b'\t') {
        count = match count {
            None => Some(number(part)),
            Some(count) => {
                push_repeated(alloc, part, count, out)?;
                None
            }
        };
    }
    Ok(())
}

/// Adds the name of a fault in brackets, after a space.
pub fn push_fault(fault: Fault, out: &mut Vec<u8>) -> Result<(), AllocError> {
    out.extend_from_slice(b" [")?;
    out.extend_from_slice(fault.name().as_bytes())?;
    out.extend_from_slice(b"]")
}
