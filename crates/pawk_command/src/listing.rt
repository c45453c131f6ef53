//! The final variables, a line for each.

use itoa::{Buffer, Integer};
use pawk_array::Element;
use pawk_store::{Content, Named};
use pawk_value::ValueRef;
use std::alloc::AllocError;

/// Appends a number in decimal digits.
pub fn append_number<N: Integer>(lines: &mut Vec<u8>, number: N) -> Result<(), AllocError> {
    let mut digits = Buffer::new();
    lines.extend_from_slice(digits.format(number).as_bytes())
}

/// Appends a byte as it is written in a string: a quote and a backslash after a backslash, a printable
/// byte itself, any other one by three octal digits.
pub fn append_byte(lines: &mut Vec<u8>, byte: u8) -> Result<(), AllocError> {
    match byte {
        b'"' | b'\\' => lines.extend_from_slice(&[b'\\', byte]),
        b' '..=b'~' => lines.extend_from_slice(&[byte]),
        _ => {
            let digits = [b'0' + byte / 64, b'0' + byte / 8 % 8, b'0' + byte % 8];
            lines.extend_from_slice(&[b'\\', digits[0], digits[1], digits[2]])
        }
    }
}

/// Appends a text as a string of awk.
///
/// POSIX.1-2017, awk, "Lexical Conventions" (STRING).
pub fn append_string(lines: &mut Vec<u8>, text: &[u8]) -> Result<(), AllocError> {
    lines.extend_from_slice(b"\"")?;
    for byte in text {
        append_byte(lines, *byte)?;
    }
    lines.extend_from_slice(b"\"")
}

/// Appends the kind of a value and what it is, and ends the line.
fn append_value(lines: &mut Vec<u8>, value: ValueRef<'_>) -> Result<(), AllocError> {
    match value {
        ValueRef::Uninit => lines.extend_from_slice(b" uninit")?,
        ValueRef::Num(number) => {
            lines.extend_from_slice(b" num ")?;
            append_number(lines, number)?;
        }
        ValueRef::Text(text) => {
            lines.extend_from_slice(b" text ")?;
            append_string(lines, text)?;
        }
        ValueRef::Maybe(text) => {
            lines.extend_from_slice(b" maybe ")?;
            append_string(lines, text)?;
        }
    }
    lines.extend_from_slice(b"\n")
}

/// Appends how the line of a global begins.
fn append_name(lines: &mut Vec<u8>, name: &[u8]) -> Result<(), AllocError> {
    lines.extend_from_slice(b"global ")?;
    lines.extend_from_slice(name)
}

/// Appends the lines of an array of this name.
fn append_elements(
    lines: &mut Vec<u8>,
    name: &[u8],
    elements: &[Element<'_>],
) -> Result<(), AllocError> {
    append_name(lines, name)?;
    lines.extend_from_slice(b" array ")?;
    append_number(lines, elements.len())?;
    lines.extend_from_slice(b"\n")?;
    for element in elements {
        append_name(lines, name)?;
        lines.extend_from_slice(b"[")?;
        append_string(lines, element.key)?;
        lines.extend_from_slice(b"]")?;
        append_value(lines, element.value)?;
    }
    Ok(())
}

/// Appends the lines of a global: `global NAME`, and `uninit`, `num N`, `text "T"`, or `maybe "T"` for a text
/// from outside that may look numeric; of an array `array COUNT`, and a line for each element.
fn append_global(lines: &mut Vec<u8>, global: &Named<'_>) -> Result<(), AllocError> {
    let name = global.name.as_slice();
    match &global.content {
        Content::Value(value) => {
            append_name(lines, name)?;
            append_value(lines, *value)
        }
        Content::Elements(elements) => append_elements(lines, name, elements.as_slice()),
    }
}

/// Appends the lines of these globals, in their order.
pub fn append_globals(lines: &mut Vec<u8>, globals: &[Named<'_>]) -> Result<(), AllocError> {
    for global in globals {
        append_global(lines, global)?;
    }
    Ok(())
}
