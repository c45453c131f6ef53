//! Putting words together.

use itoa::Buffer;
use std::alloc::AllocError;

/// Stands for what is put into words.
const INSERT: u8 = b'@';

/// Appends words, in which each `@` stands for what is put in. A line of words that follows another is begun with two
/// blanks.
pub(crate) fn append_words(
    out: &mut Vec<u8>,
    words: &str,
    insert: &[u8],
) -> Result<(), AllocError> {
    for byte in words.as_bytes() {
        match *byte {
            INSERT => out.extend_from_slice(insert)?,
            b'\n' => out.extend_from_slice(b"\n  ")?,
            _ => out.push(*byte)?,
        }
    }
    Ok(())
}

/// Appends words as whole lines.
pub(crate) fn append_lines(
    out: &mut Vec<u8>,
    words: &str,
    insert: &[u8],
) -> Result<(), AllocError> {
    out.extend_from_slice(b"  ")?;
    append_words(out, words, insert)?;
    out.extend_from_slice(b"\n")
}

/// Appends bytes, of which those that control a terminal are written as `?`.
pub(crate) fn append_plain(out: &mut Vec<u8>, bytes: &[u8]) -> Result<(), AllocError> {
    for byte in bytes {
        out.push(if byte.is_ascii_control() { b'?' } else { *byte })?;
    }
    Ok(())
}

/// Appends the beginning of bytes, of at most `most`, and ` ..` where there are more.
pub(crate) fn append_beginning(
    out: &mut Vec<u8>,
    bytes: &[u8],
    most: usize,
) -> Result<(), AllocError> {
    match bytes.get(..most) {
        Some(beginning) if beginning.len() < bytes.len() => {
            append_plain(out, beginning)?;
            out.extend_from_slice(b" ..")
        }
        _ => append_plain(out, bytes),
    }
}

/// Appends a number in digits.
pub(crate) fn append_number(out: &mut Vec<u8>, number: u64) -> Result<(), AllocError> {
    let mut buffer = Buffer::new();
    out.extend_from_slice(buffer.format(number).as_bytes())
}
