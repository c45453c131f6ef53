//! Faults that end a run.

use crate::words::{append_beginning, append_lines, append_number, append_plain};
use pawk_value::Fault;
use std::alloc::AllocError;

/// How many bytes of a record are shown at most.
const LONGEST: usize = 60;

/// Where a record is: the name of its file (empty for standard input), its number in it, and its bytes where they are
/// known.
#[derive(Clone, Copy)]
pub struct RecordPlace<'a> {
    pub file: &'a [u8],
    pub fnr: u64,
    pub bytes: Option<&'a [u8]>,
}

/// What happened.
fn words_of(fault: Fault) -> &'static str {
    match fault {
        Fault::Overflow =>
            "a number was less than -9223372036854775808 or greater than 9223372036854775807",
        Fault::Zero => "there was a division, or a remainder, by 0",
        Fault::Inexact => "a division left a remainder, and numbers are whole",
        Fault::Exponent => "the exponent of ^ was negative",
        Fault::Numeral => "the number of a text with a fraction or an exponent was needed",
        Fault::Rs => "RS had more than one byte when the records began",
        Fault::Fs => "a text was to be split by an empty separator",
        Fault::Field =>
            "the index of a field was negative, or greater than 32767 where it was assigned",
        Fault::Status => "the value of exit was not one of 0 to 255",
        Fault::Steps => "the budget of steps was used up, which BEGIN, END and each record have",
        Fault::Depth => "more than 200 calls were open at once",
        Fault::Length => "a text of more than 16777216 bytes was to be made",
        Fault::Negative => "a negative number was to be written by %o, %u, %x or %X",
        Fault::Format =>
            "a format could not be read, an argument was missing, or %c had a number that is no byte",
        Fault::Ere => "a text that stands for an expression could not be read",
    }
}

/// What to do.
fn advice_of(fault: Fault) -> &'static str {
    match fault {
        Fault::Overflow => "count in greater units, or divide before you multiply",
        Fault::Zero => "test the divisor: if (b != 0) c = a / b",
        Fault::Inexact => "the quotient towards 0 is (a - a % b) / b, and what is left a % b",
        Fault::Exponent => "such a power is a fraction: divide in its place",
        Fault::Numeral =>
            "to count money, count cents: split($1, p, \".\"); n += p[1] * 100 + p[2]",
        Fault::Rs =>
            "RS is one byte, or empty for paragraphs: take the last byte, and cut off the others by sub",
        Fault::Fs =>
            "for single bytes take substr: for (i = 1; i <= length(s); i++) c = substr(s, i, 1)",
        Fault::Field => "test the index: if (n > 0 && n <= NF) print $n",
        Fault::Status => "for a failure write exit 1",
        Fault::Steps =>
            "give a greater one by -s, as -s 1000000000, if there is no loop without end",
        Fault::Depth =>
            "a loop and an array have no such limit: take them in place of a function that calls itself",
        Fault::Length => "write its parts one after the other: printf \"%s\", part",
        Fault::Negative => "write it by %d",
        Fault::Format =>
            "there are %d %i %o %u %x %X %c %s and %%; for cents: printf \"%d.%02d\", (n - n % 100) / 100, n % 100",
        Fault::Ere =>
            "a sign that means itself has a backslash, which a string has as two: \"\\\\.\"",
    }
}

/// Appends the name of a file, and the number of a record of it.
fn append_number_in_file(out: &mut Vec<u8>, file: &[u8], fnr: u64) -> Result<(), AllocError> {
    if file.is_empty() {
        out.extend_from_slice(b"  in standard input, record ")?;
        return append_number(out, fnr);
    }
    out.extend_from_slice(b"  in file ")?;
    append_plain(out, file)?;
    out.extend_from_slice(b", record ")?;
    append_number(out, fnr)?;
    out.extend_from_slice(b" of it")
}

/// Appends the beginning of a record.
fn append_bytes(out: &mut Vec<u8>, bytes: &[u8]) -> Result<(), AllocError> {
    if bytes.is_empty() {
        return out.extend_from_slice(b", which is empty");
    }
    out.extend_from_slice(b": ")?;
    append_beginning(out, bytes, LONGEST)
}

/// Appends the line that says where a record is.
fn append_record(out: &mut Vec<u8>, record: RecordPlace<'_>) -> Result<(), AllocError> {
    append_number_in_file(out, record.file, record.fnr)?;
    if let Some(bytes) = record.bytes {
        append_bytes(out, bytes)?;
    }
    out.extend_from_slice(b"\n")
}

/// Appends the explanation of a fault: at which record, what happened, and what to do.
pub fn explain_fault(
    out: &mut Vec<u8>,
    fault: Fault,
    record: Option<RecordPlace<'_>>,
) -> Result<(), AllocError> {
    if let Some(record) = record {
        append_record(out, record)?;
    }
    append_lines(out, words_of(fault), &[])?;
    append_lines(out, advice_of(fault), &[])
}
