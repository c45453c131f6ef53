//! Where the last record of a piece begins.

ghost use Rattle.std.specs.Prelude.{◌≡◌, ◌≤◌, ◌++◌, length, IfOk};
ghost use Rattle.pawk_records.specs.Records.{records_by};
ghost use Rattle.pawk_records.specs.Separator.{rs_of};
ghost use Rattle.pawk_map.specs.Sections.{Parts};

use pawk_records::Separator;
use pawk_window::whole_length;
use std::alloc::{AllocError, Global};

/// How many of the bytes there are without the newlines at their end.
fn text_length(bytes: &[u8]) -> usize
    ensures { result ≤ length bytes.now }
{
    match bytes.iter().rposition(|byte| *byte != b'\n') {
        Some(place) => place + 1,
        None => 0,
    }
}

/// How many of the bytes there are without what ends the last record: a separator, or the newlines at the end.
fn open_length(bytes: &[u8], separator: Separator) -> usize
    ensures { result ≤ length bytes.now }
{
    match separator {
        Separator::Byte(byte) => match bytes.last() {
            Some(last) if *last == byte => bytes.len() - 1,
            _ => bytes.len(),
        },
        Separator::Paragraph => text_length(bytes),
    }
}

/// Where the last of whole records begins: how many bytes those before it have.
///
/// POSIX.1-2017, awk, "Variables and Special Variables" (RS).
fn begin_of_last(bytes: &[u8], separator: Separator) -> usize
    ensures { Parts (rs_of separator) bytes.now result }
{
    whole_length(&bytes[..open_length(bytes, separator)], 0, separator)
}

/// The bytes of whole records in two: those before the last record, and the last one.
///
/// The error comes where memory was refused.
pub(crate) fn part_last(
    alloc: Global,
    separator: Separator,
    bytes: Vec<u8>,
) -> Result<(Vec<u8>, Vec<u8>), AllocError>
    ensures { IfOk result (λ r. records_by (rs_of separator) bytes.items
        ≡ records_by (rs_of separator) r.0.items ++ records_by (rs_of separator) r.1.items) }
{
    let mut bytes = bytes;
    let place = begin_of_last(&bytes, separator);
    let last = Vec::from_slice(alloc, &bytes[place..])?;
    bytes.truncate(place);
    Ok((bytes, last))
}
