//! Rows of tests: a line each, with cells that blanks part. They are one text, since an array of texts is built anew, piece by
//! piece, where it is used, and the proof goes through all of that.

/// The first cell of a row, and what comes after it.
pub(crate) fn first_cell(row: &str) -> (&str, &str) {
    row.split_once(' ').unwrap_or((row, ""))
}

/// The number in the first cell of a row, and what comes after it. A cell without one has the greatest number, which no row
/// wants.
pub(crate) fn first_number(row: &str) -> (u64, &str) {
    let (cell, rest) = first_cell(row);
    (cell.parse().unwrap_or(u64::MAX), rest)
}

/// Whether a cell begins so: in a cell `/` stands for a newline, and `=` comes before the first byte.
pub(crate) fn begins_with(cell: &str, bytes: &[u8]) -> bool {
    match cell.as_bytes() {
        [b'=', wanted @ ..] => {
            bytes.len() <= wanted.len()
                && bytes.iter().zip(wanted).all(|(byte, wanted)| byte == wanted
                    || (*byte == b'\n' && *wanted == b'/'))
        }
        _ => false,
    }
}

/// Whether a cell has these bytes.
pub(crate) fn has_bytes(cell: &str, bytes: &[u8]) -> bool {
    bytes.len() + 1 == cell.len() && begins_with(cell, bytes)
}
