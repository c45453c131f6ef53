//! A record as a walk hands it out.

ghost use Rattle.std.specs.Prelude.{◌≤◌, length};
ghost use Rattle.pawk_input.specs.Limits.{most_bytes};

/// A record, lent from the input.
#[derive(Clone, Copy)]
pub struct Item<'a> {
    /// The record's bytes, without the separator that ends it.
    pub bytes: &'a [u8],
    /// The place of the record's file in the list of files, counted from 0.
    pub file: usize,
    /// The name of that file.
    pub name: &'a [u8],
    /// The record's number among all records, counted from 1 (`NR`).
    pub nr: u64,
    /// The record's number in its file, counted from 1 (`FNR`).
    pub fnr: u64,
    pub ghost counted: { nr ≤ most_bytes },
    pub ghost in_file: { fnr ≤ nr },
    pub ghost short: { length bytes.now ≤ most_bytes },
}
