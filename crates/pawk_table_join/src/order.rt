//! What is asked of a join of tables.

use pawk_sequential::Job;
use pawk_tables::Header;

/// What is asked of a join of tables.
#[derive(Clone, Copy)]
pub struct JoinOrder<'p> {
    /// The program, its steps and its seed.
    pub job: Job<'p>,
    /// What the table of all begins with.
    pub header: Header<'p>,
}

/// A table that is joined to those before it.
#[derive(Clone, Copy)]
pub struct Neighbour<'a, 't> {
    /// The name of its file.
    pub name: &'a str,
    /// How many records come before its own, by its word.
    pub before: u64,
    /// Its bytes between the header and the end line.
    pub sections: &'t [u8],
}
