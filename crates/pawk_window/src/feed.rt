//! Where a file's bytes come from.

use pawk_settings::Assignment;

/// A file of the input whose bytes are still to come: its name, the source of its bytes, and what is assigned before it is read.
#[derive(Drop)]
pub struct Feed<'p, S> {
    /// What is assigned before the file is read, after the file before it; nothing before the first file.
    pub before: &'p [Assignment],
    /// The file's name; standard input has none.
    pub name: Vec<u8>,
    /// The device that its bytes come from.
    pub source: S,
}
