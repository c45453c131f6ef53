//! The operands: files, and assignments among them.

use crate::script::STANDARD_INPUT;
use pawk_settings::Assignment;
use std::alloc::{AllocError, Global};

/// What an operand is.
#[derive(Clone, Copy)]
enum Operand<'a> {
    /// A name and a value, with `=` between.
    Assigns(&'a str),
    /// The name of a file, `-` for standard input.
    Reads(&'a str),
}

/// Whether a text is a name: a letter or `_`, and then letters, digits and `_`.
fn is_name(text: &str) -> bool {
    match text.as_bytes() {
        [b'a'..=b'z' | b'A'..=b'Z' | b'_', rest @ ..] => rest
            .iter()
            .all(|byte| byte.is_ascii_alphanumeric() || *byte == b'_'),
        _ => false,
    }
}

impl<'a> Operand<'a> {
    /// What a word is as an operand: an assignment where it begins with a name and `=`, else a file.
    ///
    /// POSIX.1-2017, awk, "OPERANDS".
    fn of(word: &'a str) -> Operand<'a> {
        match word.split_once('=') {
            Some((name, _)) if is_name(name) => Operand::Assigns(word),
            _ => Operand::Reads(word),
        }
    }
}

/// A file among the operands.
#[derive(Clone, Copy)]
struct FileOperand<'a> {
    /// Its name, `-` for standard input.
    name: &'a str,
    /// How many assignments come before it among the operands.
    assigned: usize,
}

/// A file that is to be read, and what is assigned before it.
#[derive(Clone, Copy)]
pub struct FileTurn<'a, 'p> {
    /// Its name, `-` for standard input.
    pub name: &'a str,
    /// What is assigned after the file before it; nothing before the first file.
    pub before: &'p [Assignment],
}

/// The operands, in their order. Where none is a file, standard input is read after all of them.
#[derive(Drop)]
pub struct Operands<'a> {
    /// The assignments, each a name and a value with `=` between.
    assignments: Vec<&'a str>,
    files: Vec<FileOperand<'a>>,
}

impl<'a> Operands<'a> {
    /// The operands that these words are.
    ///
    /// POSIX.1-2017, awk, "OPERANDS" and "STDIN".
    pub fn new(alloc: Global, words: &[&'a str]) -> Result<Operands<'a>, AllocError> {
        let mut assignments = Vec::new(alloc);
        let mut files = Vec::new(alloc);
        for word in words {
            match Operand::of(*word) {
                Operand::Assigns(text) => assignments.push(text)?,
                Operand::Reads(name) => files.push(FileOperand {
                    name,
                    assigned: assignments.len(),
                })?,
            }
        }
        if files.is_empty() {
            files.push(FileOperand {
                name: STANDARD_INPUT,
                assigned: assignments.len(),
            })?;
        }
        Ok(Operands { assignments, files })
    }

    /// The assignments, each a name and a value with `=` between.
    pub fn assignments(&self) -> &[&'a str] {
        self.assignments.as_slice()
    }

    /// How many assignments come before the first file.
    fn first_count(&self) -> usize {
        match self.files.first() {
            Some(file) => file.assigned,
            None => 0,
        }
    }

    /// How many assignments come before the last file.
    fn last_count(&self) -> usize {
        match self.files.last() {
            Some(file) => file.assigned,
            None => 0,
        }
    }

    /// The number of the first assignment to `RS` after the first file, counted from 0. `RS` is taken before that file is
    /// read, and not again.
    pub fn late_separator(&self) -> Option<usize> {
        let first = self.first_count();
        for (number, text) in self.assignments.iter().enumerate() {
            if number >= first && text.starts_with("RS=") {
                return Some(number);
            }
        }
        None
    }

    /// What is assigned before the first file, of what all operands assign.
    pub fn first<'p>(&self, assigned: &'p [Assignment]) -> &'p [Assignment] {
        assigned.get(..self.first_count()).unwrap_or(&[])
    }

    /// What is assigned after the last file, of what all operands assign.
    pub fn last<'p>(&self, assigned: &'p [Assignment]) -> &'p [Assignment] {
        assigned.get(self.last_count()..).unwrap_or(&[])
    }

    /// The files in their order, each with what is assigned before it, of what all operands assign.
    pub fn turns<'p>(
        &self,
        alloc: Global,
        assigned: &'p [Assignment],
    ) -> Result<Vec<FileTurn<'a, 'p>>, AllocError> {
        let mut turns = Vec::with_capacity(alloc, self.files.len())?;
        let mut count = self.first_count();
        for file in &self.files {
            turns.push(FileTurn {
                name: file.name,
                before: assigned.get(count..file.assigned).unwrap_or(&[]),
            })?;
            count = file.assigned;
        }
        Ok(turns)
    }
}
