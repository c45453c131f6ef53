//! The input: a list of files.

ghost use Rattle.std.specs.Prelude.{◌≡◌, ℕ, ◌+◌, ◌<◌, ◌≤◌, ◌↔◌, [], ◌∷◌, length, IsTrue};
ghost use Rattle.std.specs.Prelude.{List, OnOk, IfOk, IfSome, MatchResult};
ghost use Rattle.pawk_input.specs.Limits.{most_bytes};
ghost use Rattle.pawk_records.specs.Blocks.{AreMended, joined};
ghost use Rattle.pawk_input.specs.Input.{IsReady, file_at, file_of, files_of, in_blocks};
ghost use Rattle.pawk_input.specs.Input.{items, total_size, whole_files};
ghost use Rattle.pawk_input.specs.Held.{held_files};
ghost use Rattle.pawk_input.specs.Lent.{lent_file};
ghost use Rattle.pawk_input.specs.Walk.{items_left};

use crate::lent::{LentFile, LentFiles};
use crate::walk::Records;
use pawk_records::{Blocks, LentBlocks, Separator};
use std::alloc::AllocError;
use std::marker::Model;
use thiserror::Error;

/// The most bytes that the files of an input may hold together.
pub const LIMIT: u64 = 4_611_686_018_427_387_904;

/// The files hold more than [`LIMIT`] bytes together.
#[derive(Clone, Copy, Debug, Drop, Error)]
#[error("the input is too large")]
pub struct TooLarge;

/// How the files are held.
#[derive(Drop)]
enum HeldFiles {
    /// Names, each with all bytes in one vector.
    Vectors(Vec<(Vec<u8>, Vec<u8>)>),
    /// Names, each with the blocks of the bytes.
    Blocks(Vec<(Vec<u8>, Blocks)>),
}

/// A list of files with their names and bytes, of at most [`LIMIT`] bytes together.
#[derive(Drop)]
pub struct Input {
    held: HeldFiles,
}

impl Model for Input {
    ghost use Rattle.std.specs.Prelude.{◌≤◌, List};
    ghost use Rattle.pawk_input.specs.Limits.{most_bytes};
    ghost use Rattle.pawk_input.specs.Input.{FileInBlocks, files_of, total_size};
    ghost use Rattle.pawk_input.specs.Held.{held_files};

    ghost Value = { List FileInBlocks };

    ghost view = { λ input. held_files input.held };

    ghost invariant = { λ input. total_size (files_of (held_files input.held)) ≤ most_bytes };
}

/// Whether files hold at most [`LIMIT`] bytes together.
fn are_limited(files: LentFiles<'_>) -> bool
    ensures { IsTrue result ↔ (total_size (files_of files.entry) ≤ most_bytes) }
{
    let mut rest = files;
    let mut total = 0u64;
    while let Some(file) = rest.next_file() {
        match file.blocks.size_within((LIMIT - total) as usize) {
            Some(size) => total += size as u64,
            None => return false,
        }
    }
    true
}

/// Mends the blocks of each file. Names and bytes stay as they are.
fn mend_files(files: &mut [(Vec<u8>, Blocks)], rs: &[u8]) -> Result<(), AllocError>
    requires { length rs.now ≤ 1 }
    ensures same { files_of (in_blocks files.new) ≡ files_of (in_blocks files.old) }
    ensures ready { OnOk result (IsReady rs.now (in_blocks files.new)) }
{
    for i in 0..files.len() {
        files[i].1.mend(rs)?;
    }
    Ok(())
}

impl HeldFiles {
    /// The files, lent.
    fn lend(&self) -> LentFiles<'_>
        ensures { result ≡ held_files self.now }
    {
        match self {
            HeldFiles::Vectors(files) => LentFiles::in_vectors(files),
            HeldFiles::Blocks(files) => LentFiles::in_blocks(files),
        }
    }

    /// Mends the blocks of each file that lies in blocks.
    fn mend(&mut self, rs: &[u8]) -> Result<(), AllocError>
        requires { length rs.now ≤ 1 }
        ensures same { files_of (held_files self.new) ≡ files_of (held_files self.old) }
        ensures ready { OnOk result (IsReady rs.now (held_files self.new)) }
    {
        match self {
            HeldFiles::Vectors(_) => Ok(()),
            HeldFiles::Blocks(files) => mend_files(files, rs),
        }
    }
}

impl Input {
    /// The input of these files, each a name and its bytes. Takes no memory and copies nothing. It
    /// is ready for every separator.
    ///
    /// Gives `TooLarge` exactly where the files hold more than [`LIMIT`] bytes together; they are
    /// then given up.
    pub fn new(files: Vec<(Vec<u8>, Vec<u8>)>) -> Result<Input, TooLarge>
        ensures files { IfOk result (λ input. files_of input ≡ whole_files files.items) }
        ensures ready { IfOk result (λ input. (rs : List ℕ) → IsReady rs input) }
        ensures limited { MatchResult result
            (λ input. total_size (files_of input) ≤ most_bytes)
            (λ _. most_bytes < total_size (whole_files files.items)) }
    {
        if are_limited(LentFiles::in_vectors(&files)) {
            Ok(Input {
                held: HeldFiles::Vectors(files),
            })
        } else {
            Err(TooLarge)
        }
    }

    /// The input of these files, each a name and the blocks of its bytes. Takes no memory and copies
    /// nothing. It is ready for a separator once it was mended for it.
    ///
    /// Gives `TooLarge` exactly where the files hold more than [`LIMIT`] bytes together; they are
    /// then given up.
    pub fn from_blocks(files: Vec<(Vec<u8>, Blocks)>) -> Result<Input, TooLarge>
        ensures { MatchResult result
            (λ input. (input ≡ in_blocks files.items) × (total_size (files_of input) ≤ most_bytes))
            (λ _. most_bytes < total_size (files_of (in_blocks files.items))) }
    {
        if are_limited(LentFiles::in_blocks(&files)) {
            Ok(Input {
                held: HeldFiles::Blocks(files),
            })
        } else {
            Err(TooLarge)
        }
    }

    /// Makes the input ready for records that end as `rs` says, one byte, or none for paragraphs:
    /// mends each file's blocks. Names and bytes stay as they are.
    ///
    /// An error comes where memory for bytes that go to another block was refused. No memory is
    /// asked for where each file is one vector or one block.
    pub fn mend(&mut self, rs: &[u8]) -> Result<(), AllocError>
        requires { length rs.now ≤ 1 }
        ensures same { files_of self.new ≡ files_of self.old }
        ensures ready { OnOk result (IsReady rs.now self.new) }
    {
        self.held.mend(rs)
    }

    /// How many files there are.
    pub fn files(&self) -> usize
        ensures count { result ≡ length (files_of self.now) }
        ensures limited { total_size (files_of self.now) ≤ most_bytes }
    {
        self.held.lend().len()
    }

    /// A file, by its place counted from 0.
    fn file(&self, place: usize) -> LentFile<'_>
        requires { place < length (files_of self.now) }
        ensures value { file_of (lent_file result) ≡ file_at (files_of self.now) place }
        ensures mended { (rs : List ℕ) → IsReady rs self.now → AreMended rs result.blocks }
        ensures limited { total_size (files_of self.now) ≤ most_bytes }
    {
        self.held.lend().file(place)
    }

    /// The name of a file, by its place counted from 0.
    pub fn name(&self, file: usize) -> &[u8]
        requires { file < length (files_of self.now) }
        ensures { result.now ≡ (file_at (files_of self.now) file).name }
    {
        self.file(file).name
    }

    /// How many bytes a file holds, by its place counted from 0.
    pub fn size(&self, file: usize) -> usize
        requires { file < length (files_of self.now) }
        ensures { result ≡ length (file_at (files_of self.now) file).bytes }
    {
        self.file(file).blocks.size()
    }

    /// How many bytes the files hold together.
    pub fn total_size(&self) -> u64
        ensures value { result ≡ total_size (files_of self.now) }
        ensures limited { result ≤ most_bytes }
    {
        let mut total = 0u64;
        for file in 0..self.files() {
            total += self.size(file) as u64;
        }
        total
    }

    /// Gives the files back, each a name and its bytes, so that their memory may be used again: those
    /// that the input was made of (`new`), as they were. `None` where they lie in blocks
    /// (`from_blocks`), which are then given up.
    pub fn into_files(self) -> Option<Vec<(Vec<u8>, Vec<u8>)>>
        ensures { IfSome result (λ files. whole_files files.items ≡ files_of self) }
    {
        match self.held {
            HeldFiles::Vectors(files) => Some(files),
            HeldFiles::Blocks(_) => None,
        }
    }

    /// The blocks of a file, by its place counted from 0.
    pub(crate) fn blocks(&self, file: usize) -> LentBlocks<'_>
        requires { file < length (files_of self.now) }
        ensures value { joined result ≡ (file_at (files_of self.now) file).bytes }
        ensures mended { (rs : List ℕ) → IsReady rs self.now → AreMended rs result }
        ensures limited { total_size (files_of self.now) ≤ most_bytes }
    {
        self.file(file).blocks
    }

    /// The records of all files in order, with their files and numbers. Takes no memory and copies
    /// nothing.
    ///
    /// `rs` holds one byte, at which a record ends (a last one without it counts if it is not
    /// empty), or none: then newlines at both ends of a file are taken away, and two or more of
    /// them separate records. No record spans two files. POSIX.1-2017, awk, "Variables and Special Variables" (`RS`, `NR`, `FNR`).
    pub fn records(&self, rs: &[u8]) -> Records<'_>
        requires one_byte { length rs.now ≤ 1 }
        requires ready { IsReady rs.now self.now }
        ensures walk { items_left result ≡ items rs.now (files_of self.now) }
        ensures limited { total_size (files_of self.now) ≤ most_bytes }
    {
        Records::of_files(Separator::of(rs), self.held.lend())
    }
}
