//! Files that are lent.

ghost use Rattle.std.specs.Prelude.{◌≡◌, ◌^◌, ◌<◌, [], ◌∷◌, Some, length, slice_get, MatchOption};
ghost use Rattle.pawk_input.specs.Input.{in_blocks, in_vector, in_vectors, named_blocks};
ghost use Rattle.pawk_input.specs.Lent.{lent_file};

use pawk_records::{Blocks, LentBlocks};
use std::marker::Model;

/// A file: its name, and its bytes as they lie in memory.
#[derive(Drop)]
pub(crate) struct LentFile<'a> {
    pub(crate) name: &'a [u8],
    pub(crate) blocks: LentBlocks<'a>,
}

impl<'a> LentFile<'a> {
    /// A file that lies in one vector.
    fn whole(file: &'a (Vec<u8>, Vec<u8>)) -> Self
        ensures { lent_file result ≡ in_vector file.entry.now }
    {
        LentFile {
            name: &file.0,
            blocks: LentBlocks::whole(&file.1),
        }
    }

    /// A file in blocks.
    fn parted(file: &'a (Vec<u8>, Blocks)) -> Self
        ensures { lent_file result ≡ named_blocks file.entry.now }
    {
        LentFile {
            name: &file.0,
            blocks: file.1.lend(),
        }
    }
}

/// The element at a place counted from 0.
fn at<T>(list: &[T], place: usize) -> &T
    requires { place < length list.now }
    ensures { slice_get list.now place ≡ Some result.now }
{
    &list[place]
}

/// Where files lie.
#[derive(Clone, Copy)]
enum FileStorage<'a> {
    /// Names, each with all bytes in one vector.
    Vectors(&'a [(Vec<u8>, Vec<u8>)]),
    /// Names, each with the blocks of the bytes.
    Blocks(&'a [(Vec<u8>, Blocks)]),
}

/// Files as they lie in memory.
#[derive(Drop)]
pub(crate) struct LentFiles<'a> {
    place: FileStorage<'a>,
}

impl<'a> Model for LentFiles<'a> {
    ghost use Rattle.std.specs.Prelude.{List};
    ghost use Rattle.pawk_input.specs.Input.{FileInBlocks};
    ghost use Rattle.pawk_input.specs.Lent.{files_at};

    ghost Value = { List FileInBlocks };

    ghost view = { λ files. files_at files.place };
}

impl<'a> LentFiles<'a> {
    /// Files that each lie in one vector.
    pub(crate) fn in_vectors(files: &'a [(Vec<u8>, Vec<u8>)]) -> Self
        ensures { result ≡ in_vectors files.entry.now }
    {
        LentFiles {
            place: FileStorage::Vectors(files),
        }
    }

    /// Files in blocks.
    pub(crate) fn in_blocks(files: &'a [(Vec<u8>, Blocks)]) -> Self
        ensures { result ≡ in_blocks files.entry.now }
    {
        LentFiles {
            place: FileStorage::Blocks(files),
        }
    }

    /// No files.
    pub(crate) fn none() -> Self
        ensures { result ≡ [] }
    {
        LentFiles {
            place: FileStorage::Vectors(&[]),
        }
    }

    /// How many files there are.
    pub(crate) fn len(&self) -> usize
        ensures { result ≡ length self.now }
    {
        match self.place {
            FileStorage::Vectors(files) => files.len(),
            FileStorage::Blocks(files) => files.len(),
        }
    }

    /// The file at a place counted from 0.
    pub(crate) fn file(&self, place: usize) -> LentFile<'a>
        requires { place < length self.now }
        ensures { slice_get self.now place ≡ Some (lent_file result) }
    {
        match self.place {
            FileStorage::Vectors(files) => LentFile::whole(at(files, place)),
            FileStorage::Blocks(files) => LentFile::parted(at(files, place)),
        }
    }

    /// Hands out the first file, if there is one; else there is none later either.
    pub(crate) fn next_file(&mut self) -> Option<LentFile<'a>>
        ensures { MatchOption result ((self.old ≡ []) × (self.new ≡ []))
            (λ file. self.old ≡ lent_file file ∷ self.new) }
    {
        match self.place {
            FileStorage::Vectors(files) => {
                let (first, later) = files.split_first()?;
                self.place = FileStorage::Vectors(later);
                Some(LentFile::whole(first))
            }
            FileStorage::Blocks(files) => {
                let (first, later) = files.split_first()?;
                self.place = FileStorage::Blocks(later);
                Some(LentFile::parted(first))
            }
        }
    }
}
