//! Where a block lies in the files.

ghost use Rattle.std.specs.Prelude.{◌≡◌, ◌<◌, ◌≤◌, length, Some, slice_get};
ghost use Rattle.pawk_input.specs.Input.{IsReady, files_of};
ghost use Rattle.pawk_input.specs.Counts.{block_counts};
ghost use Rattle.pawk_workers.specs.Places.{HasBlock, IsPlace};
ghost use Rattle.pawk_workers.specs.Sizes.{blocks_in};

use crate::size::blocks_of_file;
use pawk_input::{Input, count_block};

/// A file, counted from 0, and how many blocks lie in the files before it.
#[derive(Clone, Copy)]
pub(crate) struct FilePlace {
    pub(crate) file: usize,
    pub(crate) before: u64,
}

impl FilePlace {
    /// The file in which the block of this number lies, from this one on.
    pub(crate) fn seek(self, input: &Input, block: usize, number: u64) -> FilePlace
        requires some { 0 < block }
        requires place { IsPlace block (files_of input.now) self }
        requires ahead { self.before ≤ number }
        requires exists { number < blocks_in block (files_of input.now) }
        ensures { HasBlock block (files_of input.now) number result }
    {
        let mut before = self.before;
        for file in self.file..input.files() {
            let blocks = blocks_of_file(input, file, block);
            if number - before < blocks {
                return FilePlace { file, before };
            }
            before += blocks;
        }
        unreachable!()
    }

    /// How many records begin in the block of this number, which lies in this file.
    pub(crate) fn count(self, input: &Input, rs: &[u8], block: usize, number: u64) -> u64
        requires separator { length rs.now ≤ 1 }
        requires ready { IsReady rs.now input.now }
        requires some { 0 < block }
        requires place { HasBlock block (files_of input.now) number self }
        ensures { slice_get (block_counts rs.now block (files_of input.now)) number ≡ Some result }
    {
        let size = input.size(self.file);
        let start = (number - self.before) as usize * block;
        let end = start.saturating_add(block).min(size);
        count_block(input, rs, self.file, start..end)
    }
}
