//! How large blocks are.

ghost use Rattle.std.specs.Prelude.{◌≡◌, ◌<◌, ◌≤◌, length, IfSome, MatchOption};
ghost use Rattle.pawk_input.specs.Input.{file_at, files_of, total_size};
ghost use Rattle.pawk_input.specs.Limits.{most_bytes};
ghost use Rattle.pawk_workers.specs.Sizes.{IsBlockSize, blocks_in, file_blocks, filled, most_blocks};

use pawk_input::{Input, LIMIT};

/// The size of a block of most inputs, in bytes.
const LEAST_SIZE: usize = 65_536;

/// The most blocks that an input is cut into.
const MOST_BLOCKS: u64 = 1_048_576;

/// How many blocks of `block` bytes a file has, the last shorter.
pub(crate) fn blocks_of_file(input: &Input, file: usize, block: usize) -> u64
    requires file { file < length (files_of input.now) }
    requires some { 0 < block }
    ensures { result ≡ file_blocks block (file_at (files_of input.now) file) }
{
    input.size(file).div_ceil(block) as u64
}

/// How many blocks of `block` bytes the files have, the last of each shorter.
pub(crate) fn block_number(input: &Input, block: usize) -> u64
    requires some { 0 < block }
    ensures number { result ≡ blocks_in block (files_of input.now) }
    ensures limited { total_size (files_of input.now) ≤ most_bytes }
{
    let mut number = 0;
    for file in 0..input.files() {
        number += blocks_of_file(input, file, block);
    }
    number
}

/// The size of the blocks by which the records of an input are counted: 65,536 bytes, doubled until the files have at most
/// 1,048,576 blocks, the last of each file shorter. `None` where more files than that hold bytes.
pub fn block_size(input: &Input) -> Option<usize>
    ensures size { MatchOption result (most_blocks < length (filled (files_of input.now)))
        (IsBlockSize (files_of input.now)) }
    ensures some { IfSome result (λ size. 0 < size) }
{
    // A block of this size holds any file.
    if block_number(input, LIMIT as usize) > MOST_BLOCKS {
        return None;
    }
    let mut size = LEAST_SIZE;
    while block_number(input, size) > MOST_BLOCKS {
        size *= 2;
    }
    Some(size)
}
