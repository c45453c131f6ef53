//! Plans by size out of the counts of records of blocks.

ghost use Rattle.std.specs.Prelude.{◌≡◌, ◌+◌, ◌^◌, ◌<◌, ◌≤◌, ◌++◌, length, take, vec_len, All, OnOk, IfErr, IfOk};
ghost use Rattle.pawk_records.specs.Records.{records_by};
ghost use Rattle.pawk_records.specs.Begins.{begins_within};
ghost use Rattle.pawk_records.specs.Separator.{rs_of};
ghost use Rattle.pawk_input.specs.Limits.{most_bytes, most_chunks};
ghost use Rattle.pawk_records.specs.Blocks.{AreMended, joined};
ghost use Rattle.pawk_input.specs.Input.{IsReady, file_at, files_of};
ghost use Rattle.pawk_input.specs.Counts.{block_counts, blocks_of, counts_left};
ghost use Rattle.pawk_input.specs.Passed.{IsPassed};
ghost use Rattle.pawk_input.specs.Plan.{RefusesMany, size_in_file, sized_chunks};

use crate::cutting::{Chunk, CutRefusal};
use crate::draft::{Draft, add_chunk, begin_or_end};
use crate::files::Input;
use crate::steps::FileSteps;
use pawk_records::{LentBlocks, Separator};
use std::alloc::{AllocError, Global};
use std::ops::Range;

/// How many records of a file begin in a range of it, in bytes counted from 0. Takes no memory.
///
/// `rs` holds the byte at which records end, or none for paragraphs.
pub fn count_block(input: &Input, rs: &[u8], file: usize, range: Range<usize>) -> u64
    requires separator { length rs.now ≤ 1 }
    requires ready { IsReady rs.now input.now }
    requires file { file < length (files_of input.now) }
    requires rising { range.start ≤ range.end }
    requires within { range.end ≤ length (file_at (files_of input.now) file).bytes }
    ensures { result ≡ length
        (begins_within rs.now (file_at (files_of input.now) file).bytes range.start range.end) }
{
    let separator = Separator::of(rs);
    input
        .blocks(file)
        .count_begins(separator, range.start, range.end) as u64
}

/// Appends how many records begin in each block of a file.
fn push_counts(
    counts: &mut Vec<u64>,
    input: &Input,
    rs: &[u8],
    file: usize,
    block: usize,
) -> Result<(), AllocError>
    requires separator { length rs.now ≤ 1 }
    requires ready { IsReady rs.now input.now }
    requires file { file < length (files_of input.now) }
    requires some { 0 < block }
    ensures { OnOk result (counts.new.items ≡ counts.old.items
        ++ counts_left rs.now block (file_at (files_of input.now) file).bytes 0) }
{
    let size = input.size(file);
    let mut from = 0;
    while from < size {
        let end = from.saturating_add(block).min(size);
        counts.push(count_block(input, rs, file, from..end))?;
        from = end;
    }
    Ok(())
}

/// How many records begin in each block of `block` bytes of each file, the last block of a file
/// shorter, file by file: what `Plan::by_counts` takes.
///
/// `rs` holds the byte at which records end, or none for paragraphs.
pub fn count_blocks(
    alloc: Global,
    input: &Input,
    rs: &[u8],
    block: usize,
) -> Result<Vec<u64>, AllocError>
    requires separator { length rs.now ≤ 1 }
    requires ready { IsReady rs.now input.now }
    requires some { 0 < block }
    ensures { IfOk result
        (λ counts. counts.items ≡ block_counts rs.now block (files_of input.now)) }
{
    let mut counts = Vec::new(alloc);
    for file in 0..input.files() {
        push_counts(&mut counts, input, rs, file, block)?;
    }
    Ok(counts)
}

/// The blocks of a file that were passed: where the next one begins, how many records begin before
/// it, and the counts of the blocks from it on.
#[derive(Clone, Copy)]
pub(crate) struct Passed<'c> {
    pub(crate) edge: usize,
    pub(crate) count: u64,
    pub(crate) left: &'c [u64],
}

/// How many records of a file begin before a place, and the blocks passed up to it.
fn records_before<'c>(
    separator: Separator,
    blocks: &LentBlocks<'_>,
    block: usize,
    passed: Passed<'c>,
    place: usize,
) -> (u64, Passed<'c>)
    requires some { 0 < block }
    requires mended { AreMended (rs_of separator) blocks.now }
    requires limited { length (joined blocks.now) < 2 ^ 64 }
    requires within { place ≤ length (joined blocks.now) }
    requires passed { IsPassed (rs_of separator) block (joined blocks.now) passed place }
    ensures count { result.0
        ≡ length (records_by (rs_of separator) (take place (joined blocks.now))) }
    ensures passed { IsPassed (rs_of separator) block (joined blocks.now) result.1 place }
{
    let mut passed = passed;
    while place - passed.edge >= block {
        let Some((first, later)) = passed.left.split_first() else {
            break;
        };
        passed = Passed {
            edge: passed.edge + block,
            count: passed.count + first,
            left: later,
        };
    }
    let more = blocks.count_begins(separator, passed.edge, place) as u64;
    (passed.count + more, passed)
}

/// How many blocks a file of this size has.
pub(crate) fn block_number(size: usize, block: usize) -> usize
    requires { 0 < block }
    ensures { result ≡ blocks_of block size size }
{
    let mut count = 0;
    let mut left = size;
    while left > 0 {
        count += 1;
        left = left.saturating_sub(block);
    }
    count
}

impl Draft {
    /// Adds the next file's chunks by steps, numbered by the counts of its blocks.
    pub(crate) fn add_by_counts(
        &mut self,
        file: usize,
        blocks: &LentBlocks<'_>,
        rs: &[u8],
        steps: FileSteps<'_>,
        block: usize,
        counts: &[u64],
    ) -> Result<(), CutRefusal>
        requires one_byte { length rs.now ≤ 1 }
        requires sized { 0 < steps.size }
        requires each { All (λ step. 0 < step.size) steps.steps.now }
        requires some { 0 < block }
        requires mended { AreMended rs.now blocks.now }
        requires counts { counts.now ≡ counts_left rs.now block (joined blocks.now) 0 }
        requires room { self.old.nr + length (joined blocks.now) ≤ most_bytes }
        requires place { steps.before + length (joined blocks.now) ≤ most_bytes }
        requires few { vec_len self.old.chunks ≤ most_chunks }
        ensures chunks { OnOk result (self.new.chunks.items ≡ self.old.chunks.items
            ++ sized_chunks rs.now
            (size_in_file steps.entry.size steps.entry.steps.now steps.entry.before) file
            (joined blocks.now) self.old.nr) }
        ensures counted { OnOk result
            (self.new.nr ≡ self.old.nr + length (records_by rs.now (joined blocks.now))) }
        ensures few { OnOk result (vec_len self.new.chunks ≤ most_chunks) }
        ensures refused { IfErr result (RefusesMany (vec_len self.old.chunks
            + length (sized_chunks rs.now
            (size_in_file steps.entry.size steps.entry.steps.now steps.entry.before) file
            (joined blocks.now) self.old.nr)) most_chunks) }
    {
        let separator = Separator::of(rs);
        let mut passed = Passed {
            edge: 0,
            count: 0,
            left: counts,
        };
        let whole = blocks.size();
        let mut start = begin_or_end(separator, blocks, 0);
        while start < whole {
            let size = steps.size_at(start) as usize;
            let end = begin_or_end(separator, blocks, start.saturating_add(size));
            let (fnr, later) = records_before(separator, blocks, block, passed, start);
            let chunk = Chunk {
                file,
                range: start..end,
                nr: self.nr + fnr,
                fnr,
            };
            add_chunk(&mut self.chunks, chunk)?;
            passed = later;
            start = end;
        }
        let (count, _) = records_before(separator, blocks, block, passed, whole);
        self.nr += count;
        Ok(())
    }
}
