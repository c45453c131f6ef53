//! Plans: the input cut into chunks of whole records.

ghost use Rattle.std.specs.Prelude.{◌≡◌, ℕ, ◌+◌, ◌<◌, ◌≤◌, [], None, All, drop, flat_map, length};
ghost use Rattle.std.specs.Prelude.{slice_get, IfOk, IfErr, IfNone, IfSome, MatchOption};
ghost use Rattle.pawk_input.specs.Limits.{most_bytes, most_chunks};
ghost use Rattle.pawk_input.specs.Input.{IsReady, files_of};
ghost use Rattle.pawk_input.specs.Walk.{items_left};
ghost use Rattle.pawk_input.specs.Counts.{block_counts};
ghost use Rattle.pawk_input.specs.Plan.{AreChunksOf, AreConsecutive, ArePlaced, CannotFollow};
ghost use Rattle.pawk_input.specs.Plan.{IsNotOne, IsPlanOf, RefusesCuts, RefusesMany, chunk_items, plan_after};
ghost use Rattle.pawk_input.specs.Plan.{cut_at, cut_fault, sized, stepped};

use crate::counts::block_number;
use crate::cuts::{check_cuts, cuts_in};
use crate::cutting::{Chunk, CutRefusal, MOST_CHUNKS};
use crate::draft::{Draft, begin_or_end};
use crate::files::{Input, LIMIT};
use crate::steps::{FileSteps, SizeStep};
use crate::walk::Records;
use pawk_records::Separator;
use std::alloc::Global;
use std::marker::Model;

/// The records of an input as consecutive runs, none over two files: a list of chunks.
#[derive(Drop)]
pub struct Plan {
    chunks: Vec<Chunk>,
}

impl Model for Plan {
    ghost use Rattle.std.specs.Prelude.{List};
    ghost use Rattle.pawk_input.specs.Plan.{AreAdjoining};
    ghost use Rattle.pawk_input.specs.declared.cutting.Chunk.{Chunk};

    ghost Value = { List Chunk };

    ghost view = { λ plan. plan.chunks.items };

    ghost invariant = { λ plan. AreAdjoining plan.chunks.items };
}

/// Counts so many records more before each chunk, `fnr` of them in its file.
fn count_on(chunks: &mut [Chunk], nr: u64, fnr: u64)
    requires { All (λ c. (nr + c.nr ≤ most_bytes) × (fnr + c.fnr ≤ most_bytes)) chunks.old }
    ensures { chunks.new ≡ plan_after nr fnr chunks.old }
{
    for chunk in chunks.iter_mut() {
        chunk.nr += nr;
        chunk.fnr += fnr;
    }
}

impl Plan {
    /// The plan by size: a chunk ends before the first record that begins at least `bytes` bytes
    /// past the chunk's begin, or at the end of its file; a file with records always begins a chunk.
    ///
    /// `rs` holds the byte at which records end, or none for paragraphs.
    ///
    /// Gives `TooMany` where that are more than 1,048,576 chunks, and `Memory` where memory for a
    /// chunk was refused.
    pub fn by_size(alloc: Global, input: &Input, rs: &[u8], bytes: u64) -> Result<Plan, CutRefusal>
        requires one_byte { length rs.now ≤ 1 }
        requires ready { IsReady rs.now input.now }
        requires some { 0 < bytes }
        ensures value { IfOk result (λ plan. plan ≡ sized rs.now (files_of input.now) bytes) }
        ensures plan { IfOk result (λ plan. IsPlanOf rs.now (files_of input.now) plan) }
        ensures few { IfOk result (λ plan. length plan ≤ most_chunks) }
        ensures refused { IfErr result
            (RefusesMany (length (sized rs.now (files_of input.now) bytes)) most_chunks) }
    {
        let mut draft = Draft::new(alloc);
        for file in 0..input.files() {
            let blocks = input.blocks(file);
            draft.add_by_size(file, &blocks, rs, bytes)?;
        }
        Ok(Plan {
            chunks: draft.chunks,
        })
    }

    /// The plan by size again, out of the counts of records of blocks: `counts` says how many
    /// records begin in each block of `block` bytes of each file, the last of a file shorter, file by
    /// file (`count_block`). Reads of the files only what is near the chunks' ends.
    ///
    /// `rs` holds the byte at which records end, or none for paragraphs. Refuses as `by_size` does.
    pub fn by_counts(
        alloc: Global,
        input: &Input,
        rs: &[u8],
        bytes: u64,
        block: usize,
        counts: &[u64],
    ) -> Result<Plan, CutRefusal>
        requires one_byte { length rs.now ≤ 1 }
        requires ready { IsReady rs.now input.now }
        requires some { 0 < bytes }
        requires block { 0 < block }
        requires counts { counts.now ≡ block_counts rs.now block (files_of input.now) }
        ensures value { IfOk result (λ plan. plan ≡ sized rs.now (files_of input.now) bytes) }
        ensures plan { IfOk result (λ plan. IsPlanOf rs.now (files_of input.now) plan) }
        ensures few { IfOk result (λ plan. length plan ≤ most_chunks) }
        ensures refused { IfErr result
            (RefusesMany (length (sized rs.now (files_of input.now) bytes)) most_chunks) }
    {
        Plan::by_steps(alloc, input, rs, bytes, &[], block, counts)
    }

    /// The plan by steps, out of the counts of records of blocks: as `by_counts`, but from each step
    /// on by the step's size: a chunk is as long as the last step says that lies at its begin or
    /// before it, where no step before that one lies past its begin.
    ///
    /// `rs` holds the byte at which records end, or none for paragraphs.
    ///
    /// Gives `TooMany` where that are more than 1,048,576 chunks, and `Memory` where memory for a
    /// chunk was refused.
    pub fn by_steps(
        alloc: Global,
        input: &Input,
        rs: &[u8],
        bytes: u64,
        steps: &[SizeStep],
        block: usize,
        counts: &[u64],
    ) -> Result<Plan, CutRefusal>
        requires one_byte { length rs.now ≤ 1 }
        requires ready { IsReady rs.now input.now }
        requires some { 0 < bytes }
        requires each { All (λ step. 0 < step.size) steps.now }
        requires block { 0 < block }
        requires counts { counts.now ≡ block_counts rs.now block (files_of input.now) }
        ensures value { IfOk result
            (λ plan. plan ≡ stepped rs.now (files_of input.now) bytes steps.now) }
        ensures plan { IfOk result (λ plan. IsPlanOf rs.now (files_of input.now) plan) }
        ensures few { IfOk result (λ plan. length plan ≤ most_chunks) }
        ensures refused { IfErr result
            (RefusesMany (length (stepped rs.now (files_of input.now) bytes steps.now)) most_chunks) }
    {
        let mut draft = Draft::new(alloc);
        let mut left = counts;
        let mut before: u64 = 0;
        for file in 0..input.files() {
            let blocks = input.blocks(file);
            let size = input.size(file);
            let (here, later) = left.split_at(block_number(size, block));
            let file_steps = FileSteps {
                size: bytes,
                steps,
                before,
            };
            draft.add_by_counts(file, &blocks, rs, file_steps, block, here)?;
            before += size as u64;
            left = later;
        }
        Ok(Plan {
            chunks: draft.chunks,
        })
    }

    /// The plan of one chunk, made without a look at the records but the first: where the input is one file, its plan by this
    /// size cannot be refused, and memory for the chunk is there; else `None`.
    ///
    /// `rs` holds the byte at which records end, or none for paragraphs.
    pub fn of_one(alloc: Global, input: &Input, rs: &[u8], bytes: u64) -> Option<Plan>
        requires one_byte { length rs.now ≤ 1 }
        requires ready { IsReady rs.now input.now }
        requires some { 0 < bytes }
        ensures value { IfSome result (λ plan. plan ≡ cut_at rs.now (files_of input.now) []) }
        ensures plan { IfSome result (λ plan. IsPlanOf rs.now (files_of input.now) plan) }
        ensures few { IfSome result (λ plan. length plan ≤ most_chunks) }
        ensures accepted { IfSome result
            (λ _. length (sized rs.now (files_of input.now) bytes) ≤ most_chunks) }
        ensures none { IfNone result (IsNotOne rs.now (files_of input.now) bytes) }
    {
        if input.files() != 1 || input.size(0) as u64 / bytes >= MOST_CHUNKS as u64 {
            return None;
        }
        let start = begin_or_end(Separator::of(rs), &input.blocks(0), 0);
        let end = input.size(0);
        let mut chunks = Vec::new(alloc);
        if start < end {
            let chunk = Chunk {
                file: 0,
                range: start..end,
                nr: 0,
                fnr: 0,
            };
            chunks.push(chunk).ok()?;
        }
        Some(Plan { chunks })
    }

    /// The plan at cuts: a file with records begins a chunk, and one more begins at each cut, a
    /// file's place and an offset in that file, both counted from 0.
    ///
    /// `rs` holds the byte at which records end, or none for paragraphs.
    ///
    /// Gives what is wrong with the first cut at fault: `NoRecord` where no record after its file's
    /// first begins there, else `NotRising` where it does not come after the cut before it, by
    /// files first, then by offsets. Where no cut is at fault it gives `TooMany` where that are more
    /// than 1,048,576 chunks, and `Memory` where memory for a chunk was refused.
    pub fn at(
        alloc: Global,
        input: &Input,
        rs: &[u8],
        cuts: &[(usize, usize)],
    ) -> Result<Plan, CutRefusal>
        requires one_byte { length rs.now ≤ 1 }
        requires ready { IsReady rs.now input.now }
        ensures accepted { IfOk result
            (λ _. cut_fault rs.now (files_of input.now) cuts.now ≡ None) }
        ensures value { IfOk result (λ plan. plan ≡ cut_at rs.now (files_of input.now) cuts.now) }
        ensures plan { IfOk result (λ plan. IsPlanOf rs.now (files_of input.now) plan) }
        ensures few { IfOk result (λ plan. length plan ≤ most_chunks) }
        ensures refused { IfErr result
            (RefusesCuts rs.now (files_of input.now) cuts.now most_chunks) }
    {
        check_cuts(input, rs, cuts)?;
        let mut draft = Draft::new(alloc);
        let mut left = cuts;
        for file in 0..input.files() {
            let (here, later) = left.split_at(cuts_in(file, left));
            let blocks = input.blocks(file);
            draft.add_at_cuts(file, &blocks, rs, here)?;
            left = later;
        }
        Ok(Plan {
            chunks: draft.chunks,
        })
    }

    /// How many chunks there are.
    #[allow(clippy::len_without_is_empty)]
    pub fn len(&self) -> usize
        ensures { result ≡ length self.now }
    {
        self.chunks.len()
    }

    /// The chunk at a place counted from 0.
    pub fn chunk(&self, i: usize) -> &Chunk
        requires { i < length self.now }
        ensures { slice_get self.now i ≡ Some result.now }
    {
        &self.chunks[i]
    }

    /// The records of the chunk at a place counted from 0, with their numbers among all records.
    /// Takes no memory and copies nothing. `input` and `rs` are those that the plan was made of; each
    /// chunk may come after records of a larger input (`after`).
    pub fn walk<'a>(&self, input: &'a Input, rs: &[u8], i: usize) -> Records<'a>
        requires chunk { i < length self.now }
        requires plan { AreChunksOf rs.now (files_of input.now) self.now }
        requires one_byte { length rs.now ≤ 1 }
        requires ready { IsReady rs.now input.now }
        ensures { IfSome (slice_get self.now i)
            (λ c. items_left result ≡ chunk_items rs.now (files_of input.now) c) }
    {
        self.placed_law(input, rs);
        let chunk = self.chunk(i);
        let blocks = input.blocks(chunk.file);
        Records::of_part(
            Separator::of(rs),
            chunk.file,
            input.name(chunk.file),
            blocks.pieces(chunk.range.start, chunk.range.end - chunk.range.start),
            chunk.nr,
            chunk.fnr,
        )
    }

    /// The records of the chunk at a place counted from 0 and of all chunks after it, as one walk, where
    /// each chunk but the first comes next after the one before it: the chunks are then of one file
    /// (`after`). Takes no memory and copies nothing. `input` and `rs` are those that the plan was made of.
    pub fn walk_from<'a>(&self, input: &'a Input, rs: &[u8], i: usize) -> Records<'a>
        requires chunk { i < length self.now }
        requires plan { ArePlaced rs.now (files_of input.now) self.now }
        requires consecutive { AreConsecutive rs.now (files_of input.now) self.now }
        requires one_byte { length rs.now ≤ 1 }
        requires ready { IsReady rs.now input.now }
        ensures { items_left result
            ≡ flat_map (chunk_items rs.now (files_of input.now)) (drop i self.now) }
    {
        let first = self.chunk(i);
        let end = self.chunk(self.len() - 1).range.end;
        let blocks = input.blocks(first.file);
        Records::of_part(
            Separator::of(rs),
            first.file,
            input.name(first.file),
            blocks.pieces(first.range.start, end - first.range.start),
            first.nr,
            first.fnr,
        )
    }

    /// Each chunk of a plan of `input` by `rs` has its place there, after the records before it. A law, which
    /// takes and leaves nothing.
    pub fn placed_law(&self, input: &Input, rs: &[u8])
        requires { AreChunksOf rs.now (files_of input.now) self.now }
        ensures { ArePlaced rs.now (files_of input.now) self.now }
    {
        let _files = input.files();
    }

    /// The same chunks after `nr` records more, `fnr` of them in the file that goes on: the plan of a
    /// part of a larger input, where so many records come before it. Takes no memory. `input` and `rs`
    /// are those that the plan was made of.
    ///
    /// Gives `None`, and the plan up, exactly where `fnr` is more than `nr`, or `nr` and the bytes of
    /// the input are more than [`LIMIT`] together.
    ///
    /// POSIX.1-2017, awk, "Variables and Special Variables" (`NR`, `FNR`).
    pub fn after(self, input: &Input, rs: &[u8], nr: u64, fnr: u64) -> Option<Plan>
        requires { IsPlanOf rs.now (files_of input.now) self }
        ensures value { IfSome result (λ plan. plan ≡ plan_after nr fnr self) }
        ensures placed { IfSome result (λ plan. ArePlaced rs.now (files_of input.now) plan) }
        ensures consecutive { length (files_of input.now) ≡ 1 →
            IfSome result (λ plan. AreConsecutive rs.now (files_of input.now) plan) }
        ensures refused { MatchOption result (CannotFollow (files_of input.now) nr fnr)
            (λ _. ¬ CannotFollow (files_of input.now) nr fnr) }
    {
        if nr < fnr || LIMIT - input.total_size() < nr {
            return None;
        }
        let mut chunks = self.chunks;
        count_on(&mut chunks, nr, fnr);
        Some(Plan { chunks })
    }
}
