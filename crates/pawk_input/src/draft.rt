//! A plan in the making.

ghost use Rattle.std.specs.Prelude.{◌≡◌, ℕ, ◌+◌, ◌-◌, ◌<◌, ◌≤◌, ◌^◌, [], ◌∷◌, ◌++◌, map, length};
ghost use Rattle.std.specs.Prelude.{slice_range, vec_len, OnOk, IfOk, IfErr};
ghost use Rattle.pawk_input.specs.Limits.{most_bytes, most_chunks};
ghost use Rattle.pawk_records.specs.Records.{records_by};
ghost use Rattle.pawk_records.specs.Begins.{BeginsAt, begins_by};
ghost use Rattle.pawk_records.specs.Separator.{rs_of};
ghost use Rattle.pawk_records.specs.Blocks.{AreMended, joined};
ghost use Rattle.pawk_input.specs.Plan.{IsBeginOrEnd, RefusesMany, RisesFrom};
ghost use Rattle.pawk_input.specs.Plan.{chunks_at, cut_places, offsets, sized_chunks};

use crate::cutting::{Chunk, CutRefusal, MOST_CHUNKS};
use pawk_records::{LentBlocks, Separator};
use std::alloc::Global;
use std::ops::Range;

/// The first place from `from` on at which a record begins, or the end where there is none.
pub(crate) fn begin_or_end(separator: Separator, blocks: &LentBlocks<'_>, from: usize) -> usize
    requires mended { AreMended (rs_of separator) blocks.now }
    requires limited { length (joined blocks.now) < 2 ^ 64 }
    ensures { IsBeginOrEnd (rs_of separator) (joined blocks.now) from result }
{
    match blocks.next_begin(separator, from) {
        Some(place) => place,
        None => blocks.size(),
    }
}

/// Appends a chunk.
pub(crate) fn add_chunk(chunks: &mut Vec<Chunk>, chunk: Chunk) -> Result<(), CutRefusal>
    requires { vec_len chunks.old ≤ most_chunks }
    ensures added { OnOk result (chunks.new.items ≡ chunks.old.items ++ chunk ∷ []) }
    ensures few { OnOk result (vec_len chunks.new ≤ most_chunks) }
    ensures refused { IfErr result (RefusesMany (vec_len chunks.old + 1) most_chunks) }
{
    if chunks.len() == MOST_CHUNKS {
        return Err(CutRefusal::TooMany);
    }
    chunks.push(chunk)?;
    Ok(())
}

/// The chunks of the first files, and how many records those files have.
#[derive(Drop)]
pub(crate) struct Draft {
    pub(crate) chunks: Vec<Chunk>,
    pub(crate) nr: u64,
}

impl Draft {
    /// The draft of no file.
    pub(crate) fn new(alloc: Global) -> Self
        ensures chunks { result.chunks.items ≡ [] }
        ensures nr { result.nr ≡ 0 }
    {
        Draft {
            chunks: Vec::new(alloc),
            nr: 0,
        }
    }

    /// Adds a chunk of the next file: this range of it, which begins where a record does, after
    /// `fnr` records. Gives how many records come before what follows it.
    fn add_part(
        &mut self,
        file: usize,
        range: Range<usize>,
        blocks: &LentBlocks<'_>,
        separator: Separator,
        fnr: u64,
    ) -> Result<u64, CutRefusal>
        requires mended { AreMended (rs_of separator) blocks.now }
        requires begins { BeginsAt (rs_of separator) (joined blocks.now) range.start }
        requires rising { range.start < range.end }
        requires within { range.end ≤ length (joined blocks.now) }
        requires room { self.old.nr + fnr + (range.end - range.start) ≤ most_bytes }
        requires few { vec_len self.old.chunks ≤ most_chunks }
        ensures added { OnOk result (self.new.chunks.items ≡ self.old.chunks.items
            ++ record { file = file; range = range; nr = self.old.nr + fnr; fnr = fnr } ∷ []) }
        ensures counted { IfOk result (λ n. n ≡ fnr + length (records_by (rs_of separator)
            (slice_range (joined blocks.now) range.start range.end))) }
        ensures nr { OnOk result (self.new.nr ≡ self.old.nr) }
        ensures few { OnOk result (vec_len self.new.chunks ≤ most_chunks) }
        ensures refused { IfErr result (RefusesMany (vec_len self.old.chunks + 1) most_chunks) }
    {
        let count = blocks.count_begins(separator, range.start, range.end) as u64;
        let chunk = Chunk {
            file,
            range,
            nr: self.nr + fnr,
            fnr,
        };
        add_chunk(&mut self.chunks, chunk)?;
        Ok(fnr + count)
    }

    /// Adds the next file's chunks by size.
    pub(crate) fn add_by_size(
        &mut self,
        file: usize,
        blocks: &LentBlocks<'_>,
        rs: &[u8],
        size: u64,
    ) -> Result<(), CutRefusal>
        requires one_byte { length rs.now ≤ 1 }
        requires sized { 0 < size }
        requires mended { AreMended rs.now blocks.now }
        requires room { self.old.nr + length (joined blocks.now) ≤ most_bytes }
        requires few { vec_len self.old.chunks ≤ most_chunks }
        ensures chunks { OnOk result (self.new.chunks.items ≡ self.old.chunks.items
            ++ sized_chunks rs.now (λ _. size) file (joined blocks.now) self.old.nr) }
        ensures counted { OnOk result
            (self.new.nr ≡ self.old.nr + length (records_by rs.now (joined blocks.now))) }
        ensures few { OnOk result (vec_len self.new.chunks ≤ most_chunks) }
        ensures refused { IfErr result (RefusesMany (vec_len self.old.chunks
            + length (sized_chunks rs.now (λ _. size) file (joined blocks.now) self.old.nr))
            most_chunks) }
    {
        let separator = Separator::of(rs);
        let whole = blocks.size();
        let mut start = begin_or_end(separator, blocks, 0);
        let mut fnr = 0;
        while start < whole {
            let end = begin_or_end(separator, blocks, start.saturating_add(size as usize));
            fnr = self.add_part(file, start..end, blocks, separator, fnr)?;
            start = end;
        }
        self.nr += fnr;
        Ok(())
    }

    /// Adds the next file's chunks: one that begins with it, and one more at each of these cuts,
    /// all of them in it.
    pub(crate) fn add_at_cuts(
        &mut self,
        file: usize,
        blocks: &LentBlocks<'_>,
        rs: &[u8],
        cuts: &[(usize, usize)],
    ) -> Result<(), CutRefusal>
        requires one_byte { length rs.now ≤ 1 }
        requires mended { AreMended rs.now blocks.now }
        requires room { self.old.nr + length (joined blocks.now) ≤ most_bytes }
        requires few { vec_len self.old.chunks ≤ most_chunks }
        requires here { offsets file cuts.now ≡ map (λ cut. cut.1) cuts.now }
        requires rising { RisesFrom rs.now (joined blocks.now)
            (begins_by rs.now (joined blocks.now)) (offsets file cuts.now) }
        ensures chunks { OnOk result (self.new.chunks.items
            ≡ self.old.chunks.items
            ++ chunks_at rs.now file (joined blocks.now) self.old.nr
            (cut_places cuts.now file (begins_by rs.now (joined blocks.now)))) }
        ensures counted { OnOk result
            (self.new.nr ≡ self.old.nr + length (records_by rs.now (joined blocks.now))) }
        ensures few { OnOk result (vec_len self.new.chunks ≤ most_chunks) }
        ensures refused { IfErr result (RefusesMany
            (vec_len self.old.chunks
            + length (chunks_at rs.now file (joined blocks.now) self.old.nr
            (cut_places cuts.now file (begins_by rs.now (joined blocks.now)))))
            most_chunks) }
    {
        let separator = Separator::of(rs);
        let whole = blocks.size();
        let mut start = begin_or_end(separator, blocks, 0);
        if start == whole {
            return Ok(());
        }
        let mut fnr = 0;
        for cut in cuts {
            fnr = self.add_part(file, start..cut.1, blocks, separator, fnr)?;
            start = cut.1;
        }
        self.nr += self.add_part(file, start..whole, blocks, separator, fnr)?;
        Ok(())
    }
}
