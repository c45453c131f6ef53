//! The blocks of a file, lent.

ghost use Rattle.std.specs.Prelude.{◌≡◌, ℕ, ◌+◌, ◌^◌, ◌<◌, ◌≤◌, List, [], ◌∷◌, length};
ghost use Rattle.std.specs.Prelude.{take, drop, MatchOption, SomeIff};
ghost use Rattle.memchr.specs.Find.{IsFirst};
ghost use Rattle.pawk_records.specs.Begins.{BeginsAt, begins_within};
ghost use Rattle.pawk_records.specs.Begins as spec;
ghost use Rattle.pawk_records.specs.Separator.{rs_of};
ghost use Rattle.pawk_records.specs.Blocks.{AreMended, joined, parts};

use crate::block::Block;
use crate::pieces::Pieces;
use crate::{CountedBytes, Separator};
use std::marker::Model;

/// Where blocks lie.
#[derive(Clone, Copy)]
pub(crate) enum BlockStorage<'a> {
    /// One block, all of a vector.
    Vector(&'a [u8]),
    /// Blocks of a list.
    List(&'a [Block]),
}

/// The bytes of a file as they lie in memory: one block, all of a vector, or the blocks of a list.
/// Nothing is copied.
#[derive(Drop)]
pub struct LentBlocks<'a> {
    place: BlockStorage<'a>,
}

impl<'a> Model for LentBlocks<'a> {
    ghost use Rattle.std.specs.Prelude.{List, ℕ};
    ghost use Rattle.pawk_records.specs.Lent.{blocks_at};

    ghost Value = { List (List ℕ) };

    ghost view = { λ b. blocks_at b.place };
}

impl<'a> LentBlocks<'a> {
    /// A file whose bytes lie in one vector. Mended for every `rs`.
    pub fn whole(bytes: &'a [u8]) -> Self
        ensures { result ≡ bytes.entry.now ∷ [] }
    {
        LentBlocks {
            place: BlockStorage::Vector(bytes),
        }
    }

    /// The blocks of a list.
    pub(crate) fn of(blocks: &'a [Block]) -> Self
        ensures { result ≡ blocks.entry.now }
    {
        LentBlocks {
            place: BlockStorage::List(blocks),
        }
    }

    /// No blocks.
    pub(crate) fn none() -> Self
        ensures { result ≡ [] }
    {
        LentBlocks {
            place: BlockStorage::List(&[]),
        }
    }

    /// A second loan of these blocks.
    pub(crate) fn again(&self) -> LentBlocks<'a>
        ensures { result ≡ self.now }
    {
        LentBlocks { place: self.place }
    }

    /// Hands out the first block with its census, if there is one; else there is none later either.
    fn next_counted_bytes(&mut self) -> Option<CountedBytes<'a>>
        ensures { MatchOption result ((self.old ≡ []) × (self.new ≡ []))
            (λ block. self.old ≡ block ∷ self.new) }
    {
        match self.place {
            BlockStorage::Vector(bytes) => {
                self.place = BlockStorage::List(&[]);
                Some(CountedBytes::plain(bytes))
            }
            BlockStorage::List(blocks) => {
                let (block, later) = blocks.split_first()?;
                self.place = BlockStorage::List(later);
                Some(block.counted_bytes())
            }
        }
    }

    /// Hands out the first block, if there is one; else there is none later either.
    pub(crate) fn next_block(&mut self) -> Option<&'a [u8]>
        ensures { MatchOption result ((self.old ≡ []) × (self.new ≡ []))
            (λ block. self.old ≡ block.now ∷ self.new) }
    {
        Some(self.next_counted_bytes()?.bytes())
    }

    /// How many bytes the file holds.
    pub fn size(&self) -> usize
        requires { length (joined self.now) < 2 ^ 64 }
        ensures { result ≡ length (joined self.now) }
    {
        let mut rest = self.again();
        let mut size = 0;
        while let Some(bytes) = rest.next_block() {
            size += bytes.len();
        }
        size
    }

    /// How many bytes the file holds, where that are not more than `most`.
    pub fn size_within(&self, most: usize) -> Option<usize>
        ensures { SomeIff result (length (joined self.now) ≤ most) (length (joined self.now)) }
    {
        let mut rest = self.again();
        let mut size = 0;
        while let Some(bytes) = rest.next_block() {
            if bytes.len() > most - size {
                return None;
            }
            size += bytes.len();
        }
        Some(size)
    }

    /// The pieces of the `size` bytes from place `start` on, as far as the file holds them.
    pub fn pieces(&self, start: usize, size: usize) -> Pieces<'a>
        ensures value { result ≡ parts start size self.now }
        ensures bytes { joined result ≡ take size (drop start (joined self.now)) }
        ensures mended { (rs : List ℕ) → AreMended rs self.now → AreMended rs result }
    {
        Pieces::of(self.again(), start, size)
    }

    /// The first place from `from` on, counted from 0, at which a record of the file begins.
    pub fn next_begin(&self, separator: Separator, from: usize) -> Option<usize>
        requires mended { AreMended (rs_of separator) self.now }
        requires limited { length (joined self.now) < 2 ^ 64 }
        ensures { IsFirst
            (BeginsAt (rs_of separator) (joined self.now)) from (length (joined self.now)) result }
    {
        let mut rest = self.again();
        let mut before = 0;
        while let Some(bytes) = rest.next_block() {
            if let Some(place) = separator.next_begin(bytes, from.saturating_sub(before)) {
                return Some(before + place);
            }
            before += bytes.len();
        }
        None
    }

    /// Whether a record begins at a place of the file, counted from 0.
    pub fn begins_at(&self, separator: Separator, place: usize) -> bool
        requires mended { AreMended (rs_of separator) self.now }
        requires within { place < length (joined self.now) }
        ensures { result ≡ spec.begins_at (rs_of separator) (joined self.now) place }
    {
        let mut rest = self.again();
        let mut left = place;
        while let Some(bytes) = rest.next_block() {
            if left < bytes.len() {
                return separator.begins_at(bytes, left);
            }
            left -= bytes.len();
        }
        false
    }

    /// How many records of the file begin from place `start` up to place `end`.
    pub fn count_begins(&self, separator: Separator, start: usize, end: usize) -> usize
        requires mended { AreMended (rs_of separator) self.now }
        requires rising { start ≤ end }
        requires within { end ≤ length (joined self.now) }
        ensures { result
            ≡ length (begins_within (rs_of separator) (joined self.now) start end) }
    {
        let mut rest = self.again();
        let mut from = start;
        let mut to = end;
        let mut count = 0;
        while let Some(block) = rest.next_counted_bytes() {
            let size = block.bytes().len();
            count += block.count_begins(separator, from.min(size), to.min(size));
            from = from.saturating_sub(size);
            to = to.saturating_sub(size);
        }
        count
    }
}
