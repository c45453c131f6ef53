//! A walk over the records of the input.

ghost use Rattle.std.specs.Prelude.{◌≡◌, ℕ, ◌+◌, ◌^◌, ◌<◌, ◌≤◌, [], ◌∷◌, length};
ghost use Rattle.std.specs.Iterator.{YieldsFirstBy, item_count};
ghost use Rattle.pawk_records.specs.Blocks.{joined};
ghost use Rattle.pawk_records.specs.Separator.{rs_of};
ghost use Rattle.pawk_input.specs.Input.{file_items, files_of, item_of, total_size};
ghost use Rattle.pawk_input.specs.Walk.{block_records, items_in_blocks, items_left};
ghost use Rattle.pawk_input.specs.Limits.{most_bytes};
ghost use Rattle.pawk_input.specs.Passing.{PassesOver};

use crate::item::Item;
use crate::lent::LentFiles;
use crate::passing::passed_length;
use memchr::memmem::Finder;
use pawk_records::{LineEnds, Pieces, Separator};
use std::marker::Model;

/// The records that are left of the input or of a part of it, in order.
#[derive(Drop)]
pub struct Records<'a> {
    separator: Separator,
    rest: &'a [u8],
    ends: LineEnds,
    pieces: Pieces<'a>,
    file: usize,
    name: &'a [u8],
    nr: u64,
    fnr: u64,
    later: LentFiles<'a>,
}

impl<'a> Model for Records<'a> {
    ghost use Rattle.std.specs.Prelude.{◌≤◌, ◌<◌, ◌+◌, ◌^◌, List, [], ◌∷◌, length};
    ghost use Rattle.pawk_records.specs.LineEnds.{AreEnds};
    ghost use Rattle.pawk_records.specs.Separator.{rs_of};
    ghost use Rattle.pawk_input.specs.Limits.{most_bytes};
    ghost use Rattle.pawk_records.specs.Blocks.{joined};
    ghost use Rattle.pawk_input.specs.Input.{Item, files_of, total_size};
    ghost use Rattle.pawk_input.specs.Walk.{items_ahead};

    ghost Value = { List Item };

    ghost view = { λ r. items_ahead
        (rs_of r.separator) r.file r.name.now r.nr r.fnr (r.rest.now ∷ r.pieces)
        r.later };

    ghost invariant = { λ r.
        (r.nr + length (items_ahead
        (rs_of r.separator) r.file r.name.now r.nr r.fnr (r.rest.now ∷ r.pieces) r.later)
        ≤ most_bytes)
        × (r.fnr ≤ r.nr)
        × (r.file + length r.later < 2 ^ 64)
        × (length r.rest.now + length (joined r.pieces)
        + total_size (files_of r.later) ≤ most_bytes)
        × AreEnds (rs_of r.separator) r.ends r.rest.now };
}

impl<'a> Records<'a> {
    /// The records of all these files.
    pub(crate) fn of_files(separator: Separator, files: LentFiles<'a>) -> Self
        requires limited { total_size (files_of files) ≤ most_bytes }
        requires few { length files < 2 ^ 64 }
        ensures { items_left result ≡ items_in_blocks (rs_of separator) 0 0 files.entry }
    {
        let mut later = files;
        let Some(first) = later.next_file() else {
            return Records {
                separator,
                rest: &[],
                ends: LineEnds::none(),
                pieces: Pieces::none(),
                file: 0,
                name: &[],
                nr: 0,
                fnr: 0,
                later,
            };
        };
        Records {
            separator,
            rest: &[],
            ends: LineEnds::none(),
            pieces: first.blocks.pieces(0, first.blocks.size()),
            file: 0,
            name: first.name,
            nr: 0,
            fnr: 0,
            later,
        }
    }

    /// The records of pieces of the file at this place, of this name, after `nr` records, `fnr` of
    /// them in that file.
    pub(crate) fn of_part(
        separator: Separator,
        file: usize,
        name: &'a [u8],
        pieces: Pieces<'a>,
        nr: u64,
        fnr: u64,
    ) -> Self
        requires counted { nr + length (block_records (rs_of separator) pieces) ≤ most_bytes }
        requires in_file { fnr ≤ nr }
        requires short { length (joined pieces) ≤ most_bytes }
        ensures { items_left result
            ≡ file_items file name.entry.now nr fnr (block_records (rs_of separator) pieces.entry) }
    {
        Records {
            separator,
            rest: &[],
            ends: LineEnds::none(),
            pieces,
            file,
            name,
            nr,
            fnr,
            later: LentFiles::none(),
        }
    }

    /// Passes over records at the front that hold none of these words: at most those in front of
    /// the record in which a word is seen first, and never the last of a block, so that another
    /// record follows. Says how many were passed over. Paragraphs are not passed over.
    pub fn pass_over(&mut self, words: &[Finder<'static>]) -> u64
        ensures { PassesOver words.now (items_left self.old) (items_left self.new) result }
    {
        let Separator::Byte(byte) = self.separator else {
            return 0;
        };
        let length = passed_length(words, self.rest, byte);
        if length == 0 {
            return 0;
        }
        let (passed, rest) = self.rest.split_at(length);
        let count = Separator::Byte(byte).count_records(passed) as u64;
        self.rest = rest;
        self.ends = LineEnds::none();
        self.nr += count;
        self.fnr += count;
        count
    }
}

impl<'a> Iterator for Records<'a> {
    type Item = Item<'a>;

    ghost next_gives = { YieldsFirstBy item_of items_left };

    ghost remaining = { item_count items_left };

    #[inline(always)]
    fn next(&mut self) -> Option<Item<'a>> {
        loop {
            if let Some((bytes, rest)) = self
                .separator
                .split_record_with(self.rest, &mut self.ends)
            {
                self.rest = rest;
                self.nr += 1;
                self.fnr += 1;
                return Some(Item {
                    bytes,
                    file: self.file,
                    name: self.name,
                    nr: self.nr,
                    fnr: self.fnr,
                });
            }
            if let Some(piece) = self.pieces.next_piece() {
                self.rest = piece;
                self.ends = LineEnds::none();
                continue;
            }
            let first = self.later.next_file()?;
            self.rest = &[];
            self.ends = LineEnds::none();
            self.pieces = first.blocks.pieces(0, first.blocks.size());
            self.name = first.name;
            self.file += 1;
            self.fnr = 0;
        }
    }
}
