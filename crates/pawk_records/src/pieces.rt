//! Pieces of a file.

ghost use Rattle.std.specs.Prelude.{◌≡◌, ℕ, List, [], ◌∷◌, take, drop, MatchOption};
ghost use Rattle.pawk_records.specs.Blocks.{AreMended, joined, parts};

use crate::lent::LentBlocks;
use std::marker::Model;

/// What lies in each block of a range of a file, in order, as far as it was not yet handed out.
#[derive(Drop)]
pub struct Pieces<'a> {
    rest: LentBlocks<'a>,
    start: usize,
    size: usize,
}

impl<'a> Model for Pieces<'a> {
    ghost use Rattle.std.specs.Prelude.{List, ℕ};
    ghost use Rattle.pawk_records.specs.Blocks.{parts};

    ghost Value = { List (List ℕ) };

    ghost view = { λ p. parts p.start p.size p.rest };
}

impl<'a> Pieces<'a> {
    /// The pieces of the `size` bytes from place `start` on of what the blocks hold.
    pub(crate) fn of(blocks: LentBlocks<'a>, start: usize, size: usize) -> Self
        ensures value { result ≡ parts start size blocks.entry }
        ensures bytes { joined result ≡ take size (drop start (joined blocks.entry)) }
        ensures mended { (rs : List ℕ) → AreMended rs blocks.entry → AreMended rs result }
    {
        Pieces {
            rest: blocks,
            start,
            size,
        }
    }

    /// A list of no pieces.
    pub fn none() -> Self
        ensures { result ≡ [] }
    {
        Pieces {
            rest: LentBlocks::none(),
            start: 0,
            size: 0,
        }
    }

    /// The next piece, which may be empty, if there is one; else there is none later either.
    pub fn next_piece(&mut self) -> Option<&'a [u8]>
        ensures { MatchOption result ((self.old ≡ []) × (self.new ≡ []))
            (λ piece. self.old ≡ piece.now ∷ self.new) }
    {
        let bytes = self.rest.next_block()?;
        let from = self.start.min(bytes.len());
        let (_, after) = bytes.split_at(from);
        let (piece, _) = after.split_at(self.size.min(after.len()));
        self.start -= from;
        self.size -= piece.len();
        Some(piece)
    }
}
