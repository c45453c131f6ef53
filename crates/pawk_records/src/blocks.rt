//! A file in blocks.

ghost use Rattle.std.specs.Prelude.{◌≡◌, ◌≤◌, [], ◌∷◌, length, IfOk, OnOk};
ghost use Rattle.pawk_records.specs.Blocks.{AreMended, joined};

use crate::Separator;
use crate::block::Block;
use crate::lent::LentBlocks;
use crate::mending::mend_all;
use std::alloc::{AllocError, Global};
use std::marker::Model;

/// The bytes of a file, in one block or several.
#[derive(Drop)]
pub struct Blocks {
    blocks: Vec<Block>,
}

impl Model for Blocks {
    ghost use Rattle.std.specs.Prelude.{List, ℕ};

    ghost Value = { List (List ℕ) };

    ghost view = { λ b. b.blocks.items };
}

impl Blocks {
    /// A file in one block. The bytes are given up where memory for the list of blocks was refused.
    pub fn whole(alloc: Global, bytes: Vec<u8>) -> Result<Self, AllocError>
        ensures { IfOk result (λ blocks. blocks ≡ bytes.items ∷ []) }
    {
        let mut blocks = Vec::with_capacity(alloc, 1)?;
        blocks.push_reserved(Block::new(bytes));
        Ok(Blocks { blocks })
    }

    /// A file in these blocks, in order. Takes no memory.
    pub fn of(blocks: Vec<Block>) -> Self
        ensures { result ≡ blocks.items }
    {
        Blocks { blocks }
    }

    /// Mends the blocks for records that end as `rs` says, one byte, or none for paragraphs: no
    /// record goes on in a later block then. Moves bytes from the beginning of a block, as far as they
    /// belong to a record before it, to the end of the block before it; for paragraphs all to one
    /// block. The file's bytes stay as they are.
    ///
    /// An error comes where memory for those bytes was refused.
    pub fn mend(&mut self, rs: &[u8]) -> Result<(), AllocError>
        requires one_byte { length rs.now ≤ 1 }
        ensures same { joined self.new ≡ joined self.old }
        ensures mended { OnOk result (AreMended rs.now self.new) }
    {
        mend_all(&mut self.blocks, Separator::of(rs))
    }

    /// The blocks, lent in their order.
    pub fn lend(&self) -> LentBlocks<'_>
        ensures { result ≡ self.now }
    {
        LentBlocks::of(&self.blocks)
    }
}
