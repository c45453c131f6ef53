//! The law of blocks.

ghost use Rattle.std.specs.Prelude.{◌≤◌, length};
ghost use Rattle.pawk_records.specs.Blocks.{AreMended};
ghost use Rattle.pawk_records.specs.Law.{BlocksLaw};

use crate::blocks::Blocks;

/// The records of a file in mended blocks are those of each block by itself, in order, and begin
/// where those do. `rs` holds the byte at which records end, or none for paragraphs.
pub fn blocks_law(rs: &[u8], blocks: &Blocks)
    requires { AreMended rs.now blocks.now }
    ensures { BlocksLaw rs.now blocks.now }
{
    let _ = rs;
    let _ = blocks;
}
