//! Blocks that are mended, so that no record goes on in a later block.

ghost use Rattle.std.specs.Prelude.{◌≡◌, ◌≤◌, length, OnOk};
ghost use Rattle.pawk_records.specs.Separator.{rs_of};
ghost use Rattle.pawk_records.specs.Blocks.{AreMended, joined};

use crate::Separator;
use crate::block::Block;
use std::alloc::AllocError;

/// Mends blocks: each one whose last record goes on in the next one gets the rest of it from there.
pub(crate) fn mend_all(blocks: &mut [Block], separator: Separator) -> Result<(), AllocError>
    ensures same { joined blocks.new ≡ joined blocks.old }
    ensures mended { OnOk result (AreMended (rs_of separator) blocks.new) }
{
    for i in 1..blocks.len() {
        let (front, back) = blocks.split_at_mut(i);
        front[i - 1].mend(&mut back[0], separator)?;
    }
    Ok(())
}
