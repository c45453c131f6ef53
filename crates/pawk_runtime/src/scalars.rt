//! Texts of the variables that a program may assign, and texts with one of them between.

ghost use Rattle.std.specs.Prelude.{◌≡◌, ◌++◌, OnOk};
ghost use Rattle.pawk_value.specs.Conversion.{text_of};
ghost use Rattle.pawk_store.specs.Builtins.{joined_by};
ghost use Rattle.pawk_runtime.specs.Joined.{first_of};

use itoa::Buffer;
use pawk_array::Texts;
use pawk_value::text_in;
use pawk_world::World;
use std::alloc::AllocError;

/// The text of a global scalar, of which nothing is copied; a number is written into the buffer.
#[inline(always)]
pub(crate) fn scalar_text<'a, W: World>(
    slot: usize,
    world: &'a W,
    buffer: &'a mut Buffer,
) -> &'a [u8]
    ensures { result.now ≡ text_of (W.calls.look slot (W.state world.now)) }
{
    text_in(world.scalar(slot), buffer)
}

/// Appends what separates or ends texts: a byte, as it mostly is, without a call that copies.
#[inline(always)]
pub(crate) fn push_separator(separator: &[u8], out: &mut Vec<u8>) -> Result<(), AllocError>
    ensures { OnOk result (out.new.items ≡ out.old.items ++ separator.now) }
{
    match separator {
        [byte] => out.push(*byte)?,
        _ => out.extend_from_slice(separator)?,
    }
    Ok(())
}

/// Appends the first of some texts, if there is one.
fn push_first(texts: &Texts, out: &mut Vec<u8>) -> Result<(), AllocError>
    ensures { OnOk result (out.new.items ≡ out.old.items ++ first_of texts.now) }
{
    if texts.len() > 0 {
        out.extend_from_slice(texts.text(0))?;
    }
    Ok(())
}

/// Appends texts with a separator between them.
pub(crate) fn push_joined(
    texts: &Texts,
    separator: &[u8],
    out: &mut Vec<u8>,
) -> Result<(), AllocError>
    ensures { OnOk result (out.new.items ≡ out.old.items ++ joined_by separator.now texts.now) }
{
    push_first(texts, out)?;
    for number in 1..texts.len() {
        push_separator(separator, out)?;
        out.extend_from_slice(texts.text(number))?;
    }
    Ok(())
}
