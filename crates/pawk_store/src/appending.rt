//! Texts that are put after those of values.

ghost use Rattle.std.specs.Prelude.{◌≡◌, ◌++◌, OnOk, is_ok, if◌then◌else◌};
ghost use Rattle.std.specs.Prelude.{map, slice_index_or, slice_set};
ghost use Rattle.pawk_value.specs.Value.{shown, Text, Uninit};
ghost use Rattle.pawk_value.specs.Conversion.{text_of};

use pawk_value::{Value, to_text};
use std::alloc::{AllocError, Global};
use std::mem::replace;

/// Puts a text after that of a value, which is a text then, in the space that it has for its text.
/// After a refusal of memory the value is as it was.
fn append(alloc: Global, value: &mut Value, more: &[u8]) -> Result<(), AllocError>
    ensures { shown value.new ≡ (if is_ok result
        then Text (text_of (shown value.old) ++ more.now) else shown value.old) }
{
    match value {
        Value::Text(text) => text.extend_from_slice(more)?,
        Value::Maybe(room) => {
            room.extend_from_slice(more)?;
            let text = replace(room, Vec::new(alloc));
            *value = Value::Text(text);
        }
        Value::Uninit | Value::Num(_) => {
            let mut text = to_text(alloc, value)?;
            text.extend_from_slice(more)?;
            *value = Value::Text(text);
        }
    }
    Ok(())
}

/// Puts a text after that of the value in a slot; past the last slot it is lost.
pub(crate) fn append_in(
    alloc: Global,
    values: &mut Vec<Value>,
    slot: usize,
    more: &[u8],
) -> Result<(), AllocError>
    ensures { OnOk result (map shown values.new.items
        ≡ slice_set (map shown values.old.items) slot
        (Text (text_of (slice_index_or (map shown values.old.items) slot Uninit) ++ more.now))) }
{
    if slot < values.len() {
        append(alloc, &mut values[slot], more)?;
    }
    Ok(())
}
