//! The text of a value, in memory.

ghost use Rattle.std.specs.Prelude.{◌≡◌, ◌++◌, ◌+◌, ◌<◌, length, vec_len, vec_capacity, IfOk, OnErr, is_ok, if◌then◌else◌};
ghost use Rattle.pawk_value.specs.Value.{shown, lent_value};
ghost use Rattle.pawk_value.specs.Conversion.{text_of};

use crate::{Value, ValueRef, lend, text_in};
use itoa::Buffer;
use std::alloc::{AllocError, Global};

/// Appends the text of a value. Memory is refused only where the capacity of `out` is too small, and after
/// a refusal its bytes are as they were.
pub fn push_text(value: &Value, out: &mut Vec<u8>) -> Result<(), AllocError>
    ensures items { out.new.items
        ≡ (if is_ok result then out.old.items ++ text_of (shown value.now) else out.old.items) }
    ensures full { OnErr result
        (vec_capacity out.old < vec_len out.old + length (text_of (shown value.now))) }
{
    push_text_lent(lend(value), out)
}

/// Appends the text of a lent value, as `push_text`.
#[inline(always)]
pub fn push_text_lent(value: ValueRef<'_>, out: &mut Vec<u8>) -> Result<(), AllocError>
    ensures items { out.new.items
        ≡ (if is_ok result
        then out.old.items ++ text_of (lent_value value.entry) else out.old.items) }
    ensures full { OnErr result
        (vec_capacity out.old < vec_len out.old + length (text_of (lent_value value.entry))) }
{
    let mut buffer = Buffer::new();
    out.extend_from_slice(text_in(value, &mut buffer))
}

/// The text of a value: none of an uninitialised one, the decimal text of a number. Memory is refused
/// only where the text is not empty.
pub fn to_text(alloc: Global, value: &Value) -> Result<Vec<u8>, AllocError>
    ensures text { IfOk result (λ text. text.items ≡ text_of (shown value.now)) }
    ensures full { OnErr result (0 < length (text_of (shown value.now))) }
{
    let mut text = Vec::new(alloc);
    push_text(value, &mut text)?;
    Ok(text)
}
