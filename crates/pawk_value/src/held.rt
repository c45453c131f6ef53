//! Values whose bytes lie in a buffer.

ghost use Rattle.std.specs.Prelude.{◌≡◌, ◌++◌, ◌+◌, ◌<◌, length, vec_len, vec_capacity, drop, OnOk, OnErr, IfOk};
ghost use Rattle.pawk_value.specs.Value.{bytes_of, lent_value};
ghost use Rattle.pawk_value.specs.Held.{added, held_value};

use crate::ValueRef;
use std::alloc::AllocError;

/// A value whose bytes, if it has some, lie in a buffer that its owner lent.
#[derive(Clone, Copy)]
pub enum Held {
    /// No value was given yet.
    Uninit,
    /// A whole number.
    Num(i64),
    /// A text.
    Text,
    /// A text that may look like a number.
    Maybe,
}

/// Stores a lent value: its bytes are appended to the buffer. Memory is refused only where it has
/// bytes and the capacity of `out` is too small for them, and after a refusal the bytes of `out` are as
/// they were.
#[inline(always)]
pub fn hold(value: ValueRef<'_>, out: &mut Vec<u8>) -> Result<Held, AllocError>
    ensures value { IfOk result
        (λ h. held_value h (added out.old.items out.new.items) ≡ lent_value value.entry) }
    ensures appended { OnOk result
        (out.new.items ≡ out.old.items ++ added out.old.items out.new.items) }
    ensures same { OnErr result (out.new.items ≡ out.old.items) }
    ensures some { OnErr result (0 < length (bytes_of (lent_value value.entry))) }
    ensures full { OnErr result
        (vec_capacity out.old < vec_len out.old + length (bytes_of (lent_value value.entry))) }
{
    match value {
        ValueRef::Uninit => Ok(Held::Uninit),
        ValueRef::Num(number) => Ok(Held::Num(number)),
        ValueRef::Text(bytes) => {
            out.extend_from_slice(bytes)?;
            Ok(Held::Text)
        }
        ValueRef::Maybe(bytes) => {
            out.extend_from_slice(bytes)?;
            Ok(Held::Maybe)
        }
    }
}

/// Lends a value whose bytes are these.
pub fn lend_held(held: Held, bytes: &[u8]) -> ValueRef<'_>
    ensures { lent_value result ≡ held_value held bytes.now }
{
    match held {
        Held::Uninit => ValueRef::Uninit,
        Held::Num(number) => ValueRef::Num(number),
        Held::Text => ValueRef::Text(bytes),
        Held::Maybe => ValueRef::Maybe(bytes),
    }
}
