//! Values in one buffer of bytes.

ghost use Rattle.std.specs.Prelude.{◌≡◌, ◌≤◌, ◌+◌, ◌++◌, ◌∷◌, [], length, map, take, vec_len, IfOk, OnErr, OnOk};
ghost use Rattle.pawk_value.specs.Value.{lent_value};
ghost use Rattle.pawk_value.specs.Held.{held_value};

use pawk_value::{Held, ValueRef, lend_held};
use std::alloc::{AllocError, Global};
use std::marker::Model;
use std::ops::Range;

/// How many values are lent in a list that takes no memory.
pub(crate) const FEW: usize = 8;

/// The room that the first bytes take, so that those after them need no other.
const FIRST_ROOM: usize = 64;

/// Values in their order, in one buffer of bytes.
#[derive(Drop)]
pub struct Values {
    bytes: Vec<u8>,
    values: Vec<(Held, Range<usize>)>,
}

impl Model for Values {
    ghost use Rattle.std.specs.Prelude.{List, map};
    ghost use Rattle.pawk_value.specs.Value.{Val};

    ghost Value = { List Val };

    ghost use Rattle.pawk_builtins.specs.ValueViews.{value_in, AreWithin};

    ghost view = { λ v. map (value_in v.bytes.items) v.values.items };

    ghost invariant = { λ v. AreWithin v.bytes.items v.values.items };
}

/// Appends bytes, the first of which take room for more.
fn push_bytes(out: &mut Vec<u8>, bytes: &[u8]) -> Result<(), AllocError>
    ensures items { OnOk result (out.new.items ≡ out.old.items ++ bytes.now) }
    ensures kept { OnErr result (out.new.items ≡ out.old.items) }
    ensures len { OnOk result (vec_len out.new ≡ vec_len out.old + length bytes.now) }
{
    if bytes.is_empty() {
        return Ok(());
    }
    if out.capacity() == 0 {
        out.reserve(bytes.len().max(FIRST_ROOM))?;
    }
    out.extend_from_slice(bytes)
}

impl Values {
    /// No values. Takes no memory.
    pub fn new(alloc: Global) -> Values
        ensures { result ≡ [] }
    {
        Values {
            bytes: Vec::new(alloc),
            values: Vec::new(alloc),
        }
    }

    /// Takes all values away. Their room stays for those that come.
    pub fn clear(&mut self)
        ensures { self.new ≡ [] }
    {
        self.bytes.clear();
        self.values.clear();
    }

    /// Appends a copy of a value whose bytes are these. Where memory was refused nothing is said of the
    /// values.
    #[inline(always)]
    pub fn push(&mut self, held: Held, bytes: &[u8]) -> Result<(), AllocError>
        ensures { OnOk result (self.new ≡ self.old ++ held_value held bytes.now ∷ []) }
    {
        let begin = self.bytes.len();
        push_bytes(&mut self.bytes, bytes)?;
        let end = self.bytes.len();
        self.values.push((held, begin..end))?;
        Ok(())
    }

    /// How many values there are.
    pub(crate) fn count(&self) -> usize
        ensures { result ≡ length self.now }
    {
        self.values.len()
    }

    /// Puts the values, of which there are few, with their bytes lent, at the begin of a list.
    #[inline(never)]
    pub(crate) fn lend_few<'v>(&'v self, list: &mut [ValueRef<'v>; FEW])
        requires { length self.now ≤ FEW }
        ensures { map lent_value (take (length self.now) list.new) ≡ self.now }
    {
        let mut count = 0;
        for (held, range) in &self.values {
            list[count] = lend_held(*held, &self.bytes[range.start..range.end]);
            count += 1;
        }
    }

    /// The values, with their bytes lent.
    pub(crate) fn lend(&self, alloc: Global) -> Result<Vec<ValueRef<'_>>, AllocError>
        ensures { IfOk result (λ list. map lent_value list.items ≡ self.now) }
    {
        let mut list = Vec::with_capacity(alloc, self.values.len())?;
        for (held, range) in &self.values {
            list.push(lend_held(*held, &self.bytes[range.start..range.end]))?;
        }
        Ok(list)
    }
}
