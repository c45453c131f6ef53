//! Parts of globals that are taken out and put back.

ghost use Rattle.std.specs.Prelude.{◌≡◌, [], map, slice_index_or, slice_set};
ghost use Rattle.pawk_value.specs.Value.{shown, Uninit};
ghost use Rattle.pawk_world.specs.Worlds.{scalar};
ghost use Rattle.pawk_store.specs.Globals.{array_at, value_at, with_array, with_value};

use crate::globals::Globals;
use pawk_array::AssociativeArray;
use pawk_value::Value;
use std::mem::replace;

/// Gives a scalar another value, and gives back the one that it had; past the last slot it stays.
fn exchange(values: &mut Vec<Value>, slot: usize, value: Value) -> Value
    ensures old { shown result ≡ slice_index_or (map shown values.old.items) slot (shown value) }
    ensures new { map shown values.new.items ≡ slice_set (map shown values.old.items) slot (shown value) }
{
    if slot < values.len() {
        return replace(&mut values[slot], value);
    }
    value
}

impl Globals {
    /// Takes out the value of a scalar, which is uninitialised then.
    pub fn take_scalar(&mut self, slot: usize) -> Value
        ensures value { shown result ≡ value_at (scalar slot) self.old }
        ensures globals { self.new ≡ with_value (scalar slot) Uninit self.old }
    {
        exchange(&mut self.scalars, slot, Value::Uninit)
    }

    /// Puts a value in the place of a scalar's; past the last slot it is lost.
    pub fn put_scalar(&mut self, slot: usize, value: Value)
        ensures { self.new ≡ with_value (scalar slot) (shown value) self.old }
    {
        let _ = exchange(&mut self.scalars, slot, value);
    }

    /// Takes out an array, which is empty then.
    pub fn take_array(&mut self, slot: usize) -> AssociativeArray
        ensures elements { result ≡ array_at self.old slot }
        ensures globals { self.new ≡ with_array slot [] self.old }
    {
        let empty = AssociativeArray::new(self.alloc, self.seed);
        match self.arrays.get_mut(slot) {
            Some(elements) => replace(elements, empty),
            None => empty,
        }
    }

    /// Puts an array in the place of one; past the last slot it is lost.
    pub fn put_array(&mut self, slot: usize, elements: AssociativeArray)
        ensures { self.new ≡ with_array slot elements self.old }
    {
        if slot < self.arrays.len() {
            self.arrays[slot] = elements;
        }
    }
}
