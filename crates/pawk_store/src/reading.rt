//! What is read of globals without a change.

ghost use Rattle.std.specs.Prelude.{◌≡◌, length, All, IfOk};
ghost use Rattle.std.specs.Option.{option_map};
ghost use Rattle.pawk_value.specs.Value.{lent_value};
ghost use Rattle.pawk_array.specs.Entries.{found, keys, Rise};
ghost use Rattle.pawk_store.specs.Globals.{array_at};

use crate::globals::Globals;
use pawk_array::{AssociativeArray, Texts};
use pawk_value::ValueRef;
use std::alloc::AllocError;

/// In each array the keys rise.
fn order_of_arrays(arrays: &[AssociativeArray])
    ensures { All Rise arrays.now }
{
    for elements in arrays {
        elements.order_law();
    }
}

impl Globals {
    /// How many scalars there are.
    pub fn scalar_count(&self) -> usize
        ensures { result ≡ length self.now.scalars }
    {
        self.scalars.len()
    }

    /// How many arrays there are.
    pub fn array_count(&self) -> usize
        ensures { result ≡ length self.now.arrays }
    {
        self.arrays.len()
    }

    /// In each array the keys rise: each occurs once, in the order of the bytes. It changes nothing.
    pub fn order_law(&self)
        ensures { All Rise self.now.arrays }
    {
        order_of_arrays(self.arrays.as_slice());
    }

    /// The value of an element, if it is there. None is made.
    pub fn get(&self, array: usize, key: &[u8]) -> Option<ValueRef<'_>>
        ensures { option_map lent_value result ≡ found key.now (array_at self.now array) }
    {
        self.arrays.get(array)?.get(key)
    }

    /// All keys of an array, in the order of their bytes.
    pub fn keys_of(&self, array: usize) -> Result<Texts, AllocError>
        ensures { IfOk result (λ all. all ≡ keys (array_at self.now array)) }
    {
        match self.arrays.get(array) {
            Some(elements) => elements.keys(self.alloc),
            None => Ok(Texts::new(self.alloc)),
        }
    }
}
