//! The globals of a run.

ghost use Rattle.std.specs.Prelude.{◌≡◌, IfOk, OnOk, map, slice_set};
ghost use Rattle.pawk_value.specs.Value.{Num, lent_value, shown};
ghost use Rattle.pawk_array.specs.Elements.{element_of};
ghost use Rattle.pawk_store.specs.Globals.{array_at};
ghost use Rattle.pawk_store.specs.Openings.{texts_of, pairs_of, opened};

use crate::appending::append_in;
use crate::copies::{copy_arrays, copy_scalars};
use crate::openings::{empty_arrays, extra_names, last_assigned, push_opening_values};
use pawk_array::{AssociativeArray, Element, Seed, Texts};
use pawk_code::word::Sign;
use pawk_settings::Assignment;
use pawk_value::{Fault, Held, Value, ValueRef, assign, hold, lend, to_num, to_num_lent};
use pawk_world::{Halt, World, sum};
use std::alloc::{AllocError, Global};
use std::marker::Model;
use std::ops::Range;

/// The globals of a run, scalars and arrays by their slots. A slot past the last has no value, and what is
/// written to it is lost.
#[derive(Drop)]
pub struct Globals {
    pub(crate) alloc: Global,
    pub(crate) seed: Seed,
    pub(crate) scalars: Vec<Value>,
    pub(crate) arrays: Vec<AssociativeArray>,
}

impl Model for Globals {
    ghost use Rattle.std.specs.Prelude.{map};
    ghost use Rattle.pawk_value.specs.Value.{shown};
    ghost use Rattle.pawk_store.specs.Globals as spec;

    ghost Value = { spec.Globals };

    ghost view = { λ g. record {
      scalars = map shown g.scalars.items;
      arrays = g.arrays.items;
    } };
}

/// Puts a value in its slot; past the last slot it is lost.
fn put(
    alloc: Global,
    values: &mut Vec<Value>,
    slot: usize,
    value: ValueRef<'_>,
) -> Result<(), AllocError>
    ensures { OnOk result (map shown values.new.items
        ≡ slice_set (map shown values.old.items) slot (lent_value value.entry)) }
{
    if slot < values.len() {
        assign(alloc, &mut values[slot], value)?;
    }
    Ok(())
}

/// Puts a number in its slot; past the last slot it is lost.
#[inline]
fn put_number(values: &mut Vec<Value>, slot: usize, number: i64)
    ensures { map shown values.new.items
        ≡ slice_set (map shown values.old.items) slot (Num number) }
{
    if slot < values.len() {
        values[slot] = Value::Num(number);
    }
}

impl Globals {
    /// The globals with which a run begins, for a program with scalars of these names, by their slots,
    /// and this number of arrays: the variables of the language have their values, then the assignments are
    /// made in their order (POSIX.1-2017, awk, "Variables and Special Variables"). A name that is
    /// assigned and is not of the program has a slot after those of the program. Keys of elements are hashed by
    /// `seed`.
    pub fn open(
        alloc: Global,
        seed: Seed,
        names: &[Vec<u8>],
        arrays: usize,
        assignments: &[Assignment],
    ) -> Result<Globals, AllocError>
        ensures { IfOk result (λ globals.
            globals ≡ opened (texts_of names.now) arrays (pairs_of assignments.now)) }
    {
        let extras = extra_names(alloc, seed, names, assignments)?;
        let last = last_assigned(alloc, seed, assignments)?;
        let mut scalars = Vec::new(alloc);
        push_opening_values(alloc, &last, names, &mut scalars)?;
        push_opening_values(alloc, &last, extras.as_slice(), &mut scalars)?;
        Ok(Globals {
            alloc,
            seed,
            scalars,
            arrays: empty_arrays(alloc, seed, arrays)?,
        })
    }

    /// The elements of an array, lent, in the order of the bytes of their keys.
    pub(crate) fn elements(
        &self,
        alloc: Global,
        array: usize,
    ) -> Result<Vec<Element<'_>>, AllocError>
        ensures { IfOk result (λ all. map element_of all.items ≡ array_at self.now array) }
    {
        match self.arrays.get(array) {
            Some(elements) => elements.elements(alloc),
            None => Ok(Vec::new(alloc)),
        }
    }

    /// A copy that holds its own bytes.
    pub fn copy(&self, alloc: Global) -> Result<Globals, AllocError>
        ensures { IfOk result (λ copy. copy ≡ self.now) }
    {
        Ok(Globals {
            alloc,
            seed: self.seed,
            scalars: copy_scalars(alloc, self.scalars.as_slice())?,
            arrays: copy_arrays(alloc, self.arrays.as_slice())?,
        })
    }
}

impl World for Globals {
    ghost use Rattle.pawk_store.specs.Globals as spec;

    ghost State = { spec.Globals };

    ghost state = { λ g. g };

    ghost calls = { spec.calls };

    fn seed(&self) -> Seed {
        self.seed
    }

    fn scalar(&self, slot: usize) -> ValueRef<'_> {
        match self.scalars.get(slot) {
            Some(value) => lend(value),
            None => ValueRef::Uninit,
        }
    }

    fn set_scalar(&mut self, slot: usize, value: ValueRef<'_>) -> Result<(), Halt> {
        put(self.alloc, &mut self.scalars, slot, value)?;
        Ok(())
    }

    fn add_scalar(
        &mut self,
        slot: usize,
        sign: Sign,
        amount: Result<i64, Fault>,
    ) -> Result<(), Halt> {
        if let ValueRef::Num(old) = self.scalar(slot) {
            let number = sum(sign, Ok(old), amount)?;
            put_number(&mut self.scalars, slot, number);
            return Ok(());
        }
        let number = sum(sign, to_num_lent(self.scalar(slot)), amount)?;
        self.set_scalar(slot, ValueRef::Num(number))
    }

    fn append_scalar(&mut self, slot: usize, more: &[u8]) -> Result<(), Halt> {
        append_in(self.alloc, &mut self.scalars, slot, more)?;
        Ok(())
    }

    fn element(&mut self, array: usize, key: &[u8], out: &mut Vec<u8>) -> Result<Held, Halt> {
        match self.arrays.get_mut(array) {
            Some(elements) => Ok(hold(elements.touch(key)?, out)?),
            None => Ok(Held::Uninit),
        }
    }

    fn old_element(&mut self, array: usize, key: &[u8], out: &mut Vec<u8>) -> Result<Held, Halt> {
        self.element(array, key, out)
    }

    fn set_element(&mut self, array: usize, key: &[u8], value: ValueRef<'_>) -> Result<(), Halt> {
        if array < self.arrays.len() {
            self.arrays[array].set(key, value)?;
        }
        Ok(())
    }

    fn add_element(
        &mut self,
        array: usize,
        key: &[u8],
        sign: Sign,
        amount: Result<i64, Fault>,
    ) -> Result<(), Halt> {
        if array >= self.arrays.len() {
            let _ = sum(sign, Ok(0), amount)?;
            return Ok(());
        }
        let value = self.arrays[array].entry(key)?;
        if let Value::Num(old) = value {
            *old = sum(sign, Ok(*old), amount)?;
            return Ok(());
        }
        let number = sum(sign, to_num(value), amount)?;
        *value = Value::Num(number);
        Ok(())
    }

    fn holds(&mut self, array: usize, key: &[u8]) -> Result<bool, Halt> {
        match self.arrays.get(array) {
            Some(elements) => Ok(elements.contains(key)),
            None => Ok(false),
        }
    }

    fn remove(&mut self, array: usize, key: &[u8]) -> Result<(), Halt> {
        if array < self.arrays.len() {
            self.arrays[array].remove(key)?;
        }
        Ok(())
    }

    fn clear(&mut self, array: usize) -> Result<(), Halt> {
        if array < self.arrays.len() {
            self.arrays[array].clear();
        }
        Ok(())
    }

    fn fill(&mut self, array: usize, text: &[u8], pieces: Vec<Range<usize>>) -> Result<(), Halt> {
        if array < self.arrays.len() {
            self.arrays[array].fill(text, pieces)?;
        }
        Ok(())
    }

    fn keys(&mut self, array: usize) -> Result<Texts, Halt> {
        match self.arrays.get(array) {
            Some(elements) => Ok(elements.keys(self.alloc)?),
            None => Ok(Texts::new(self.alloc)),
        }
    }
}
