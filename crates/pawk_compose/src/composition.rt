//! Tables, one after the other, as one.

ghost use Rattle.std.specs.Prelude.{◌≡◌, ◌↔◌, ◌<◌, ℕ, [], length, map, IfOk, IsTrue, OnOk, true};
ghost use Rattle.std.specs.Prelude.{Some, replicate, slice_index_or};
ghost use Rattle.pawk_frozen.specs.Marks.{blank};
ghost use Rattle.pawk_frozen.specs.MarkViews.{mark_view};
ghost use Rattle.pawk_shards.specs.Joined.{AreComposed, composed};
ghost use Rattle.pawk_compose.specs.Compositions.{AllFollow, AllKept, AreJoined};
ghost use Rattle.pawk_compose.specs.Compositions.{ArraysAreJoined, HasSlotsOf, MayFollow};
ghost use Rattle.pawk_compose.specs.Compositions as spec;

use crate::array::ArrayMarks;
use crate::mark::{append, may_follow};
use pawk_frozen::{CellMark, ElementMarks, Table};
use pawk_keyed_map::Seed;
use std::alloc::{AllocError, Global};
use std::marker::Model;

/// Tables that were noted one after the other, as one. Contracts see that table.
///
/// Each key of a table that is added is looked up twice and inserted at most once, however many keys
/// there are already.
#[derive(Drop)]
pub struct Composition {
    alloc: Global,
    seed: Seed,
    scalars: Vec<CellMark>,
    arrays: Vec<ArrayMarks>,
}

impl Model for Composition {
    ghost use Rattle.std.specs.Prelude.{map};
    ghost use Rattle.pawk_frozen.specs.Marks as spec;
    ghost use Rattle.pawk_frozen.specs.MarkViews.{mark_view};

    ghost Value = { spec.Table };

    ghost view = { λ c. record {
      scalars = map mark_view c.scalars.items;
      arrays = c.arrays.items;
    } };
}

/// The marks of arrays as the first ones.
fn first_arrays(
    alloc: Global,
    seed: Seed,
    arrays: Vec<ElementMarks>,
) -> Result<Vec<ArrayMarks>, AllocError>
    ensures { IfOk result (λ first. first.items ≡ arrays.items) }
{
    let mut first = Vec::with_capacity(alloc, arrays.len())?;
    for marks in arrays {
        first.push(ArrayMarks::new(alloc, seed, marks)?)?;
    }
    Ok(first)
}

/// Whether marks of as many scalars may follow.
fn scalars_follow(first: &[CellMark], second: &[CellMark]) -> bool
    requires { length second.now ≡ length first.now }
    ensures { IsTrue result ↔ ((n : ℕ) → n < length first.now →
        spec.may_follow (slice_index_or (map mark_view first.now) n blank)
        (slice_index_or (map mark_view second.now) n blank) ≡ true) }
{
    for slot in 0..first.len() {
        if !may_follow(&first[slot], &second[slot]) {
            return false;
        }
    }
    true
}

/// Whether marks of as many arrays may follow.
fn arrays_follow(first: &[ArrayMarks], second: &[ElementMarks]) -> bool
    requires { length second.now ≡ length first.now }
    ensures { IsTrue result ↔ ((n : ℕ) → n < length first.now →
        AllFollow (slice_index_or first.now n []) (slice_index_or second.now n [])) }
{
    for slot in 0..first.len() {
        if !first[slot].takes(&second[slot]) {
            return false;
        }
    }
    true
}

/// Notes marks of scalars after those that are there.
fn append_scalars(first: &mut [CellMark], second: Vec<CellMark>)
    requires long { length second.items ≡ length first.old }
    requires follow { (n : ℕ) → n < length first.old →
        spec.may_follow (slice_index_or (map mark_view first.old) n blank)
        (slice_index_or (map mark_view second.items) n blank) ≡ true }
    ensures { (n : ℕ) → n < length first.old →
        composed (slice_index_or (map mark_view first.old) n blank)
        (slice_index_or (map mark_view second.items) n blank)
        ≡ Some (slice_index_or (map mark_view first.new) n blank) }
{
    let mut slot = 0;
    for mark in second {
        append(&mut first[slot], mark);
        slot += 1;
    }
}

/// Notes marks of arrays after those that are there.
fn append_arrays(first: &mut [ArrayMarks], second: Vec<ElementMarks>) -> Result<(), AllocError>
    requires long { length second.items ≡ length first.old }
    requires follow { (n : ℕ) → n < length first.old →
        AllFollow (slice_index_or first.old n []) (slice_index_or second.items n []) }
    ensures { OnOk result ((n : ℕ) → n < length first.old →
        AreJoined (slice_index_or first.old n []) (slice_index_or second.items n [])
        (slice_index_or first.new n [])) }
{
    let mut slot = 0;
    for marks in second {
        first[slot].add(marks)?;
        slot += 1;
    }
    Ok(())
}

/// Notes the marks of scalars in a table that has none.
fn note_scalars(table: &mut Table, marks: Vec<CellMark>)
    requires { length table.old.scalars ≡ length marks.items }
    ensures { table.new ≡ record table.old { scalars = map mark_view marks.items } }
{
    let mut slot = 0;
    for mark in marks {
        table.set_scalar(slot, mark);
        slot += 1;
    }
}

/// Notes the marks of arrays in a table that has none.
fn note_arrays(table: &mut Table, arrays: Vec<ArrayMarks>) -> Result<(), AllocError>
    requires { table.old.arrays ≡ replicate (length arrays.items) [] }
    ensures { OnOk result (table.new ≡ record table.old { arrays = arrays.items }) }
{
    let mut slot = 0;
    for marks in arrays {
        marks.note(table, slot)?;
        slot += 1;
    }
    Ok(())
}

impl Composition {
    /// A table as the first; keys are hashed by `seed`.
    ///
    /// The error comes where memory was refused.
    pub fn new(alloc: Global, seed: Seed, table: Table) -> Result<Composition, AllocError>
        ensures { IfOk result (λ composition. composition ≡ table) }
    {
        let (scalars, arrays) = table.into_marks();
        Ok(Composition {
            alloc,
            seed,
            scalars,
            arrays: first_arrays(alloc, seed, arrays)?,
        })
    }

    /// Whether a table has as many scalars and arrays.
    fn has_slots_of(&self, table: &Table) -> bool
        ensures { IsTrue result ↔ HasSlotsOf self.now table.now }
    {
        table.scalars().len() == self.scalars.len() && table.arrays().len() == self.arrays.len()
    }

    /// Whether a table may follow: it has as many scalars and arrays, no cell has marks that it
    /// cannot have one after the other, and no sum of two sums is above 2^64 in size. It changes
    /// nothing and takes no memory.
    pub fn takes(&self, table: &Table) -> bool
        ensures { IsTrue result ↔ MayFollow self.now table.now }
    {
        if !self.has_slots_of(table) {
            return false;
        }
        scalars_follow(self.scalars.as_slice(), table.scalars())
            && arrays_follow(self.arrays.as_slice(), table.arrays())
    }

    /// Adds a table that was noted after those that are there, and may follow them.
    ///
    /// The error comes where memory was refused; then nothing is said of the composition.
    pub fn add(&mut self, table: Table) -> Result<(), AllocError>
        requires { MayFollow self.old table }
        ensures composed { OnOk result (AreComposed self.old table self.new) }
        ensures slots { OnOk result (HasSlotsOf self.old self.new) }
        ensures keys { OnOk result (ArraysAreJoined self.old.arrays table.arrays self.new.arrays) }
        ensures kept { OnOk result (AllKept self.old → AllKept table → AllKept self.new) }
    {
        let (scalars, arrays) = table.into_marks();
        append_scalars(self.scalars.as_mut_slice(), scalars);
        append_arrays(self.arrays.as_mut_slice(), arrays)
    }

    /// The one table.
    ///
    /// The error comes where memory was refused.
    pub fn into_table(self) -> Result<Table, AllocError>
        ensures { IfOk result (λ table. table ≡ self) }
    {
        let (scalars, arrays) = (self.scalars.len(), self.arrays.len());
        let mut table = Table::blank(self.alloc, self.seed, scalars, arrays)?;
        note_scalars(&mut table, self.scalars);
        note_arrays(&mut table, self.arrays)?;
        Ok(table)
    }
}
