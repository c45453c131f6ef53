//! The table of what a chunk notes.

ghost use Rattle.std.specs.Prelude.{◌≡◌, ◌≢◌, ◌++◌, map, replicate, [], IfOk, OnOk};
ghost use Rattle.std.specs.Bool.{MatchBool};
ghost use Rattle.pawk_value.specs.Conversion.{text_of};
ghost use Rattle.pawk_value.specs.Value.{Text, lent_value};
ghost use Rattle.pawk_world.specs.Answers.{Answers};
ghost use Rattle.pawk_world.specs.Worlds.{element, scalar};
ghost use Rattle.pawk_frozen.specs.Marks.{blank, blank_table, created, last_put, mark_at};
ghost use Rattle.pawk_frozen.specs.Marks.{with_amount, with_mark};
ghost use Rattle.pawk_frozen.specs.Frozens.{signed_amount};
ghost use Rattle.pawk_frozen.specs.MarkViews.{kept, mark_view};

use crate::mark::CellMark;
use crate::marks::ElementMarks;
use pawk_array::Seed;
use pawk_code::word::Sign;
use pawk_value::{ValueRef, push_text_lent};
use pawk_world::Halt;
use std::alloc::{AllocError, Global};
use std::marker::Model;

/// What a chunk notes of scalars and of the elements of arrays, by their slots.
#[derive(Drop)]
pub struct Table {
    alloc: Global,
    scalars: Vec<CellMark>,
    arrays: Vec<ElementMarks>,
}

impl Model for Table {
    ghost use Rattle.std.specs.Prelude.{map};
    ghost use Rattle.pawk_frozen.specs.Marks as spec;
    ghost use Rattle.pawk_frozen.specs.MarkViews.{mark_view};

    ghost Value = { spec.Table };

    ghost view = { λ t. record {
      scalars = map mark_view t.scalars.items;
      arrays = t.arrays.items;
    } };
}

/// `count` blank marks.
fn blank_marks(alloc: Global, count: usize) -> Result<Vec<CellMark>, AllocError>
    ensures { IfOk result (λ marks. map mark_view marks.items ≡ replicate count blank) }
{
    let mut marks = Vec::with_capacity(alloc, count)?;
    for _ in 0..count {
        marks.push(CellMark::Blank)?;
    }
    Ok(marks)
}

/// Nothing noted of `count` arrays.
fn empty_marks(alloc: Global, seed: Seed, count: usize) -> Result<Vec<ElementMarks>, AllocError>
    ensures { IfOk result (λ marks. marks.items ≡ replicate count []) }
{
    let mut marks = Vec::with_capacity(alloc, count)?;
    for _ in 0..count {
        marks.push(ElementMarks::new(alloc, seed))?;
    }
    Ok(marks)
}

impl Table {
    /// Nothing noted of the scalars and arrays of these numbers; keys are hashed by `seed`.
    pub fn blank(
        alloc: Global,
        seed: Seed,
        scalars: usize,
        arrays: usize,
    ) -> Result<Table, AllocError>
        ensures { IfOk result (λ table. table ≡ blank_table scalars arrays) }
    {
        Ok(Table {
            alloc,
            scalars: blank_marks(alloc, scalars)?,
            arrays: empty_marks(alloc, seed, arrays)?,
        })
    }

    /// The marks of the scalars, by their slots.
    pub fn scalars(&self) -> &[CellMark]
        ensures { map mark_view result.now ≡ self.now.scalars }
    {
        self.scalars.as_slice()
    }

    /// The marks of the elements of each array, by their slots.
    pub fn arrays(&self) -> &[ElementMarks]
        ensures { result.now ≡ self.now.arrays }
    {
        self.arrays.as_slice()
    }

    /// Of how many elements something is noted, where a merge looks each of them up.
    pub fn element_count(&self) -> usize {
        let mut count: usize = 0;
        for marks in &self.arrays {
            count = count.saturating_add(marks.len());
        }
        count
    }

    /// The marks of the scalars, and those of the elements of each array, by their slots.
    pub fn into_marks(self) -> (Vec<CellMark>, Vec<ElementMarks>)
        ensures scalars { map mark_view result.0.items ≡ self.scalars }
        ensures arrays { result.1.items ≡ self.arrays }
    {
        (self.scalars, self.arrays)
    }

    /// Notes an amount that is added to a scalar, or taken away.
    ///
    /// Fault `overflow` where the total passes 2^64 in size; then the table is as before.
    #[inline]
    pub(crate) fn add_scalar(&mut self, slot: usize, sign: Sign, amount: i64) -> Result<(), Halt>
        ensures { let mark
            = with_amount (signed_amount sign amount) (mark_at (scalar slot) self.old) in
            Answers (λ _. tt) (kept mark (with_mark (scalar slot) mark self.old) self.old)
            result self.new }
    {
        if slot < self.scalars.len() {
            return self.scalars[slot].add(sign, amount);
        }
        Ok(())
    }

    /// Notes an amount that is added to an element, or taken away, as [`Table::add_scalar`] does.
    #[inline]
    pub(crate) fn add_element(
        &mut self,
        array: usize,
        key: &[u8],
        sign: Sign,
        amount: i64,
    ) -> Result<(), Halt>
        ensures { let mark
            = with_amount (signed_amount sign amount) (mark_at (element array key.now) self.old) in
            Answers (λ _. tt) (kept mark (with_mark (element array key.now) mark self.old) self.old)
            result self.new }
    {
        if array < self.arrays.len() {
            return self.arrays[array].add(key, sign, amount);
        }
        Ok(())
    }

    /// Notes that a scalar is set.
    pub(crate) fn put_scalar(&mut self, slot: usize, value: ValueRef<'_>) -> Result<(), AllocError>
        ensures { OnOk result
            (self.new ≡ with_mark (scalar slot) (last_put (lent_value value.entry)) self.old) }
    {
        if slot < self.scalars.len() {
            self.scalars[slot].put(self.alloc, value)?;
        }
        Ok(())
    }

    /// Notes that a scalar is set to the text of a value with more after it.
    pub(crate) fn append_scalar(
        &mut self,
        slot: usize,
        before: ValueRef<'_>,
        more: &[u8],
    ) -> Result<(), AllocError>
        ensures { OnOk result (self.new ≡ with_mark (scalar slot)
            (last_put (Text (text_of (lent_value before.entry) ++ more.now))) self.old) }
    {
        let mut text = Vec::new(self.alloc);
        push_text_lent(before, &mut text)?;
        text.extend_from_slice(more)?;
        self.put_scalar(slot, ValueRef::Text(text.as_slice()))
    }

    /// Notes that an element is set.
    pub(crate) fn put_element(
        &mut self,
        array: usize,
        key: &[u8],
        value: ValueRef<'_>,
    ) -> Result<(), AllocError>
        ensures { OnOk result (self.new
            ≡ with_mark (element array key.now) (last_put (lent_value value.entry)) self.old) }
    {
        if array < self.arrays.len() {
            self.arrays[array].put(key, value)?;
        }
        Ok(())
    }

    /// Notes this mark of a scalar, in place of the one before. A slot past the last one keeps nothing.
    pub fn set_scalar(&mut self, slot: usize, mark: CellMark)
        ensures { self.new ≡ with_mark (scalar slot) (mark_view mark) self.old }
    {
        if slot < self.scalars.len() {
            self.scalars[slot].set(mark);
        }
    }

    /// Notes this mark of an element of which nothing is noted, and says whether that was so; where
    /// something was, the mark is dropped. An array past the last one keeps nothing.
    ///
    /// The error comes where memory was refused; then nothing is said of the table.
    pub fn note_element(
        &mut self,
        array: usize,
        key: &[u8],
        mark: CellMark,
    ) -> Result<bool, AllocError>
        ensures { IfOk result (λ is_first. MatchBool is_first
            ((mark_at (element array key.now) self.old ≡ blank)
            × (self.new ≡ with_mark (element array key.now) (mark_view mark) self.old))
            (mark_at (element array key.now) self.old ≢ blank)) }
    {
        if array < self.arrays.len() {
            return self.arrays[array].note(key, mark);
        }
        Ok(true)
    }

    /// Notes that an element is created.
    pub(crate) fn create_element(&mut self, array: usize, key: &[u8]) -> Result<(), AllocError>
        ensures { OnOk result (self.new ≡ with_mark (element array key.now) created self.old) }
    {
        if array < self.arrays.len() {
            self.arrays[array].create(key)?;
        }
        Ok(())
    }
}
