//! Marks of the elements of an array, one after the other, as one.

ghost use Rattle.std.specs.Prelude.{◌≡◌, ◌<◌, ◌↔◌, [], length, IfOk, IsTrue, OnOk};
ghost use Rattle.std.specs.Prelude.{slice_index_or, slice_set};
ghost use Rattle.std.specs.Borrow.{sem};
ghost use Rattle.std.specs.Option.{option_map};
ghost use Rattle.pawk_keyed_map.specs.Keyed.{Rise, found};
ghost use Rattle.pawk_frozen.specs.Marks.{mark_found};
ghost use Rattle.pawk_frozen.specs.MarkViews.{mark_view};
ghost use Rattle.pawk_compose.specs.Compositions.{AllFollow, AreJoined};
ghost use Rattle.pawk_compose.specs.Compositions as spec;
ghost use Rattle.pawk_compose.specs.Lending.{LendsMark};

use crate::mark::{append, may_follow};
use indexmap::IndexMap;
use pawk_frozen::{CellMark, ElementMarks, Table};
use pawk_keyed_map::{KeyedMap, Query, Seed, place_of};
use std::alloc::{AllocError, Global};
use std::marker::Model;

/// Marks of the elements of an array, by their keys, which further marks may follow. Contracts see
/// them in the order of the bytes of the keys.
#[derive(Drop)]
pub(crate) struct ArrayMarks {
    alloc: Global,
    map: KeyedMap<CellMark>,
}

impl Model for ArrayMarks {
    ghost use Rattle.pawk_frozen.specs.Marks as spec;
    ghost use Rattle.pawk_frozen.specs.MarkViews.{marks_of};

    ghost Value = { spec.Marks };

    ghost view = { λ m. marks_of m.map.entries };
}

impl ArrayMarks {
    /// No marks; keys are hashed by `seed`. Takes no memory.
    fn empty(alloc: Global, seed: Seed) -> ArrayMarks
        ensures { result ≡ [] }
    {
        ArrayMarks {
            alloc,
            map: IndexMap::with_hasher(alloc, seed),
        }
    }

    /// The marks of an array as the first ones; keys are hashed by `seed`.
    ///
    /// The error comes where memory was refused.
    pub(crate) fn new(
        alloc: Global,
        seed: Seed,
        marks: ElementMarks,
    ) -> Result<ArrayMarks, AllocError>
        ensures { IfOk result (λ first. first ≡ marks) }
    {
        let mut first = ArrayMarks::empty(alloc, seed);
        first.add(marks)?;
        first.order_law();
        Ok(first)
    }

    /// The keys rise: each occurs once, in the order of the bytes. It changes nothing and takes no time.
    fn order_law(&self)
        ensures { Rise self.now }
    {
        let _map = &self.map;
    }

    /// The mark of an element, if there is one.
    fn get(&self, key: &[u8]) -> Option<&CellMark>
        ensures { option_map (λ mark. mark_view mark.now) result ≡ found key.now self.now }
    {
        self.map.get(Query(key))
    }

    /// Whether a mark of an element may follow the one that is there.
    fn takes_mark(&self, key: &[u8], mark: &CellMark) -> bool
        ensures { result
            ≡ spec.may_follow (mark_found key.now self.now) (mark_view mark.now) }
    {
        match self.get(key) {
            Some(first) => may_follow(first, mark),
            None => true,
        }
    }

    /// Whether marks of the array may follow.
    pub(crate) fn takes(&self, marks: &ElementMarks) -> bool
        ensures { IsTrue result ↔ AllFollow self.now marks.now }
    {
        let mut pairs = marks.pairs();
        while let Some((key, mark)) = pairs.next() {
            if !self.takes_mark(key.text(), mark) {
                return false;
            }
        }
        true
    }

    /// The mark of an element, lent for a change. One that is missing is made blank; memory is
    /// refused only then, and the marks are as before.
    fn entry(&mut self, key: &[u8]) -> Result<&mut CellMark, AllocError>
        ensures* writes_back { sem 𝓛 (LendsMark self.entry key.now result) }
        ensures value { IfOk result (λ mark. mark_view mark.now ≡ mark_found key.now self.old) }
        ensures rise { OnOk result (Rise self.old) }
    {
        let place = place_of(self.alloc, &mut self.map, key, CellMark::Blank)?;
        Ok(self.map.get_index_mut(place).unwrap())
    }

    /// Notes marks of the array after those that are there. Each key is looked up once.
    ///
    /// The error comes where memory was refused; then nothing is said of the marks.
    pub(crate) fn add(&mut self, marks: ElementMarks) -> Result<(), AllocError>
        requires { AllFollow self.old marks }
        ensures joined { OnOk result (AreJoined self.old marks self.new) }
        ensures rise { OnOk result (Rise marks) }
    {
        let mut pairs = marks.into_pairs();
        while let Some((key, mark)) = pairs.next() {
            let first = self.entry(key.text())?;
            append(first, mark);
        }
        Ok(())
    }

    /// Notes the marks in a table, which has none of the array of this slot.
    ///
    /// The error comes where memory was refused; then nothing is said of the table.
    pub(crate) fn note(self, table: &mut Table, slot: usize) -> Result<(), AllocError>
        requires within { slot < length table.old.arrays }
        requires none { slice_index_or table.old.arrays slot [] ≡ [] }
        ensures { OnOk result (table.new
            ≡ record table.old { arrays = slice_set table.old.arrays slot self }) }
    {
        let mut pairs = self.map.into_iter();
        while let Some((key, mark)) = pairs.next() {
            table.note_element(slot, key.text(), mark)?;
        }
        Ok(())
    }
}
