//! What a chunk notes of the elements of an array.

ghost use Rattle.std.specs.Prelude.{◌≡◌, ◌≢◌, [], None, IfOk, MatchOption, OnErr, OnOk};
ghost use Rattle.std.specs.Bool.{MatchBool};
ghost use Rattle.std.specs.Borrow.{sem};
ghost use Rattle.std.specs.FinMap.Entries.{find};
ghost use Rattle.pawk_value.specs.Value.{lent_value};
ghost use Rattle.pawk_keyed_map.specs.Keyed.{Rise, order};
ghost use Rattle.pawk_keyed_map.specs.Keys.{text_of};
ghost use Rattle.pawk_world.specs.Answers.{Answers};
ghost use Rattle.pawk_frozen.specs.Marks.{blank, created, last_put, mark_found, put_mark, with_amount};
ghost use Rattle.pawk_frozen.specs.Frozens.{signed_amount};
ghost use Rattle.pawk_frozen.specs.MarkViews.{kept, mark_view};
ghost use Rattle.pawk_frozen.specs.MarkLending.{LendsMark};

use crate::mark::CellMark;
use indexmap::IndexMap;
use indexmap::map::{IntoIter, Iter};
use pawk_code::word::Sign;
use pawk_keyed_map::{Key, KeyedMap, Seed, place_of};
use pawk_value::ValueRef;
use pawk_world::Halt;
use std::alloc::{AllocError, Global};
use std::marker::Model;

/// What a chunk notes of the elements of an array, by their keys. Contracts see the marks in the
/// order of the bytes of the keys.
#[derive(Drop)]
pub struct ElementMarks {
    alloc: Global,
    map: KeyedMap<CellMark>,
}

impl Model for ElementMarks {
    ghost use Rattle.pawk_frozen.specs.Marks as spec;
    ghost use Rattle.pawk_frozen.specs.MarkViews.{marks_of};

    ghost Value = { spec.Marks };

    ghost view = { λ m. marks_of m.map.entries };
}

/// Keys and their marks that are taken out one after the other, in the order in which the elements
/// were first noted. Contracts see those that are left, in the order of the bytes of the keys.
#[derive(Drop)]
pub struct MarkPairs {
    pairs: IntoIter<Key, CellMark>,
}

impl Model for MarkPairs {
    ghost use Rattle.pawk_frozen.specs.Marks as spec;
    ghost use Rattle.pawk_keyed_map.specs.Pairs.{OccurOnce};
    ghost use Rattle.pawk_frozen.specs.MarkViews.{mark_view, marks_of};

    ghost Value = { spec.Marks };

    ghost view = { λ m. marks_of m.pairs };

    ghost invariant = { λ m. OccurOnce mark_view m.pairs };
}

impl MarkPairs {
    /// Takes out the next key and its mark; each that is left has another key. None where there is
    /// none.
    pub fn next(&mut self) -> Option<(Key, CellMark)>
        ensures { MatchOption result ((self.old ≡ []) × (self.new ≡ [])) (λ pair.
            (self.old ≡ put_mark (text_of pair.0) (mark_view pair.1) self.new)
            × (find order (text_of pair.0) self.new ≡ None)) }
    {
        self.pairs.next()
    }
}

/// Keys and their marks that are lent one after the other, in the order in which the elements were
/// first noted. Contracts see those that are left, in the order of the bytes of the keys.
#[derive(Drop)]
pub struct LentPairs<'a> {
    pairs: Iter<'a, Key, CellMark>,
}

impl<'a> Model for LentPairs<'a> {
    ghost use Rattle.pawk_frozen.specs.Marks as spec;
    ghost use Rattle.pawk_keyed_map.specs.Pairs.{OccurOnce};
    ghost use Rattle.pawk_frozen.specs.MarkViews.{mark_view, marks_of};

    ghost Value = { spec.Marks };

    ghost view = { λ m. marks_of m.pairs };

    ghost invariant = { λ m. OccurOnce mark_view m.pairs };
}

impl<'a> LentPairs<'a> {
    /// Lends the next key and its mark; each that is left has another key. None where there is none.
    pub fn next(&mut self) -> Option<(&'a Key, &'a CellMark)>
        ensures { MatchOption result ((self.old ≡ []) × (self.new ≡ [])) (λ pair.
            (self.old ≡ put_mark (text_of pair.0.now) (mark_view pair.1.now) self.new)
            × (find order (text_of pair.0.now) self.new ≡ None)) }
    {
        self.pairs.next()
    }
}

impl ElementMarks {
    /// Nothing noted; keys are hashed by `seed`. Takes no memory.
    pub(crate) fn new(alloc: Global, seed: Seed) -> ElementMarks
        ensures { result ≡ [] }
    {
        ElementMarks {
            alloc,
            map: IndexMap::with_hasher(alloc, seed),
        }
    }

    /// How many keys there are.
    pub(crate) fn len(&self) -> usize {
        self.map.len()
    }

    /// The keys and their marks, to be taken out one after the other. Takes no memory.
    pub fn into_pairs(self) -> MarkPairs
        ensures { result ≡ self }
    {
        MarkPairs {
            pairs: self.map.into_iter(),
        }
    }

    /// The keys and their marks, to be lent one after the other. Takes no memory.
    pub fn pairs(&self) -> LentPairs<'_>
        ensures { result ≡ self.now }
    {
        LentPairs {
            pairs: self.map.iter(),
        }
    }

    /// The mark of an element, lent for a change. One that is missing is made blank; memory is
    /// refused only then, and the marks are as before.
    fn entry(&mut self, key: &[u8]) -> Result<&mut CellMark, AllocError>
        ensures* writes_back { sem 𝓛 (LendsMark self.entry key.now result) }
        ensures value { IfOk result (λ mark. mark_view mark.now ≡ mark_found key.now self.old) }
        ensures rise { OnOk result (Rise self.old) }
    {
        let place = place_of(self.alloc, &mut self.map, key, CellMark::Blank)?;
        Ok(self.map.get_index_mut(place).unwrap())
    }

    /// Notes an amount that is added to an element, or taken away.
    ///
    /// Fault `overflow` where the total passes 2^64 in size; then the marks are as before.
    #[inline]
    pub(crate) fn add(&mut self, key: &[u8], sign: Sign, amount: i64) -> Result<(), Halt>
        ensures { let mark
            = with_amount (signed_amount sign amount) (mark_found key.now self.old) in
            Answers (λ _. tt) (kept mark (put_mark key.now mark self.old) self.old)
            result self.new }
    {
        let mark = self.entry(key)?;
        mark.add(sign, amount)
    }

    /// Notes that an element is set, in the space that the value before has for its text.
    pub(crate) fn put(&mut self, key: &[u8], value: ValueRef<'_>) -> Result<(), AllocError>
        ensures { OnOk result
            (self.new ≡ put_mark key.now (last_put (lent_value value.entry)) self.old) }
    {
        let alloc = self.alloc;
        let mark = self.entry(key)?;
        mark.put(alloc, value)
    }

    /// Notes this mark of an element of which nothing is noted, and says whether that was so; where
    /// something was, the mark is dropped.
    pub(crate) fn note(&mut self, key: &[u8], mark: CellMark) -> Result<bool, AllocError>
        ensures { IfOk result (λ is_first. MatchBool is_first ((mark_found key.now self.old ≡ blank)
            × (self.new ≡ put_mark key.now (mark_view mark) self.old))
            (mark_found key.now self.old ≢ blank)) }
    {
        let before = self.entry(key)?;
        match before {
            CellMark::Blank => {
                *before = mark;
                Ok(true)
            }
            CellMark::Summed(_) | CellMark::Put(_) | CellMark::Created => Ok(false),
        }
    }

    /// Notes that an element is created.
    pub(crate) fn create(&mut self, key: &[u8]) -> Result<(), AllocError>
        ensures { OnOk result (self.new ≡ put_mark key.now created self.old) }
    {
        let mark = self.entry(key)?;
        *mark = CellMark::Created;
        Ok(())
    }
}
