//! Arrays.

ghost use Rattle.std.specs.Prelude.{◌≡◌, ◌≤◌, [], ◌↔◌, length, map, IsTrue, IfOk, OnOk, OnErr, is_some};
ghost use Rattle.std.specs.List.{All};
ghost use Rattle.std.specs.Option.{option_map};
ghost use Rattle.std.specs.Borrow.{sem};
ghost use Rattle.pawk_value.specs.Value.{lent_value, shown, Uninit};
ghost use Rattle.pawk_array.specs.Entries.{found, put, without, value_of, with_pieces, keys, Rise};
ghost use Rattle.pawk_array.specs.Walks.{AreKeysOf};
ghost use Rattle.pawk_array.specs.Pieces.{with_texts, AreApart};
ghost use Rattle.pawk_array.specs.ArrayViews.{entries_of};
ghost use Rattle.pawk_array.specs.Elements.{element_of};
ghost use Rattle.pawk_array.specs.Lending.{LendsElement, EndsTouched};

use crate::headed::Headed;
use crate::pieces::TextPieces;
use crate::texts::Texts;
use indexmap::IndexMap;
use itoa::Buffer;
use pawk_keyed_map::{Key, KeyedMap, Query, Seed, place_of};
use pawk_value::{Value, ValueRef, assign, copy_lent, lend};
use std::alloc::{AllocError, Global};
use std::marker::Model;
use std::ops::Range;

/// The elements of an array by their keys (POSIX.1-2017, awk, "Variables and Special Variables").
/// Contracts see the elements in the order of the bytes of their keys.
///
/// The pieces of a text stay ranges of it until an element is changed; then they become pairs of the
/// map.
#[derive(Drop)]
pub struct AssociativeArray {
    alloc: Global,
    map: KeyedMap<Value>,
    pieces: TextPieces,
}

impl Model for AssociativeArray {
    ghost use Rattle.pawk_array.specs.Entries.{Entries};

    ghost Value = { Entries };

    ghost use Rattle.pawk_array.specs.ArrayViews.{entries_of};
    ghost use Rattle.pawk_array.specs.Pieces.{with_texts, AreApart};

    ghost view = { λ a. with_texts 0 a.pieces (entries_of a.map.entries) };

    ghost invariant = { λ a. AreApart a.pieces a.map.entries };
}

/// An element of an array: its key and its value.
#[derive(Clone, Copy)]
pub struct Element<'a> {
    pub key: &'a [u8],
    pub value: ValueRef<'a>,
}

/// Puts a copy of a pair among the pairs.
fn insert_copy(
    alloc: Global,
    map: &mut KeyedMap<Value>,
    key: &[u8],
    value: ValueRef<'_>,
) -> Result<(), AllocError>
    ensures { OnOk result (entries_of map.new.entries
        ≡ put key.now (lent_value value.entry) (entries_of map.old.entries)) }
{
    let key = Key::new(alloc, key)?;
    let value = copy_lent(alloc, value)?;
    map.insert(key, value)?;
    Ok(())
}

/// Puts copies of pieces among the pairs.
fn insert_pieces(
    alloc: Global,
    map: &mut KeyedMap<Value>,
    pieces: &TextPieces,
) -> Result<(), AllocError>
    ensures { OnOk result (entries_of map.new.entries
        ≡ with_texts 0 pieces.now (entries_of map.old.entries)) }
{
    for place in 0..pieces.len() {
        let piece = ValueRef::Maybe(pieces.piece(place));
        insert_copy(alloc, map, pieces.key(place), piece)?;
    }
    Ok(())
}

/// Makes pieces pairs of a map that has none. After a refusal of memory they are pieces as before.
#[cold]
#[inline(never)]
fn unfold(
    alloc: Global,
    map: &mut KeyedMap<Value>,
    pieces: &mut TextPieces,
) -> Result<(), AllocError>
    requires { map.old.entries ≡ [] }
    ensures gone { OnOk result (pieces.new ≡ []) }
    ensures apart { AreApart pieces.new map.new.entries }
    ensures same { with_texts 0 pieces.new (entries_of map.new.entries)
        ≡ with_texts 0 pieces.old (entries_of map.old.entries) }
{
    match insert_pieces(alloc, map, pieces) {
        Ok(()) => {
            pieces.clear();
            Ok(())
        }
        Err(error) => {
            map.clear();
            Err(error)
        }
    }
}

/// Makes pieces, if there are some, pairs of the map. After a refusal of memory they are pieces as
/// before.
#[inline]
fn settle(
    alloc: Global,
    map: &mut KeyedMap<Value>,
    pieces: &mut TextPieces,
) -> Result<(), AllocError>
    requires { AreApart pieces.old map.old.entries }
    ensures gone { OnOk result (pieces.new ≡ []) }
    ensures apart { AreApart pieces.new map.new.entries }
    ensures same { with_texts 0 pieces.new (entries_of map.new.entries)
        ≡ with_texts 0 pieces.old (entries_of map.old.entries) }
{
    if pieces.is_empty() {
        return Ok(());
    }
    unfold(alloc, map, pieces)
}

/// All keys of a map, lent, in the order of its pairs.
fn map_keys(alloc: Global, pairs: &KeyedMap<Value>) -> Result<Vec<Headed<'_>>, AllocError>
    ensures { IfOk result (λ all.
        AreKeysOf (entries_of pairs.now.entries) (map (λ x. x.text.now) all.items)) }
{
    let mut all = Vec::with_capacity(alloc, pairs.len())?;
    for place in 0..pairs.len() {
        let (key, _) = pairs.get_index(place).unwrap();
        all.push(Headed::new(key.text()))?;
    }
    Ok(all)
}

impl AssociativeArray {
    /// An array without elements, whose memory comes from `alloc` and whose keys are hashed by `seed`.
    pub fn new(alloc: Global, seed: Seed) -> AssociativeArray
        ensures { result ≡ [] }
    {
        AssociativeArray {
            alloc,
            map: IndexMap::with_hasher(alloc, seed),
            pieces: TextPieces::new(alloc),
        }
    }

    /// How many elements there are.
    pub fn len(&self) -> usize
        ensures { result ≡ length self.now }
    {
        if self.pieces.is_empty() {
            self.map.len()
        } else {
            self.pieces.len()
        }
    }

    /// The value of an element, if it is there. None is made.
    pub fn get(&self, key: &[u8]) -> Option<ValueRef<'_>>
        ensures { option_map lent_value result ≡ found key.now self.now }
    {
        if !self.pieces.is_empty() {
            return self.pieces.get(key).map(ValueRef::Maybe);
        }
        match self.map.get(Query(key)) {
            None => None,
            Some(value) => Some(lend(value)),
        }
    }

    /// Whether an element is there. None is made.
    pub fn contains(&self, key: &[u8]) -> bool
        ensures { result ≡ is_some (found key.now self.now) }
    {
        if !self.pieces.is_empty() {
            return self.pieces.get(key).is_some();
        }
        self.map.contains_key(Query(key))
    }

    /// Takes an element away, if it is there. Memory is refused only where the elements are the pieces of
    /// a text, which become pairs of the map first.
    pub fn remove(&mut self, key: &[u8]) -> Result<(), AllocError>
        ensures { OnOk result (self.new ≡ without key.now self.old) }
    {
        settle(self.alloc, &mut self.map, &mut self.pieces)?;
        let _ = self.map.swap_remove(Query(key));
        Ok(())
    }

    /// Takes all elements away, and keeps their memory.
    pub fn clear(&mut self)
        ensures { self.new ≡ [] }
    {
        self.map.clear();
        self.pieces.clear();
    }

    /// An element, lent for a change. One that is missing is made, uninitialised; memory is refused
    /// only then or where the elements are the pieces of a text, and the array is as before.
    pub fn entry(&mut self, key: &[u8]) -> Result<&mut Value, AllocError>
        ensures* writes_back { sem 𝓛 (LendsElement self.entry key.now result) }
        ensures value { IfOk result (λ v. shown v.now ≡ value_of (found key.now self.old)) }
    {
        settle(self.alloc, &mut self.map, &mut self.pieces)?;
        let place = place_of(self.alloc, &mut self.map, key, Value::Uninit)?;
        Ok(self.map.get_index_mut(place).unwrap())
    }

    /// The value of an element. One that is missing is made, uninitialised; memory is refused only then,
    /// and the array is as before.
    pub fn touch(&mut self, key: &[u8]) -> Result<ValueRef<'_>, AllocError>
        ensures* touched { sem 𝓛 (EndsTouched self.entry key.now result) }
        ensures value { IfOk result (λ v. lent_value v ≡ value_of (found key.now self.old)) }
    {
        if !self.pieces.is_empty() {
            if let Some(place) = self.pieces.place_of(key) {
                return Ok(ValueRef::Maybe(self.pieces.piece(place)));
            }
            unfold(self.alloc, &mut self.map, &mut self.pieces)?;
        }
        let element = place_of(self.alloc, &mut self.map, key, Value::Uninit)?;
        Ok(lend(self.map.get_index(element).unwrap().1))
    }

    /// Gives an element a value, in the space that it has for its text. After a refusal of memory the
    /// element has the value that it had, or is uninitialised where it was missing, or still is missing.
    pub fn set(&mut self, key: &[u8], value: ValueRef<'_>) -> Result<(), AllocError>
        ensures { OnOk result (self.new ≡ put key.now (lent_value value.entry) self.old) }
    {
        let alloc = self.alloc;
        let element = self.entry(key)?;
        assign(alloc, element, value)
    }

    /// Gives the keys `1`, `2`, .. the pieces of a text, as candidates. An array without elements copies
    /// the text as a whole and takes the ranges over; in another the elements are set one by one. After a
    /// refusal of memory some of them may be set.
    pub fn fill(&mut self, text: &[u8], ranges: Vec<Range<usize>>) -> Result<(), AllocError>
        requires { All (λ r. (r.start ≤ r.end) × (r.end ≤ length text.now)) ranges.items }
        ensures { OnOk result (self.new ≡ with_pieces 0 text.now ranges.items self.old) }
    {
        if self.pieces.is_empty() && self.map.is_empty() {
            return self.pieces.fill(self.alloc, text, ranges);
        }
        self.set_pieces(text, ranges.as_slice())
    }

    /// Sets the pieces of a text one by one.
    #[cold]
    #[inline(never)]
    fn set_pieces(&mut self, text: &[u8], ranges: &[Range<usize>]) -> Result<(), AllocError>
        requires { All (λ r. (r.start ≤ r.end) × (r.end ≤ length text.now)) ranges.now }
        ensures { OnOk result (self.new ≡ with_pieces 0 text.now ranges.now self.old) }
    {
        for (index, range) in ranges.iter().enumerate() {
            let mut number = Buffer::new();
            let key = number.format(index + 1).as_bytes();
            self.set(key, ValueRef::Maybe(&text[range.start..range.end]))?;
        }
        Ok(())
    }

    /// A copy that holds its own bytes.
    pub fn copy(&self, alloc: Global) -> Result<AssociativeArray, AllocError>
        ensures { IfOk result (λ copy. copy ≡ self.now) }
    {
        let seed = *self.map.hasher();
        let mut map = IndexMap::with_capacity_and_hasher(alloc, self.len(), seed)?;
        let mut place = self.map.len();
        while place > 0 {
            place -= 1;
            let (key, value) = self.map.get_index(place).unwrap();
            insert_copy(alloc, &mut map, key.text(), lend(value))?;
        }
        insert_pieces(alloc, &mut map, &self.pieces)?;
        Ok(AssociativeArray {
            alloc,
            map,
            pieces: TextPieces::new(alloc),
        })
    }

    /// All keys, lent, in any order.
    fn all_keys(&self, alloc: Global) -> Result<Vec<Headed<'_>>, AllocError>
        ensures keys { IfOk result (λ all. AreKeysOf self.now (map (λ x. x.text.now) all.items)) }
        ensures rises { Rise self.now }
    {
        if self.pieces.is_empty() {
            map_keys(alloc, &self.map)
        } else {
            self.pieces.keys(alloc)
        }
    }

    /// All keys, lent, in the order of their bytes.
    fn sorted(&self, alloc: Global) -> Result<Vec<Headed<'_>>, AllocError>
        ensures keys { IfOk result (λ all. map (λ x. x.text.now) all.items ≡ keys self.now) }
        ensures rises { OnOk result (Rise self.now) }
    {
        let mut sorted = self.all_keys(alloc)?;
        sorted.sort_unstable();
        Ok(sorted)
    }

    /// The keys rise: each occurs once, in the order of the bytes. It changes nothing and takes no time.
    pub fn order_law(&self)
        ensures { Rise self.now }
    {
        let _map = &self.map;
    }

    /// All keys, in the order of their bytes.
    pub fn keys(&self, alloc: Global) -> Result<Texts, AllocError>
        ensures { IfOk result (λ all. all ≡ keys self.now) }
    {
        let sorted = self.sorted(alloc)?;
        Texts::of(alloc, sorted.as_slice())
    }

    /// All elements, lent, in the order of the bytes of their keys.
    pub fn elements(&self, alloc: Global) -> Result<Vec<Element<'_>>, AllocError>
        ensures { IfOk result (λ all. map element_of all.items ≡ self.now) }
    {
        let sorted = self.sorted(alloc)?;
        let mut all = Vec::with_capacity(alloc, sorted.len())?;
        for key in sorted.as_slice() {
            if let Some(value) = self.get(key.text) {
                let key = key.text;
                all.push(Element { key, value })?;
            }
        }
        Ok(all)
    }
}
