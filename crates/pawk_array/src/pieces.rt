//! The pieces of a text, by their numbers.

ghost use Rattle.std.specs.Prelude.{◌≡◌, ◌≢◌, ℕ, ◌+◌, ◌<◌, ◌≤◌, ◌↔◌, ◌^◌, [], length, map, slice_get, IsTrue, IfOk, OnOk, MatchOption};
ghost use Rattle.std.specs.Option.{option_map};
ghost use Rattle.std.specs.Fmt.{decimal};
ghost use Rattle.pawk_value.specs.Value.{Maybe};
ghost use Rattle.pawk_array.specs.Entries.{found};
ghost use Rattle.pawk_array.specs.Texts.{texts_in, AreWithin};
ghost use Rattle.pawk_array.specs.Pieces.{with_texts, AreNumbers};
ghost use Rattle.pawk_array.specs.Walks.{AreKeysOf};

use crate::headed::Headed;
use crate::texts::Texts;
use itoa::Buffer;
use pawk_value::leading_digits;
use std::alloc::{AllocError, Global};
use std::marker::Model;
use std::ops::Range;

/// The pieces of one text at the keys `1`, `2`, .., as `split` makes them. They are ranges of a copy of
/// the text; the keys are beside them, and stay from text to text. Contracts see the pieces.
#[derive(Drop)]
pub(crate) struct TextPieces {
    text: Vec<u8>,
    ranges: Vec<Range<usize>>,
    numbers: Texts,
}

impl Model for TextPieces {
    ghost use Rattle.std.specs.Prelude.{ℕ, List};

    ghost Value = { List (List ℕ) };

    ghost use Rattle.pawk_array.specs.Texts.{texts_in};
    ghost use Rattle.pawk_array.specs.Pieces.{ArePieces};

    ghost view = { λ a. texts_in a.text.items a.ranges.items };

    ghost invariant = { λ a. ArePieces a.text.items a.ranges.items a.numbers };
}

/// Goes on with the numbers from 1 up to this one. After a refusal of memory there are none.
#[cold]
#[inline(never)]
fn number_up_to(alloc: Global, numbers: &mut Texts, count: usize) -> Result<(), AllocError>
    requires { AreNumbers numbers.old }
    ensures numbers { AreNumbers numbers.new }
    ensures enough { OnOk result (count ≤ length numbers.new) }
{
    for number in numbers.len()..count {
        let mut room = Buffer::new();
        if let Err(error) = numbers.push(room.format(number + 1).as_bytes()) {
            *numbers = Texts::new(alloc);
            return Err(error);
        }
    }
    Ok(())
}

impl TextPieces {
    /// No pieces. Takes no memory.
    pub(crate) fn new(alloc: Global) -> TextPieces
        ensures { result ≡ [] }
    {
        TextPieces {
            text: Vec::new(alloc),
            ranges: Vec::new(alloc),
            numbers: Texts::new(alloc),
        }
    }

    /// How many pieces there are.
    pub(crate) fn len(&self) -> usize
        ensures count { result ≡ length self.now }
        ensures small { result < 2 ^ 63 }
    {
        self.ranges.len()
    }

    /// Whether there are no pieces.
    #[inline]
    pub(crate) fn is_empty(&self) -> bool
        ensures { IsTrue result ↔ (self.now ≡ []) }
    {
        self.ranges.is_empty()
    }

    /// Takes all pieces away, and keeps their memory.
    pub(crate) fn clear(&mut self)
        ensures { self.new ≡ [] }
    {
        self.ranges.clear();
    }

    /// The key of a piece, whose place is counted from 0.
    pub(crate) fn key(&self, place: usize) -> &[u8]
        requires { place < length self.now }
        ensures { result.now ≡ decimal (place + 1) }
    {
        self.numbers.text(place)
    }

    /// A piece, whose place is counted from 0.
    pub(crate) fn piece(&self, place: usize) -> &[u8]
        requires { place < length self.now }
        ensures { slice_get self.now place ≡ Some result.now }
    {
        let range = &self.ranges[place];
        &self.text[range.start..range.end]
    }

    /// The place of the piece that has this key, if one has it.
    pub(crate) fn place_of(&self, key: &[u8]) -> Option<usize>
        ensures small { length self.now < 2 ^ 63 }
        ensures place { MatchOption result
            ((i : ℕ) → i < length self.now → key.now ≢ decimal (i + 1))
            (λ i. (i < length self.now) × (key.now ≡ decimal (i + 1))) }
    {
        let number = leading_digits(key).value;
        if number == 0 || number > self.ranges.len() as u64 {
            return None;
        }
        let place = number as usize - 1;
        if self.numbers.text(place) == key {
            Some(place)
        } else {
            None
        }
    }

    /// The piece that has this key, if one has it.
    pub(crate) fn get(&self, key: &[u8]) -> Option<&[u8]>
        ensures { option_map (λ t. Maybe t.now) result ≡ found key.now (with_texts 0 self.now []) }
    {
        match self.place_of(key) {
            None => None,
            Some(place) => Some(self.piece(place)),
        }
    }

    /// Takes the ranges of a text over as the pieces, in the memory of the last ones. After a
    /// refusal of memory there are none.
    pub(crate) fn fill(
        &mut self,
        alloc: Global,
        text: &[u8],
        ranges: Vec<Range<usize>>,
    ) -> Result<(), AllocError>
        requires { AreWithin text.now ranges.items }
        ensures { OnOk result (self.new ≡ texts_in text.now ranges.items) }
    {
        self.ranges.clear();
        if ranges.len() > self.numbers.len() {
            number_up_to(alloc, &mut self.numbers, ranges.len())?;
        }
        self.text.clear();
        self.text.extend_from_slice(text)?;
        self.ranges = ranges;
        Ok(())
    }

    /// All keys, lent, in the order of the pieces.
    pub(crate) fn keys(&self, alloc: Global) -> Result<Vec<Headed<'_>>, AllocError>
        ensures { IfOk result (λ all.
            AreKeysOf (with_texts 0 self.now []) (map (λ x. x.text.now) all.items)) }
    {
        let mut all = Vec::with_capacity(alloc, self.len())?;
        for place in 0..self.len() {
            all.push(Headed::new(self.key(place)))?;
        }
        Ok(all)
    }
}
