//! Texts in one buffer of bytes.

ghost use Rattle.std.specs.Prelude.{◌≡◌, ◌<◌, ◌++◌, ◌∷◌, [], length, map, slice_get, Some, IfOk, OnOk};

use crate::headed::Headed;
use std::alloc::{AllocError, Global};
use std::marker::Model;
use std::ops::Range;

/// Texts in their order, in one buffer of bytes: the keys of an array, or what is printed or joined.
#[derive(Drop)]
pub struct Texts {
    bytes: Vec<u8>,
    ranges: Vec<Range<usize>>,
}

impl Model for Texts {
    ghost use Rattle.std.specs.Prelude.{ℕ, List};

    ghost Value = { List (List ℕ) };

    ghost use Rattle.pawk_array.specs.Texts.{texts_in, AreWithin};

    ghost view = { λ a. texts_in a.bytes.items a.ranges.items };

    ghost invariant = { λ a. AreWithin a.bytes.items a.ranges.items };
}

impl Texts {
    /// No texts. Takes no memory.
    pub fn new(alloc: Global) -> Texts
        ensures { result ≡ [] }
    {
        Texts {
            bytes: Vec::new(alloc),
            ranges: Vec::new(alloc),
        }
    }

    /// Takes all texts away. Their room stays for those that come.
    pub fn clear(&mut self)
        ensures { self.new ≡ [] }
    {
        self.bytes.clear();
        self.ranges.clear();
    }

    /// Appends a copy of a text. Where memory was refused nothing is said of the texts.
    pub fn push(&mut self, text: &[u8]) -> Result<(), AllocError>
        ensures { OnOk result (self.new ≡ self.old ++ text.now ∷ []) }
    {
        let start = self.bytes.len();
        self.bytes.extend_from_slice(text)?;
        let end = self.bytes.len();
        self.ranges.push(start..end)?;
        Ok(())
    }

    /// Copies of these texts.
    pub(crate) fn of(alloc: Global, texts: &[Headed<'_>]) -> Result<Texts, AllocError>
        ensures { IfOk result (λ copy. copy ≡ map (λ x. x.text.now) texts.now) }
    {
        let mut copy = Texts::new(alloc);
        for text in texts {
            copy.push(text.text)?;
        }
        Ok(copy)
    }

    /// How many texts there are.
    pub fn len(&self) -> usize
        ensures { result ≡ length self.now }
    {
        self.ranges.len()
    }

    /// The text with this number, counted from 0.
    pub fn text(&self, number: usize) -> &[u8]
        requires { number < length self.now }
        ensures { slice_get self.now number ≡ Some result.now }
    {
        let range = &self.ranges[number];
        &self.bytes[range.start..range.end]
    }
}
