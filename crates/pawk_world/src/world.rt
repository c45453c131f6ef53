//! The globals of a run.

ghost use Rattle.std.specs.Prelude.{◌≡◌, ◌++◌, OnOk};
ghost use Rattle.pawk_value.specs.Value.{lent_value};
ghost use Rattle.pawk_value.specs.Held.{added, held_value};
ghost use Rattle.pawk_array.specs.Texts.{AreWithin, texts_in};
ghost use Rattle.pawk_world.specs.Worlds.{Calls, read, old, write, add, test, remove, clear, keys};
ghost use Rattle.pawk_world.specs.Worlds as cells;
ghost use Rattle.pawk_world.specs.Answers.{Answers};
ghost use Rattle.pawk_world.specs.Writings.{append_to, fill_after};

use crate::halt::Halt;
use pawk_array::{Seed, Texts};
use pawk_code::word::Sign;
use pawk_value::{Fault, Held, ValueRef};
use std::ops::Range;

/// The globals of a run: scalars by their slots, and arrays by theirs, both counted from 0.
///
/// A call halts with a fault, with a clash where the world does not allow it, or where memory is refused;
/// after that the world is only dropped.
pub trait World {
    /// What the definitions see of the globals.
    ghost State: { Type 0 };

    /// The state that the world holds now.
    ghost state: { Self → State };

    /// What each call answers in a state.
    ghost calls: { Calls State };

    /// What keys of elements are hashed by, those of local arrays among them. No answer depends on it.
    fn seed(&self) -> Seed;

    /// Lends a scalar.
    fn scalar(&self, slot: usize) -> ValueRef<'_>
        ensures { lent_value result ≡ calls.look slot (state self.now) };

    /// Sets a scalar.
    fn set_scalar(&mut self, slot: usize, value: ValueRef<'_>) -> Result<(), Halt>
        ensures { Answers (λ _. tt)
            (calls.ask (write (cells.scalar slot) (lent_value value.entry)) (state self.old))
            result (state self.new) };

    /// Adds an amount to a scalar, or takes it away. The scalar is converted first; then a fault of
    /// the amount's conversion is reported.
    fn add_scalar(
        &mut self,
        slot: usize,
        sign: Sign,
        amount: Result<i64, Fault>,
    ) -> Result<(), Halt>
        ensures { Answers (λ _. tt)
            (calls.ask (add sign (cells.scalar slot) amount) (state self.old))
            result (state self.new) };

    /// Puts a text after the text of a scalar, which is a text then: one write.
    fn append_scalar(&mut self, slot: usize, more: &[u8]) -> Result<(), Halt>
        ensures { Answers (λ _. tt) (append_to calls slot more.now (state self.old))
            result (state self.new) };

    /// Stores the value of an element, which creates it where it is missing: its bytes are
    /// appended to `out`.
    fn element(&mut self, array: usize, key: &[u8], out: &mut Vec<u8>) -> Result<Held, Halt>
        ensures answer { Answers (λ h. held_value h (added out.old.items out.new.items))
            (calls.ask (read array key.now) (state self.old)) result (state self.new) }
        ensures appended { OnOk result
            (out.new.items ≡ out.old.items ++ added out.old.items out.new.items) };

    /// Stores the old value of an element that is assigned, as [`World::element`] does.
    fn old_element(&mut self, array: usize, key: &[u8], out: &mut Vec<u8>) -> Result<Held, Halt>
        ensures answer { Answers (λ h. held_value h (added out.old.items out.new.items))
            (calls.ask (old array key.now) (state self.old)) result (state self.new) }
        ensures appended { OnOk result
            (out.new.items ≡ out.old.items ++ added out.old.items out.new.items) };

    /// Sets an element.
    fn set_element(&mut self, array: usize, key: &[u8], value: ValueRef<'_>) -> Result<(), Halt>
        ensures { Answers (λ _. tt)
            (calls.ask (write (cells.element array key.now) (lent_value value.entry))
            (state self.old))
            result (state self.new) };

    /// Adds an amount to an element, or takes it away, as [`World::add_scalar`] does with a scalar.
    fn add_element(
        &mut self,
        array: usize,
        key: &[u8],
        sign: Sign,
        amount: Result<i64, Fault>,
    ) -> Result<(), Halt>
        ensures { Answers (λ _. tt)
            (calls.ask (add sign (cells.element array key.now) amount) (state self.old))
            result (state self.new) };

    /// Whether an array has a key.
    fn holds(&mut self, array: usize, key: &[u8]) -> Result<bool, Halt>
        ensures { Answers (λ b. b) (calls.ask (test array key.now) (state self.old))
            result (state self.new) };

    /// Takes an element away.
    fn remove(&mut self, array: usize, key: &[u8]) -> Result<(), Halt>
        ensures { Answers (λ _. tt) (calls.ask (remove array key.now) (state self.old))
            result (state self.new) };

    /// Empties an array.
    fn clear(&mut self, array: usize) -> Result<(), Halt>
        ensures { Answers (λ _. tt) (calls.ask (clear array) (state self.old))
            result (state self.new) };

    /// Gives the elements `1`, `2`, .. of an array the pieces of a text, as candidates: one write
    /// for each, in their order. A piece is a range of bytes. The array is not emptied before.
    ///
    /// POSIX.1-2017, awk, "String Functions" (`split`).
    fn fill(&mut self, array: usize, text: &[u8], pieces: Vec<Range<usize>>) -> Result<(), Halt>
        requires { AreWithin text.now pieces.items }
        ensures { Answers (λ _. tt)
            (fill_after calls array 0 (texts_in text.now pieces.items) (state self.old))
            result (state self.new) };

    /// All keys of an array, in the order of their bytes.
    fn keys(&mut self, array: usize) -> Result<Texts, Halt>
        ensures { Answers (λ k. k) (calls.ask (keys array) (state self.old)) result (state self.new) };
}
