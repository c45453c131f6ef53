//! The globals of a chunk.

ghost use Rattle.std.specs.Prelude.{◌≡◌, IfOk};
ghost use Rattle.pawk_value.specs.Value.{Uninit};
ghost use Rattle.pawk_world.specs.Answers.{Answers};
ghost use Rattle.pawk_admit.specs.Roles.{role_of_array, roles_view};
ghost use Rattle.pawk_frozen.specs.Frozens as spec;

use crate::table::Table;
use itoa::Buffer;
use pawk_admit::{Role, Roles};
use pawk_array::{Seed, Texts};
use pawk_code::word::Sign;
use pawk_store::Globals;
use pawk_value::{Fault, Held, ValueRef, hold};
use pawk_world::{Halt, World};
use std::alloc::{AllocError, Global};
use std::marker::Model;
use std::ops::Range;

/// The globals of a chunk: those that `BEGIN` left, which the chunk does not change, and what it
/// notes in place of changing them.
#[derive(Drop)]
pub struct Frozen<'a> {
    fixed: &'a Globals,
    roles: &'a Roles,
    table: Table,
}

impl<'a> Model for Frozen<'a> {
    ghost use Rattle.pawk_admit.specs.Roles.{roles_view};
    ghost use Rattle.pawk_frozen.specs.Frozens as spec;

    ghost Value = { spec.Frozen };

    ghost view = { λ f. record {
      fixed = f.fixed.now;
      roles = roles_view f.roles.now;
      table = f.table;
    } };
}

impl<'a> Frozen<'a> {
    /// The globals with which a chunk begins, of which it has noted nothing.
    pub fn new(alloc: Global, fixed: &'a Globals, roles: &'a Roles) -> Result<Self, AllocError>
        ensures { IfOk result (λ frozen.
            frozen ≡ spec.blank_world fixed.entry.now (roles_view roles.entry.now)) }
    {
        let (scalars, arrays) = (fixed.scalar_count(), fixed.array_count());
        Ok(Frozen {
            fixed,
            roles,
            table: Table::blank(alloc, fixed.seed(), scalars, arrays)?,
        })
    }

    /// The table of what the chunk noted of its globals.
    pub fn table(self) -> Table
        ensures { result ≡ self.entry.table }
    {
        self.table
    }

    /// The role of an array.
    fn role_of_array(&self, array: usize) -> Role
        ensures { result ≡ role_of_array self.now.roles array }
    {
        match self.roles.arrays.get(array) {
            Some(role) => *role,
            None => Role::Fixed,
        }
    }

    /// Creates an element that is not there, uninitialised, where the array allows it.
    fn create_missing(&mut self, array: usize, key: &[u8]) -> Result<(), Halt>
        ensures { Answers (λ _. Uninit)
            (spec.missing array key.now (role_of_array self.old.roles array) self.old)
            result self.new }
    {
        match self.role_of_array(array) {
            Role::Reader => Ok(self.table.create_element(array, key)?),
            Role::Fixed | Role::Adder | Role::Setter => Err(Halt::Clash),
        }
    }
}

impl<'a> World for Frozen<'a> {
    ghost use Rattle.pawk_frozen.specs.Frozens as spec;

    ghost State = { spec.Frozen };

    ghost state = { λ f. f };

    ghost calls = { spec.calls };

    fn seed(&self) -> Seed {
        self.fixed.seed()
    }

    fn scalar(&self, slot: usize) -> ValueRef<'_> {
        self.fixed.scalar(slot)
    }

    fn set_scalar(&mut self, slot: usize, value: ValueRef<'_>) -> Result<(), Halt> {
        self.table.put_scalar(slot, value)?;
        Ok(())
    }

    #[inline(always)]
    fn add_scalar(
        &mut self,
        slot: usize,
        sign: Sign,
        amount: Result<i64, Fault>,
    ) -> Result<(), Halt> {
        match amount {
            Ok(number) => self.table.add_scalar(slot, sign, number),
            Err(fault) => Err(Halt::Fault(fault)),
        }
    }

    fn append_scalar(&mut self, slot: usize, more: &[u8]) -> Result<(), Halt> {
        let fixed = self.fixed;
        self.table.append_scalar(slot, fixed.scalar(slot), more)?;
        Ok(())
    }

    fn element(&mut self, array: usize, key: &[u8], out: &mut Vec<u8>) -> Result<Held, Halt> {
        let fixed = self.fixed;
        match fixed.get(array, key) {
            Some(value) => Ok(hold(value, out)?),
            None => {
                self.create_missing(array, key)?;
                Ok(Held::Uninit)
            }
        }
    }

    fn old_element(
        &mut self,
        _array: usize,
        _key: &[u8],
        _out: &mut Vec<u8>,
    ) -> Result<Held, Halt> {
        Err(Halt::Clash)
    }

    fn set_element(&mut self, array: usize, key: &[u8], value: ValueRef<'_>) -> Result<(), Halt> {
        self.table.put_element(array, key, value)?;
        Ok(())
    }

    #[inline]
    fn add_element(
        &mut self,
        array: usize,
        key: &[u8],
        sign: Sign,
        amount: Result<i64, Fault>,
    ) -> Result<(), Halt> {
        match amount {
            Ok(number) => self.table.add_element(array, key, sign, number),
            Err(fault) => Err(Halt::Fault(fault)),
        }
    }

    fn holds(&mut self, array: usize, key: &[u8]) -> Result<bool, Halt> {
        Ok(self.fixed.get(array, key).is_some())
    }

    fn remove(&mut self, _array: usize, _key: &[u8]) -> Result<(), Halt> {
        Err(Halt::Clash)
    }

    fn clear(&mut self, _array: usize) -> Result<(), Halt> {
        Err(Halt::Clash)
    }

    fn fill(&mut self, array: usize, text: &[u8], pieces: Vec<Range<usize>>) -> Result<(), Halt> {
        for (index, piece) in pieces.iter().enumerate() {
            let mut number = Buffer::new();
            let key = number.format(index + 1).as_bytes();
            let value = ValueRef::Maybe(&text[piece.start..piece.end]);
            self.set_element(array, key, value)?;
        }
        Ok(())
    }

    fn keys(&mut self, array: usize) -> Result<Texts, Halt> {
        Ok(self.fixed.keys_of(array)?)
    }
}
