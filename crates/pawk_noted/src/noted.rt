//! The globals of a run, which note where a reference creates an element.

ghost use Rattle.std.specs.Prelude.{◌≡◌, ◌++◌, ◌∷◌, [], ◌↔◌, IsTrue, OnOk};
ghost use Rattle.pawk_admit.specs.declared.role.Role.TheVariants.{Reader};
ghost use Rattle.pawk_admit.specs.Roles.{role_of_array, roles_view};
ghost use Rattle.pawk_commute.specs.Traces.{created};
ghost use Rattle.pawk_noted.specs.Reports.{reported, IsChange};
ghost use Rattle.pawk_noted.specs.Noteds.{CreatesElement};

use crate::trail::{CellRef, Report, Trail};
use pawk_admit::{Role, Roles};
use pawk_array::{Seed, Texts};
use pawk_code::word::Sign;
use pawk_store::Globals;
use pawk_value::{Fault, Held, ValueRef, hold};
use pawk_world::{Halt, World};
use std::alloc::{AllocError, Global};
use std::marker::Model;
use std::ops::Range;

/// The globals of a run of one thread, and the arrays in which a reference created an element.
///
/// Contracts see a trace beside them: which amounts were added to which cells, which values were put, and which
/// elements were created. It takes neither memory nor time.
#[derive(Drop)]
pub struct NotedGlobals {
    globals: Globals,
    arrays: Vec<usize>,
    trail: Trail,
}

impl Model for NotedGlobals {
    ghost use Rattle.pawk_noted.specs.Noteds.{Noted, AreNoted};

    ghost Value = { Noted };

    ghost view = { λ w. record {
      traced = record {
        globals = w.globals;
        trace = w.trail.events;
      };
      arrays = w.arrays.items;
    } };

    ghost invariant = { λ w. AreNoted w.arrays.items w.trail.events };
}

/// Whether an array is only read by the records.
fn is_reader(roles: &Roles, array: usize) -> bool
    ensures { IsTrue result ↔ (role_of_array (roles_view roles.now) array ≡ Reader) }
{
    match roles.arrays.get(array) {
        Some(role) => *role == Role::Reader,
        None => false,
    }
}

impl NotedGlobals {
    /// These globals, of which nothing is noted yet.
    pub fn new(alloc: Global, globals: Globals) -> NotedGlobals
        ensures { result.traced ≡ record { globals = globals; trace = [] } }
    {
        NotedGlobals {
            globals,
            arrays: Vec::new(alloc),
            trail: Trail::new(),
        }
    }

    /// Whether a reference created an element of an array that is no reader array by these roles.
    pub fn has_created(&self, roles: &Roles) -> bool
        ensures { IsTrue result ↔ CreatesElement (roles_view roles.now) self.now.traced.trace }
    {
        for array in &self.arrays {
            if !is_reader(roles, *array) {
                return true;
            }
        }
        false
    }

    /// The globals alone.
    pub fn into_globals(self) -> Globals
        ensures { result ≡ self.traced.globals }
    {
        self.globals
    }

    /// Goes on with the trace by a change of the globals.
    #[inline(always)]
    fn report(&mut self, change: &Report<'_>)
        requires { IsChange change.now }
        ensures { self.new.traced ≡ record {
          globals = self.old.traced.globals;
          trace = self.old.traced.trace ++ reported change.now;
        } }
    {
        self.trail = Trail::with(&self.trail, change);
    }

    /// Notes that a reference creates an element.
    #[cold]
    #[inline(never)]
    fn note(&mut self, array: usize, key: &[u8]) -> Result<(), AllocError>
        ensures { OnOk result (self.new.traced ≡ record {
          globals = self.old.traced.globals;
          trace = self.old.traced.trace ++ created array key.now ∷ [];
        }) }
    {
        if !self.arrays.contains(&array) {
            self.arrays.push(array)?;
        }
        self.trail = Trail::with(&self.trail, &Report::Create(array, key));
        Ok(())
    }
}

impl World for NotedGlobals {
    ghost use Rattle.pawk_store.specs.Globals as store;
    ghost use Rattle.pawk_commute.specs.Traces as traces;

    ghost State = { traces.Traced };

    ghost state = { λ w. w.traced };

    ghost calls = { traces.traced store.calls };

    #[inline]
    fn seed(&self) -> Seed {
        self.globals.seed()
    }

    #[inline(always)]
    fn scalar(&self, slot: usize) -> ValueRef<'_> {
        self.globals.scalar(slot)
    }

    #[inline(always)]
    fn set_scalar(&mut self, slot: usize, value: ValueRef<'_>) -> Result<(), Halt> {
        self.report(&Report::Put(CellRef::Scalar(slot), value));
        self.globals.set_scalar(slot, value)
    }

    #[inline(always)]
    fn add_scalar(
        &mut self,
        slot: usize,
        sign: Sign,
        amount: Result<i64, Fault>,
    ) -> Result<(), Halt> {
        let done = self.globals.add_scalar(slot, sign, amount);
        self.report(&Report::Add(CellRef::Scalar(slot), sign, amount, done));
        done
    }

    #[inline]
    fn append_scalar(&mut self, slot: usize, more: &[u8]) -> Result<(), Halt> {
        self.trail = Trail::with(&self.trail, &Report::Append(slot, &self.globals, more));
        self.globals.append_scalar(slot, more)
    }

    fn element(&mut self, array: usize, key: &[u8], out: &mut Vec<u8>) -> Result<Held, Halt> {
        if let Some(value) = self.globals.get(array, key) {
            // Keys rise, so a reference to an element that is there changes nothing.
            self.globals.order_law();
            return Ok(hold(value, out)?);
        }
        self.note(array, key)?;
        self.globals.element(array, key, out)
    }

    #[inline]
    fn old_element(&mut self, array: usize, key: &[u8], out: &mut Vec<u8>) -> Result<Held, Halt> {
        self.globals.old_element(array, key, out)
    }

    #[inline(always)]
    fn set_element(&mut self, array: usize, key: &[u8], value: ValueRef<'_>) -> Result<(), Halt> {
        self.report(&Report::Put(CellRef::Element(array, key), value));
        self.globals.set_element(array, key, value)
    }

    #[inline(always)]
    fn add_element(
        &mut self,
        array: usize,
        key: &[u8],
        sign: Sign,
        amount: Result<i64, Fault>,
    ) -> Result<(), Halt> {
        let done = self.globals.add_element(array, key, sign, amount);
        self.report(&Report::Add(CellRef::Element(array, key), sign, amount, done));
        done
    }

    #[inline]
    fn holds(&mut self, array: usize, key: &[u8]) -> Result<bool, Halt> {
        self.globals.holds(array, key)
    }

    #[inline]
    fn remove(&mut self, array: usize, key: &[u8]) -> Result<(), Halt> {
        self.globals.remove(array, key)
    }

    #[inline]
    fn clear(&mut self, array: usize) -> Result<(), Halt> {
        self.globals.clear(array)
    }

    #[inline]
    fn fill(&mut self, array: usize, text: &[u8], pieces: Vec<Range<usize>>) -> Result<(), Halt> {
        self.report(&Report::Fill(array, text, pieces.as_slice()));
        self.globals.fill(array, text, pieces)
    }

    #[inline]
    fn keys(&mut self, array: usize) -> Result<Texts, Halt> {
        self.globals.keys(array)
    }
}
