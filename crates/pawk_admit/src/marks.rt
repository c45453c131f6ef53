//! What is done with each global, in a table by slots.

ghost use Rattle.std.specs.Prelude.{◌≡◌, ◌≤◌, ◌<◌, ℕ, length, nat_eq, vec_len, OnOk, IfOk, if◌then◌else◌, slice_index_or};
ghost use Rattle.pawk_admit.specs.declared.occurrence.GlobalName.{GlobalName as NameOfText};
ghost use Rattle.pawk_admit.specs.Marks as spec;

use crate::occurrence::{GlobalName, Occurrence, Touch};
use std::alloc::{AllocError, Global};

/// What is done with a global.
#[derive(Clone, Copy)]
pub struct Marks {
    /// It is assigned by `=` whose value is dropped.
    pub sets: bool,
    /// It is added to.
    pub adds: bool,
    /// It is looked at.
    pub looks: bool,
    /// Something else is done with it.
    pub others: bool,
}

/// What is done with global scalars and with global arrays, by their slots.
#[derive(Drop)]
pub struct Tables {
    pub scalars: Vec<Marks>,
    pub arrays: Vec<Marks>,
}

impl Marks {
    /// Nothing is done.
    fn none() -> Marks
        ensures { result ≡ spec.nothing }
    {
        Marks {
            sets: false,
            adds: false,
            looks: false,
            others: false,
        }
    }

    /// What is done before, and this too.
    fn and(self, touch: Touch) -> Marks
        ensures { result ≡ spec.with_touch self touch }
    {
        let mut marks = self;
        match touch {
            Touch::Set => marks.sets = true,
            Touch::Add | Touch::AddAndLook => marks.adds = true,
            Touch::Look => marks.looks = true,
            Touch::Assign
            | Touch::Test
            | Touch::Walk
            | Touch::Split
            | Touch::Pass
            | Touch::Delete => marks.others = true,
        }
        marks
    }
}

/// A table has the slot, where nothing is done before.
fn widen(table: &mut Vec<Marks>, slot: usize) -> Result<(), AllocError>
    ensures wide { OnOk result (slot < vec_len table.new) }
    ensures longer { OnOk result (vec_len table.old ≤ vec_len table.new) }
    ensures same { OnOk result ((n : ℕ) →
        spec.marks_at table.new.items n ≡ spec.marks_at table.old.items n) }
{
    while table.len() <= slot {
        table.push(Marks::none())?;
    }
    Ok(())
}

/// Adds to a table what is done with a slot.
fn mark(table: &mut Vec<Marks>, slot: usize, touch: Touch) -> Result<(), AllocError>
    ensures longer { OnOk result (vec_len table.old ≤ vec_len table.new) }
    ensures marks { OnOk result ((n : ℕ) → spec.marks_at table.new.items n ≡
        (if nat_eq n slot then spec.with_touch (spec.marks_at table.old.items n) touch
        else spec.marks_at table.old.items n)) }
{
    widen(table, slot)?;
    table[slot] = table[slot].and(touch);
    Ok(())
}

impl Tables {
    /// Adds what an occurrence does with a global.
    fn add(&mut self, occurrence: Occurrence) -> Result<(), AllocError>
        ensures scalars { OnOk result (vec_len self.old.scalars ≤ vec_len self.new.scalars) }
        ensures arrays { OnOk result (vec_len self.old.arrays ≤ vec_len self.new.arrays) }
        ensures marks { OnOk result ((name : NameOfText) → spec.marks_of self.new name ≡
            spec.with_occurrence (spec.marks_of self.old name) name occurrence) }
    {
        match occurrence {
            Occurrence::Touch(touch, GlobalName::Scalar(slot)) => mark(
                &mut self.scalars,
                slot,
                touch,
            ),
            Occurrence::Touch(touch, GlobalName::Array(slot)) => mark(
                &mut self.arrays,
                slot,
                touch,
            ),
            Occurrence::Call(_) | Occurrence::Match | Occurrence::Range | Occurrence::NextFile => {
                Ok(())
            }
        }
    }

    /// The tables of what occurs in a text, with at least these numbers of slots.
    pub fn new(
        alloc: Global,
        list: &[Occurrence],
        scalars: usize,
        arrays: usize,
    ) -> Result<Tables, AllocError>
        ensures scalars { IfOk result (λ tables. scalars ≤ vec_len tables.scalars) }
        ensures arrays { IfOk result (λ tables. arrays ≤ vec_len tables.arrays) }
        ensures marks { IfOk result (λ tables. spec.AreTables list.now tables) }
    {
        let mut tables = Tables {
            scalars: vec![in alloc; Marks::none(); scalars]?,
            arrays: vec![in alloc; Marks::none(); arrays]?,
        };
        for occurrence in list {
            tables.add(*occurrence)?;
        }
        Ok(tables)
    }
}
