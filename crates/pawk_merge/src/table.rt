//! All globals.

ghost use Rattle.std.specs.Prelude.{◌≡◌, map};
ghost use Rattle.pawk_world.specs.Worlds.{scalar};
ghost use Rattle.pawk_store.specs.Globals.{value_at};
ghost use Rattle.pawk_frozen.specs.MarkViews.{mark_view};
ghost use Rattle.pawk_merge.specs.Joins.{takes};
ghost use Rattle.pawk_merge.specs.Tables.{all_take, arrays_take, scalars_take};
ghost use Rattle.pawk_merge.specs.Tables as spec;
ghost use Rattle.pawk_merge.specs.Stops.{Joins};

use crate::array::{join_array, takes_array};
use crate::cell::{join_cell, takes_sums};
use crate::stop::JoinStop;
use pawk_frozen::{CellMark, ElementMarks, Table};
use pawk_store::Globals;
use pawk_world::World;

/// Whether a scalar takes what was noted of it. It changes nothing.
fn takes_scalar(globals: &Globals, slot: usize, mark: &CellMark) -> bool
    ensures { result ≡ takes (mark_view mark.now) (value_at (scalar slot) globals.now) }
{
    match mark {
        CellMark::Blank | CellMark::Put(_) | CellMark::Created => true,
        CellMark::Summed(sums) => takes_sums(globals.scalar(slot), sums),
    }
}

/// Whether each scalar takes what was noted of it. It changes nothing.
fn takes_scalars(globals: &Globals, marks: &[CellMark]) -> bool
    ensures { result ≡ scalars_take (map mark_view marks.now) globals.now }
{
    for slot in 0..marks.len() {
        if !takes_scalar(globals, slot, &marks[slot]) {
            return false;
        }
    }
    true
}

/// Whether each element of each array takes what was noted of it. It changes nothing.
fn takes_arrays(globals: &Globals, marks: &[ElementMarks]) -> bool
    ensures { result ≡ arrays_take marks.now globals.now }
{
    for slot in 0..marks.len() {
        if !takes_array(globals, slot, &marks[slot]) {
            return false;
        }
    }
    true
}

/// Whether each cell takes what a chunk noted of it: where amounts were added it has a number, and from
/// that number on the sum of all and all sums on the way are numbers of the language. It changes
/// nothing and takes no memory.
///
/// POSIX.1-2017, awk, "Expressions in awk".
pub fn takes_table(globals: &Globals, table: &Table) -> bool
    ensures { result ≡ all_take table.now globals.now }
{
    takes_scalars(globals, table.scalars()) && takes_arrays(globals, table.arrays())
}

/// Joins scalars to what was noted of them.
fn join_scalars(globals: &mut Globals, marks: Vec<CellMark>) -> Result<(), JoinStop>
    ensures { Joins (scalars_take (map mark_view marks.items) globals.old)
        (λ _. globals.new ≡ spec.join_scalars (map mark_view marks.items) globals.old) result }
{
    let mut slot = 0;
    for mark in marks {
        let mut value = globals.take_scalar(slot);
        join_cell(&mut value, mark)?;
        globals.put_scalar(slot, value);
        slot += 1;
    }
    Ok(())
}

/// Joins the elements of arrays to what was noted of them.
fn join_arrays(globals: &mut Globals, marks: Vec<ElementMarks>) -> Result<(), JoinStop>
    ensures { Joins (arrays_take marks.items globals.old)
        (λ _. globals.new ≡ spec.join_arrays marks.items globals.old) result }
{
    let mut slot = 0;
    for of_elements in marks {
        let mut elements = globals.take_array(slot);
        join_array(&mut elements, of_elements)?;
        globals.put_array(slot, elements);
        slot += 1;
    }
    Ok(())
}

/// Joins the globals to what a chunk noted of them, cell by cell.
///
/// Stop `cell` where a cell does not take what was noted of it. After a stop nothing is said of the
/// globals.
pub fn join_table(globals: &mut Globals, table: Table) -> Result<(), JoinStop>
    ensures { Joins (all_take table globals.old)
        (λ _. globals.new ≡ spec.join_table table globals.old) result }
{
    let (scalars, arrays) = table.into_marks();
    join_scalars(globals, scalars)?;
    join_arrays(globals, arrays)
}
