//! Parts after which records may still be run in chunks.

ghost use Rattle.std.specs.Prelude.{◌≡◌, ℕ, List, map, true, IsTrue};
ghost use Rattle.pawk_admit.specs.declared.role.Role.TheVariants.{Adder};
ghost use Rattle.pawk_admit.specs.Roles.{role_of_array, role_of_scalar, roles_view};
ghost use Rattle.pawk_frozen.specs.Marks.{mark_found};
ghost use Rattle.pawk_frozen.specs.MarkViews.{mark_view};
ghost use Rattle.pawk_merge.specs.Tables.{array_marks, scalar_mark};
ghost use Rattle.pawk_merge_law.specs.Adders.{SetsNoAdder, SetsNothing};

use pawk_admit::{Role, Roles};
use pawk_frozen::{CellMark, ElementMarks, Table};

/// Whether what was noted of a cell is no value that was put there.
fn sets_nothing(mark: &CellMark) -> bool
    ensures { IsTrue result → SetsNothing (mark_view mark.now) }
{
    match mark {
        CellMark::Blank | CellMark::Summed(_) | CellMark::Created => true,
        CellMark::Put(_) => false,
    }
}

/// Whether no value was put into the scalar of this slot.
fn sets_no_scalar(marks: &[CellMark], slot: usize) -> bool
    ensures { IsTrue result → SetsNothing (scalar_mark (map mark_view marks.now) slot) }
{
    slot >= marks.len() || sets_nothing(&marks[slot])
}

/// Whether no value was put into one of these elements.
fn sets_none(marks: &ElementMarks) -> bool
    ensures { IsTrue result → (key : List ℕ) → SetsNothing (mark_found key marks.now) }
{
    let mut pairs = marks.pairs();
    while let Some((key, mark)) = pairs.next() {
        if !sets_nothing(mark) {
            return false;
        }
    }
    true
}

/// Whether no value was put into an element of the array of this slot.
fn sets_no_element(marks: &[ElementMarks], slot: usize) -> bool
    ensures { IsTrue result
        → (key : List ℕ) → SetsNothing (mark_found key (array_marks marks.now slot)) }
{
    slot >= marks.len() || sets_none(&marks[slot])
}

/// Whether no value was put into a scalar that is only added to.
fn sets_no_adding_scalar(roles: &Roles, marks: &[CellMark]) -> bool
    ensures { IsTrue result → (n : ℕ) → role_of_scalar (roles_view roles.now) n ≡ Adder
        → SetsNothing (scalar_mark (map mark_view marks.now) n) }
{
    for slot in 0..roles.scalars.len() {
        if let Role::Adder = roles.scalars[slot] {
            if !sets_no_scalar(marks, slot) {
                return false;
            }
        }
    }
    true
}

/// Whether no value was put into an element of an array that is only added to.
fn sets_no_adding_array(roles: &Roles, marks: &[ElementMarks]) -> bool
    ensures { IsTrue result → (n : ℕ) → role_of_array (roles_view roles.now) n ≡ Adder
        → (key : List ℕ) → SetsNothing (mark_found key (array_marks marks.now n)) }
{
    for slot in 0..roles.arrays.len() {
        if let Role::Adder = roles.arrays[slot] {
            if !sets_no_element(marks, slot) {
                return false;
            }
        }
    }
    true
}

/// Whether a part put no value into a cell that is only added to, as no part of a run does. The
/// marks of those cells are looked at, and no element is looked up.
fn sets_no_adder(roles: &Roles, table: &Table) -> bool
    ensures { IsTrue result → SetsNoAdder (roles_view roles.now) table.now }
{
    sets_no_adding_scalar(roles, table.scalars()) && sets_no_adding_array(roles, table.arrays())
}

/// Whether a run is known to be ready for records with this part, of which each cell takes what was
/// noted, where it was known so before or was not.
pub fn stays_ready(is_ready: bool, roles: &Roles, table: &Table) -> bool
    ensures { IsTrue result
        → (is_ready ≡ true) × SetsNoAdder (roles_view roles.now) table.now }
{
    is_ready && sets_no_adder(roles, table)
}
