//! The elements of an array.

ghost use Rattle.std.specs.Prelude.{◌≡◌};
ghost use Rattle.pawk_array.specs.Entries.{found, value_of};
ghost use Rattle.pawk_store.specs.Globals.{array_at};
ghost use Rattle.pawk_frozen.specs.MarkViews.{mark_view};
ghost use Rattle.pawk_merge.specs.Joins.{joined_element, takes};
ghost use Rattle.pawk_merge.specs.Tables.{array_takes, with_element};
ghost use Rattle.pawk_merge.specs.Tables as spec;
ghost use Rattle.pawk_merge.specs.Stops.{Joins};

use crate::cell::{join_cell, takes_sums};
use crate::stop::JoinStop;
use pawk_array::AssociativeArray;
use pawk_frozen::{CellMark, ElementMarks};
use pawk_store::Globals;
use pawk_value::ValueRef;

/// Whether an element takes what was noted of it; only where amounts were it is looked up. It changes
/// nothing.
#[inline]
fn takes_element(globals: &Globals, array: usize, key: &[u8], mark: &CellMark) -> bool
    ensures { result ≡ takes (mark_view mark.now)
        (value_of (found key.now (array_at globals.now array))) }
{
    match mark {
        CellMark::Blank | CellMark::Put(_) | CellMark::Created => true,
        CellMark::Summed(sums) => match globals.get(array, key) {
            Some(value) => takes_sums(value, sums),
            None => takes_sums(ValueRef::Uninit, sums),
        },
    }
}

/// Whether each element of an array takes what was noted of it. It changes nothing.
pub(crate) fn takes_array(globals: &Globals, array: usize, marks: &ElementMarks) -> bool
    ensures { result ≡ array_takes marks.now (array_at globals.now array) }
{
    let mut pairs = marks.pairs();
    while let Some((key, mark)) = pairs.next() {
        if !takes_element(globals, array, key.text(), mark) {
            return false;
        }
    }
    true
}

/// Joins an element to what was noted of it; one that is missing is made first, unless nothing was.
#[inline]
fn join_element(elements: &mut AssociativeArray, key: &[u8], mark: CellMark) -> Result<(), JoinStop>
    ensures { Joins (takes (mark_view mark) (value_of (found key.now elements.old)))
        (λ _. elements.new ≡ with_element key.now
        (joined_element (mark_view mark) (found key.now elements.old)) elements.old) result }
{
    elements.order_law();
    if let CellMark::Blank = mark {
        return Ok(());
    }
    let cell = elements.entry(key)?;
    join_cell(cell, mark)
}

/// Joins the elements of an array to what was noted of them. Each key is looked up once.
pub(crate) fn join_array(
    elements: &mut AssociativeArray,
    marks: ElementMarks,
) -> Result<(), JoinStop>
    ensures { Joins (array_takes marks elements.old)
        (λ _. elements.new ≡ spec.join_array marks elements.old) result }
{
    let mut pairs = marks.into_pairs();
    while let Some((key, mark)) = pairs.next() {
        elements.order_law();
        join_element(elements, key.text(), mark)?;
    }
    Ok(())
}
