//! One cell.

ghost use Rattle.std.specs.Prelude.{◌≡◌, ◌+ℤ◌, false, IfNone, IfSome, true};
ghost use Rattle.pawk_value.specs.Range.{in_range};
ghost use Rattle.pawk_value.specs.Value.{lent_value, shown};
ghost use Rattle.pawk_frozen.specs.MarkViews.{mark_view, sums_view};
ghost use Rattle.pawk_merge.specs.Joins.{fits, joined_value, takes};
ghost use Rattle.pawk_merge.specs.Stops.{Joins};

use crate::stop::JoinStop;
use pawk_frozen::{CellMark, Sums};
use pawk_value::{Value, ValueRef, to_num, to_num_lent, whole_number};

/// The number that is so much greater, if it is one of the language.
#[inline]
fn shifted(number: i64, amount: i128) -> Option<i64>
    ensures some { IfSome result (λ sum.
        (sum ≡ number +ℤ amount) × (in_range (number +ℤ amount) ≡ true)) }
    ensures none { IfNone result (in_range (number +ℤ amount) ≡ false) }
{
    whole_number(i128::from(number).checked_add(amount)?).ok()
}

/// The number with all amounts, if it and all sums on the way are numbers of the language.
#[inline]
fn sum_from(number: i64, sums: &Sums) -> Option<i64>
    ensures some { IfSome result (λ sum. (sum ≡ number +ℤ sums.now.total)
        × (fits sums.now.total sums.now.least sums.now.greatest number ≡ true)) }
    ensures none { IfNone result
        (fits sums.now.total sums.now.least sums.now.greatest number ≡ false) }
{
    let sum = shifted(number, sums.total)?;
    shifted(number, sums.least)?;
    shifted(number, sums.greatest)?;
    Some(sum)
}

/// Whether a cell that has this value takes amounts: it has a number, from which the sum of all and all
/// sums on the way are numbers of the language.
#[inline]
pub(crate) fn takes_sums(value: ValueRef<'_>, sums: &Sums) -> bool
    ensures { result ≡ takes (sums_view sums.now) (lent_value value.entry) }
{
    match to_num_lent(value) {
        Ok(number) => sum_from(number, sums).is_some(),
        Err(_) => false,
    }
}

/// Joins a cell to what was noted of it: amounts are added to its number, a value that was set is moved
/// into it.
///
/// Stop `cell` where its value has no number, or the sum of all amounts, or one of the sums on the way,
/// is no number of the language; then the cell is as before.
#[inline]
pub(crate) fn join_cell(cell: &mut Value, mark: CellMark) -> Result<(), JoinStop>
    ensures { Joins (takes (mark_view mark) (shown cell.old))
        (λ _. shown cell.new ≡ joined_value (mark_view mark) (shown cell.old)) result }
{
    match mark {
        CellMark::Blank | CellMark::Created => {}
        CellMark::Summed(sums) => {
            let Ok(number) = to_num(cell) else {
                return Err(JoinStop::Cell);
            };
            *cell = Value::Num(sum_from(number, &sums).ok_or(JoinStop::Cell)?);
        }
        CellMark::Put(value) => *cell = value,
    }
    Ok(())
}
