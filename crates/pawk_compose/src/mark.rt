//! Two marks of a cell, one after the other, as one.

ghost use Rattle.std.specs.Prelude.{◌≡◌, ◌+ℤ◌, true, false, IfNone, IfSome};
ghost use Rattle.std.specs.Int.{int_max, int_min};
ghost use Rattle.pawk_frozen.specs.Frozens as frozens;
ghost use Rattle.pawk_frozen.specs.MarkViews.{mark_view, sums_view};
ghost use Rattle.pawk_shards.specs.Joined.{composed};
ghost use Rattle.pawk_compose.specs.Compositions as spec;

use pawk_frozen::{CellMark, Sums};

/// The greatest size of a sum that a table keeps.
const GREATEST_SUM: i128 = 18_446_744_073_709_551_616;

/// Whether a table keeps a sum.
#[inline]
fn is_sum(total: i128) -> bool
    ensures { result ≡ frozens.is_sum total }
{
    -GREATEST_SUM <= total && total <= GREATEST_SUM
}

/// A sum after a sum, where a table keeps it.
fn total_after(first: i128, second: i128) -> Option<i128>
    ensures some { IfSome result (λ sum.
        (sum ≡ first +ℤ second) × (frozens.is_sum (first +ℤ second) ≡ true)) }
    ensures none { IfNone result (frozens.is_sum (first +ℤ second) ≡ false) }
{
    let sum = first.checked_add(second)?;
    if is_sum(sum) { Some(sum) } else { None }
}

/// The least of a sum and of another after a sum, where a table keeps it.
///
/// A sum past the numbers of its type is left at the last of them, which no table keeps either.
fn least_after(least: i128, first: i128, second: i128) -> Option<i128>
    ensures some { IfSome result (λ sum. (sum ≡ int_min least (first +ℤ second))
        × (frozens.is_sum (int_min least (first +ℤ second)) ≡ true)) }
    ensures none { IfNone result (frozens.is_sum (int_min least (first +ℤ second)) ≡ false) }
{
    let sum = least.min(first.saturating_add(second));
    if is_sum(sum) { Some(sum) } else { None }
}

/// The greatest of a sum and of another after a sum, where a table keeps it.
///
/// A sum past the numbers of its type is left at the last of them, which no table keeps either.
fn greatest_after(greatest: i128, first: i128, second: i128) -> Option<i128>
    ensures some { IfSome result (λ sum. (sum ≡ int_max greatest (first +ℤ second))
        × (frozens.is_sum (int_max greatest (first +ℤ second)) ≡ true)) }
    ensures none { IfNone result
        (frozens.is_sum (int_max greatest (first +ℤ second)) ≡ false) }
{
    let sum = greatest.max(first.saturating_add(second));
    if is_sum(sum) { Some(sum) } else { None }
}

/// The sums of two runs of amounts, one after the other, where a table keeps them.
fn composed_sums(first: &Sums, second: &Sums) -> Option<Sums>
    ensures some { IfSome result (λ sums.
        (composed (sums_view first.now) (sums_view second.now) ≡ Some (sums_view sums))
        × (spec.may_follow (sums_view first.now) (sums_view second.now) ≡ true)) }
    ensures none { IfNone result
        (spec.may_follow (sums_view first.now) (sums_view second.now) ≡ false) }
{
    Some(Sums {
        total: total_after(first.total, second.total)?,
        least: least_after(first.least, first.total, second.least)?,
        greatest: greatest_after(first.greatest, first.total, second.greatest)?,
    })
}

/// Whether a second mark of a cell may follow a first.
pub(crate) fn may_follow(first: &CellMark, second: &CellMark) -> bool
    ensures { result ≡ spec.may_follow (mark_view first.now) (mark_view second.now) }
{
    match first {
        CellMark::Blank => true,
        CellMark::Summed(sums) => match second {
            CellMark::Blank => true,
            CellMark::Summed(more) => composed_sums(sums, more).is_some(),
            CellMark::Put(_) | CellMark::Created => false,
        },
        CellMark::Put(_) => match second {
            CellMark::Blank | CellMark::Put(_) => true,
            CellMark::Summed(_) | CellMark::Created => false,
        },
        CellMark::Created => match second {
            CellMark::Blank | CellMark::Created => true,
            CellMark::Summed(_) | CellMark::Put(_) => false,
        },
    }
}

/// The mark of a cell of which sums were noted after a first mark.
#[inline]
fn add_sums(first: &mut CellMark, second: Sums)
    requires { spec.may_follow (mark_view first.old) (sums_view second) ≡ true }
    ensures { composed (mark_view first.old) (sums_view second) ≡ Some (mark_view first.new) }
{
    match first {
        CellMark::Summed(sums) => {
            if let Some(more) = composed_sums(sums, &second) {
                *sums = more;
            }
        }
        CellMark::Blank | CellMark::Put(_) | CellMark::Created => {
            *first = CellMark::Summed(second);
        }
    }
}

/// Notes a second mark of a cell after the first.
pub(crate) fn append(first: &mut CellMark, second: CellMark)
    requires { spec.may_follow (mark_view first.old) (mark_view second) ≡ true }
    ensures { composed (mark_view first.old) (mark_view second) ≡ Some (mark_view first.new) }
{
    match second {
        CellMark::Blank => {}
        CellMark::Summed(sums) => add_sums(first, sums),
        CellMark::Put(value) => *first = CellMark::Put(value),
        CellMark::Created => *first = CellMark::Created,
    }
}
