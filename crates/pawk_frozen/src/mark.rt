//! What a chunk notes of one cell.

ghost use Rattle.std.specs.Prelude.{◌≡◌, ◌≢◌, ◌+ℤ◌, true, false};
ghost use Rattle.std.specs.Prelude.{IfNone, IfSome, OnErr, OnOk, OnSome};
ghost use Rattle.pawk_value.specs.Value.{lent_value};
ghost use Rattle.pawk_world.specs.Answers.{Answers};
ghost use Rattle.pawk_frozen.specs.Marks.{blank, last_put, with_amount};
ghost use Rattle.pawk_frozen.specs.Frozens.{signed_amount};
ghost use Rattle.pawk_frozen.specs.Frozens as spec;
ghost use Rattle.pawk_frozen.specs.MarkViews.{kept, mark_view, sums_view};

use pawk_code::word::Sign;
use pawk_value::{Fault, Value, ValueRef, assign, copy_lent};
use pawk_world::Halt;
use std::alloc::{AllocError, Global};

/// A sum of amounts, and the least and the greatest of the sums of the first one, of the first two,
/// and so on to all.
#[derive(Clone, Copy)]
pub struct Sums {
    pub total: i128,
    pub least: i128,
    pub greatest: i128,
}

/// What a chunk notes of a cell.
#[derive(Drop)]
pub enum CellMark {
    /// Nothing.
    Blank,
    /// Amounts were added.
    Summed(Sums),
    /// Values were set, this one last.
    Put(Value),
    /// An element was created by a reference.
    Created,
}

/// The greatest size of a sum of the amounts of a chunk.
const GREATEST_SUM: i128 = 18_446_744_073_709_551_616;

/// Whether a sum of the amounts of a chunk is kept.
#[inline]
fn is_sum(total: i128) -> bool
    ensures { result ≡ spec.is_sum total }
{
    -GREATEST_SUM <= total && total <= GREATEST_SUM
}

/// The amount that is added by a sign.
#[inline]
fn signed(sign: Sign, amount: i64) -> i128
    ensures amount { result ≡ signed_amount sign amount }
    ensures small { spec.is_sum result ≡ true }
{
    match sign {
        Sign::Plus => i128::from(amount),
        Sign::Minus => -i128::from(amount),
    }
}

/// The sums of one amount.
#[inline]
fn first_sums(amount: i128) -> Sums
    ensures sums { sums_view result ≡ with_amount amount blank }
    ensures total { result.total ≡ amount }
{
    Sums {
        total: amount,
        least: amount,
        greatest: amount,
    }
}

/// The sums with one more amount, where the total is kept.
#[inline]
fn next_sums(sums: &Sums, amount: i128) -> Option<Sums>
    ensures sums { IfSome result
        (λ next. sums_view next ≡ with_amount amount (sums_view sums.now)) }
    ensures small { OnSome result (spec.is_sum (sums.now.total +ℤ amount) ≡ true) }
    ensures great { IfNone result (spec.is_sum (sums.now.total +ℤ amount) ≡ false) }
{
    let total = sums.total.checked_add(amount)?;
    if !is_sum(total) {
        return None;
    }
    Some(Sums {
        total,
        least: sums.least.min(total),
        greatest: sums.greatest.max(total),
    })
}

impl CellMark {
    /// Notes an amount that is added, or taken away.
    ///
    /// Fault `overflow` where the total passes 2^64 in size; then amounts were added before, and
    /// the mark is as it was.
    #[inline]
    pub(crate) fn add(&mut self, sign: Sign, amount: i64) -> Result<(), Halt>
        ensures answer { let mark = with_amount (signed_amount sign amount) (mark_view self.old) in
            Answers (λ _. tt) (kept mark mark (mark_view self.old)) result (mark_view self.new) }
        ensures before { OnErr result (mark_view self.old ≢ blank) }
    {
        let amount = signed(sign, amount);
        match self {
            CellMark::Summed(sums) => {
                let Some(next) = next_sums(sums, amount) else {
                    return Err(Halt::Fault(Fault::Overflow));
                };
                *sums = next;
                Ok(())
            }
            CellMark::Blank | CellMark::Put(_) | CellMark::Created => {
                *self = CellMark::Summed(first_sums(amount));
                Ok(())
            }
        }
    }

    /// Notes this in place of what was noted before.
    pub(crate) fn set(&mut self, mark: CellMark)
        ensures { mark_view self.new ≡ mark_view mark }
    {
        *self = mark;
    }

    /// Notes that a value is set, in the space that the one before has for its text.
    pub(crate) fn put(&mut self, alloc: Global, value: ValueRef<'_>) -> Result<(), AllocError>
        ensures { OnOk result (mark_view self.new ≡ last_put (lent_value value.entry)) }
    {
        match self {
            CellMark::Put(before) => assign(alloc, before, value),
            CellMark::Blank | CellMark::Summed(_) | CellMark::Created => {
                *self = CellMark::Put(copy_lent(alloc, value)?);
                Ok(())
            }
        }
    }
}
