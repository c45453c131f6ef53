//! Marks of lines, for marks of tables and the other way round.

ghost use Rattle.std.specs.Prelude.{◌≡◌, ◌↔◌, ◌&&◌, true, false, IsTrue, IfOk, OnErr, MatchOption, MatchResult};
ghost use Rattle.std.specs.Ordering.{int_eq};
ghost use Rattle.pawk_words.specs.Words.{IsWord, number};
ghost use Rattle.pawk_frozen.specs.Marks.{blank, summed};
ghost use Rattle.pawk_frozen.specs.MarkViews.{mark_view, sums_view};
ghost use Rattle.pawk_lines.specs.Lines.{shown_mark, IsMark};
ghost use Rattle.pawk_parts.specs.Parts.{is_only, mark_of};
ghost use Rattle.pawk_parts.specs.Refusals.{OnDamage};
ghost use Rattle.pawk_parts.specs.Writing.{MayBeLeft, MayBeSaid};

use crate::refusal::TableRefusal;
use pawk_frozen::{CellMark, Sums};
use pawk_lines::Mark;
use pawk_value::{copy_lent, lend};
use pawk_words::SIZE_LIMIT;
use std::alloc::Global;

/// Whether a line says this sum: one of a size of at most 2^64.
fn is_said(sum: i128) -> bool
    ensures { IsTrue result ↔ IsWord (number sum) }
{
    sum.unsigned_abs() <= SIZE_LIMIT
}

/// Whether a sum is each sum on the way, too.
fn is_single(total: i128, least: i128, greatest: i128) -> bool
    ensures { result ≡ int_eq least total && int_eq greatest total }
{
    least == total && greatest == total
}

/// The mark of a line that says the sums.
///
/// `Damage` where one of them is of a size above 2^64, which no line says.
fn lend_sums(sums: &Sums) -> Result<Mark<'_>, TableRefusal>
    ensures lent { IfOk result (λ lent. IsMark (shown_mark lent)
        × (is_only (shown_mark lent) ≡ true) × (mark_of (shown_mark lent) ≡ sums_view sums.now)) }
    ensures damage { OnErr result (¬ MayBeSaid (sums_view sums.now)) }
{
    if is_said(sums.total) && is_said(sums.least) && is_said(sums.greatest) {
        if is_single(sums.total, sums.least, sums.greatest) {
            return Ok(Mark::Added(sums.total));
        }
        return Ok(Mark::Sum {
            total: sums.total,
            least: sums.least,
            greatest: sums.greatest,
        });
    }
    Err(TableRefusal::Damage)
}

/// The mark of a line that says the mark of a table, its text lent; none for the blank mark.
///
/// `Damage` where a sum is of a size above 2^64, which no line says.
pub(crate) fn lend_mark(mark: &CellMark) -> Result<Option<Mark<'_>>, TableRefusal>
    ensures lent { IfOk result (λ answer. MatchOption answer (mark_view mark.now ≡ blank) (λ lent.
        IsMark (shown_mark lent) × (is_only (shown_mark lent) ≡ true)
        × (mark_of (shown_mark lent) ≡ mark_view mark.now))) }
    ensures damage { OnErr result (¬ MayBeLeft (mark_view mark.now)) }
{
    match mark {
        CellMark::Blank => Ok(None),
        CellMark::Summed(sums) => Ok(Some(lend_sums(sums)?)),
        CellMark::Put(value) => Ok(Some(Mark::Put(lend(value)))),
        CellMark::Created => Ok(Some(Mark::Created)),
    }
}

/// Sums of these numbers.
fn sums_of(total: i128, least: i128, greatest: i128) -> Sums
    ensures { sums_view result ≡ summed total least greatest }
{
    Sums {
        total,
        least,
        greatest,
    }
}

/// The mark of a table that a mark of a line says, with a text of its own.
///
/// `Damage` where a shorter mark says the same, `Memory` where memory was refused.
pub(crate) fn copy_mark(alloc: Global, mark: Mark<'_>) -> Result<CellMark, TableRefusal>
    ensures { MatchResult result (λ copy. (is_only (shown_mark mark.entry) ≡ true)
        × (mark_view copy ≡ mark_of (shown_mark mark.entry)))
        (λ refusal. OnDamage refusal (is_only (shown_mark mark.entry) ≡ false)) }
{
    match mark {
        Mark::Added(total) => Ok(CellMark::Summed(sums_of(total, total, total))),
        Mark::Sum {
            total,
            least,
            greatest,
        } => {
            if is_single(total, least, greatest) {
                return Err(TableRefusal::Damage);
            }
            Ok(CellMark::Summed(sums_of(total, least, greatest)))
        }
        Mark::Put(value) => Ok(CellMark::Put(copy_lent(alloc, value)?)),
        Mark::Created => Ok(CellMark::Created),
    }
}
