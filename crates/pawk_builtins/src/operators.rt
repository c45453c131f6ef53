//! Operators, on what their operands were converted to.

ghost use Rattle.std.specs.Prelude.{◌≡◌};
ghost use Rattle.pawk_value.specs.Value.{lent_value};
ghost use Rattle.pawk_store.specs.Builtins.{sign_of, side_of};
ghost use Rattle.pawk_store.specs.Builtins as spec;

use pawk_code::word::{Relation, Sign, Step};
use pawk_value::{Fault, ValueRef, compare_lent};
use std::cmp::Ordering;

/// The sign of the amount by which a step changes a place.
///
/// POSIX.1-2017, awk, "Expressions in awk".
pub fn step_sign(step: Step) -> Sign
    ensures { result ≡ sign_of step }
{
    match step {
        Step::IncrementBefore | Step::IncrementAfter => Sign::Plus,
        Step::DecrementBefore | Step::DecrementAfter => Sign::Minus,
    }
}

/// Of the old and the new value of a place the one that a step gives.
///
/// POSIX.1-2017, awk, "Expressions in awk".
pub fn step_side(step: Step, old: i64, new: i64) -> i64
    ensures { result ≡ side_of step (old, new) }
{
    match step {
        Step::IncrementBefore | Step::DecrementBefore => new,
        Step::IncrementAfter | Step::DecrementAfter => old,
    }
}

/// Whether a relation holds for two sides that compare so.
///
/// POSIX.1-2017, awk, "Expressions in awk".
#[inline(always)]
pub fn holds_for(relation: Relation, order: Ordering) -> bool
    ensures { result ≡ spec.holds_for relation order }
{
    match relation {
        Relation::Less => order.is_lt(),
        Relation::LessEqual => order.is_le(),
        Relation::Equal => order.is_eq(),
        Relation::NotEqual => order.is_ne(),
        Relation::Greater => order.is_gt(),
        Relation::GreaterEqual => order.is_ge(),
    }
}

/// Whether a relation holds for two values. The faults are those of their comparison. It takes no
/// memory.
///
/// POSIX.1-2017, awk, "Expressions in awk".
pub fn related(relation: Relation, x: ValueRef<'_>, y: ValueRef<'_>) -> Result<bool, Fault>
    ensures { result ≡ spec.related relation (lent_value x.entry) (lent_value y.entry) }
{
    Ok(holds_for(relation, compare_lent(x, y)?))
}

/// What a match says where one is wanted (`~`), or none (`!~`).
///
/// POSIX.1-2017, awk, "Regular Expressions".
pub fn same_truth(wanted: bool, found: bool) -> bool
    ensures { result ≡ spec.same_truth wanted found }
{
    wanted == found
}
