//! Results of operations.

ghost use Rattle.std.specs.Prelude.{◌≡◌};
ghost use Rattle.pawk_value.specs.Arithmetic as spec;

use pawk_value::{Fault, Op, arith};

/// The result of an operation on numbers, as [`arith`] gives it. A sum, a difference and the remainder by a positive number
/// are found without a call.
///
/// POSIX.1-2017, awk, "Expressions in awk".
#[inline(always)]
pub fn result_of(op: Op, left: i64, right: i64) -> Result<i64, Fault>
    ensures { result ≡ spec.arith op left right }
{
    match op {
        Op::Add => left.checked_add(right).ok_or(Fault::Overflow),
        Op::Subtract => left.checked_sub(right).ok_or(Fault::Overflow),
        Op::Remainder if right > 0 => Ok(left % right),
        _ => arith(op, left, right),
    }
}
