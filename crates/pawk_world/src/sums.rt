//! Sums of numbers whose conversion may have faulted.

ghost use Rattle.std.specs.Prelude.{◌≡◌};
ghost use Rattle.pawk_world.specs.Sums.{arith_by};
ghost use Rattle.pawk_world.specs.Sums as spec;

use pawk_code::word::Sign;
use pawk_value::{Fault, Op};

/// The operation of a sign, addition or subtraction.
pub fn op_of(sign: Sign) -> Op
    ensures { result ≡ spec.op_of sign }
{
    match sign {
        Sign::Plus => Op::Add,
        Sign::Minus => Op::Subtract,
    }
}

/// The sum or difference of two numbers. The fault of the left one's conversion comes first, then
/// that of the right one's, then `overflow`.
pub fn sum(sign: Sign, left: Result<i64, Fault>, right: Result<i64, Fault>) -> Result<i64, Fault>
    ensures { result ≡ arith_by (spec.op_of sign) left right }
{
    let left = left?;
    let right = right?;
    let sum = match sign {
        Sign::Plus => left.checked_add(right),
        Sign::Minus => left.checked_sub(right),
    };
    sum.ok_or(Fault::Overflow)
}
