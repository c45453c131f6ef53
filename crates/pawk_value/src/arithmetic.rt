//! Arithmetic on whole numbers.

ghost use Rattle.std.specs.Prelude.{◌≡◌, ◌≤◌};
ghost use Rattle.std.specs.Int.{int_pow};
ghost use Rattle.pawk_value.specs.Range.{in_range_or_fault};
ghost use Rattle.pawk_value.specs.Arithmetic.{quotient, in_range_result};
ghost use Rattle.pawk_value.specs.ArithmeticLaw.{ArithmeticLaw};
ghost use Rattle.pawk_value.specs.Arithmetic as spec;

use crate::faults::Fault;

/// An operation of two numbers.
#[derive(Clone, Copy)]
pub enum Op {
    /// The sum.
    Add,
    /// The difference.
    Subtract,
    /// The product.
    Multiply,
    /// The quotient, where there is no remainder.
    Divide,
    /// The remainder, with the sign of the left operand.
    Remainder,
    /// The left operand to the power of the right one.
    Power,
}

/// The result of an operation on numbers without bound, where it is in range. The faults are `zero`
/// where the divisor is 0, `exponent` where the exponent is negative, `inexact` where a division
/// leaves a remainder, and `overflow` where the result is out of range. It takes no memory.
pub fn arith(op: Op, left: i64, right: i64) -> Result<i64, Fault>
    ensures { result ≡ spec.arith op left right }
{
    match op {
        Op::Add => left.checked_add(right).ok_or(Fault::Overflow),
        Op::Subtract => left.checked_sub(right).ok_or(Fault::Overflow),
        Op::Multiply => left.checked_mul(right).ok_or(Fault::Overflow),
        Op::Divide => divide(left, right),
        Op::Remainder => remainder(left, right),
        Op::Power => power(left, right),
    }
}

/// The quotient, where there is no remainder. The least number has none by -1.
fn divide(left: i64, right: i64) -> Result<i64, Fault>
    ensures { result ≡ in_range_result (quotient left right) }
{
    if right == 0 {
        return Err(Fault::Zero);
    }
    if right == -1 {
        return left.checked_neg().ok_or(Fault::Overflow);
    }
    if left % right == 0 {
        Ok(left / right)
    } else {
        Err(Fault::Inexact)
    }
}

/// The remainder, which is 0 by -1.
fn remainder(left: i64, right: i64) -> Result<i64, Fault>
    ensures { result ≡ in_range_result (spec.remainder left right) }
{
    if right == 0 {
        Err(Fault::Zero)
    } else if right == -1 {
        Ok(0)
    } else {
        Ok(left % right)
    }
}

/// The power, by squaring where the exponent is small.
fn power(base: i64, exponent: i64) -> Result<i64, Fault>
    ensures { result ≡ in_range_result (spec.power base exponent) }
{
    match u64::try_from(exponent) {
        Err(_) => Err(Fault::Exponent),
        Ok(count) => if count < 64 {
            base.checked_pow(count as u32).ok_or(Fault::Overflow)
        } else {
            great_power(base, count)
        },
    }
}

/// The power with a great exponent, which only -1, 0 and 1 have in range.
fn great_power(base: i64, exponent: u64) -> Result<i64, Fault>
    requires { 64 ≤ exponent }
    ensures { result ≡ in_range_or_fault (int_pow base exponent) }
{
    let size = base.unsigned_abs();
    if size > 1 {
        return Err(Fault::Overflow);
    }
    if base < 0 && exponent % 2 == 1 {
        Ok(-1)
    } else {
        Ok(size as i64)
    }
}

/// A quotient is the number that times the divisor is the dividend, a remainder is less than the
/// divisor in size and has the dividend's sign, and a power is a product.
pub fn arithmetic_law(left: i64, right: i64)
    ensures { ArithmeticLaw left right }
{
    let _ = left;
    let _ = right;
}
