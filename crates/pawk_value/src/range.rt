//! The range of numbers.

ghost use Rattle.std.specs.Prelude.{◌≡◌};
ghost use Rattle.pawk_value.specs.Range.{in_range_or_fault};

use crate::faults::Fault;

/// The number itself where it is one of 64 bits with a sign, else the fault `overflow`.
#[inline]
pub fn whole_number(wide: i128) -> Result<i64, Fault>
    ensures { result ≡ in_range_or_fault wide }
{
    match i64::try_from(wide) {
        Ok(number) => Ok(number),
        Err(_) => Err(Fault::Overflow),
    }
}
