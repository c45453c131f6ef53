//! The number, the truth and the text of a value.

ghost use Rattle.std.specs.Prelude.{◌≡◌, IfSome, Ok, Some};
ghost use Rattle.pawk_value.specs.Value.{shown, lent_value};
ghost use Rattle.pawk_value.specs.Conversion.{num_of, text_of, truth_of, truth_of_candidate};
ghost use Rattle.pawk_value.specs.Conversion as spec;

use crate::faults::Fault;
use crate::look::candidate_number;
use crate::numeral::{number_of, short_number};
use crate::values::{Value, ValueRef, lend};
use itoa::Buffer;

/// The number of a value: 0 of an uninitialised one, else that of the numeral in front of its text.
/// The faults are those of `number_of`. It takes no memory.
pub fn to_num(value: &Value) -> Result<i64, Fault>
    ensures { result ≡ num_of (shown value.now) }
{
    to_num_lent(lend(value))
}

/// The number of a lent value, as `to_num`.
#[inline(always)]
pub fn to_num_lent(value: ValueRef<'_>) -> Result<i64, Fault>
    ensures { result ≡ num_of (lent_value value.entry) }
{
    match value {
        ValueRef::Uninit => Ok(0),
        ValueRef::Num(number) => Ok(number),
        ValueRef::Text(text) | ValueRef::Maybe(text) => match short_number(text) {
            Some(number) => Ok(number),
            None => number_of(text),
        },
    }
}

/// The number of a lent value that is a number, or a candidate that is a short numeral.
#[inline(always)]
pub(crate) fn evident_number(value: ValueRef<'_>) -> Option<i64>
    ensures { IfSome result (λ number.
        spec.numeric_number (lent_value value.entry) ≡ Some (Ok number)) }
{
    match value {
        ValueRef::Num(number) => Some(number),
        ValueRef::Maybe(text) => short_number(text),
        ValueRef::Uninit | ValueRef::Text(_) => None,
    }
}

/// The number of a lent value, if it is numeric. A candidate is read once.
pub(crate) fn numeric_number(value: ValueRef<'_>) -> Option<Result<i64, Fault>>
    ensures { result ≡ spec.numeric_number (lent_value value.entry) }
{
    match value {
        ValueRef::Uninit => Some(Ok(0)),
        ValueRef::Num(number) => Some(Ok(number)),
        ValueRef::Text(_) => None,
        ValueRef::Maybe(text) => candidate_number(text),
    }
}

/// Whether a text from outside holds: as a number where it is numeric, and then with the faults of
/// `number_of`, else where it is not empty. It takes no memory.
pub fn candidate_truth(text: &[u8]) -> Result<bool, Fault>
    ensures { result ≡ truth_of_candidate text.now }
{
    match candidate_number(text) {
        Some(number) => Ok(number? != 0),
        None => Ok(!text.is_empty()),
    }
}

/// Whether a value holds: a number or a numeric candidate where it is not 0, a text or another
/// candidate where it is not empty. The faults are those of a numeric candidate's number. It takes no
/// memory.
pub fn truth(value: &Value) -> Result<bool, Fault>
    ensures { result ≡ truth_of (shown value.now) }
{
    truth_lent(lend(value))
}

/// Whether a lent value holds, as `truth`.
pub fn truth_lent(value: ValueRef<'_>) -> Result<bool, Fault>
    ensures { result ≡ truth_of (lent_value value.entry) }
{
    match value {
        ValueRef::Uninit => Ok(false),
        ValueRef::Num(number) => Ok(number != 0),
        ValueRef::Text(text) => Ok(!text.is_empty()),
        ValueRef::Maybe(text) => candidate_truth(text),
    }
}

/// The text of a lent value: none of an uninitialised one, the decimal text of a number, which is
/// written into the buffer. It takes no memory.
#[inline(always)]
pub fn text_in<'a>(value: ValueRef<'a>, buffer: &'a mut Buffer) -> &'a [u8]
    ensures { result.now ≡ text_of (lent_value value.entry) }
{
    match value {
        ValueRef::Uninit => &[],
        ValueRef::Num(number) => buffer.format(number).as_bytes(),
        ValueRef::Text(text) | ValueRef::Maybe(text) => text,
    }
}
