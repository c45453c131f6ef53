//! The comparison of values.

ghost use Rattle.std.specs.Prelude.{◌≡◌};
ghost use Rattle.pawk_value.specs.Value.{shown, lent_value};
ghost use Rattle.pawk_value.specs.Conversion.{text_of};
ghost use Rattle.pawk_value.specs.Comparison.{comparison, text_order, TextOrderLaw};

use crate::conversion::{evident_number, numeric_number, text_in};
use crate::faults::Fault;
use crate::values::{Value, ValueRef, lend};
use itoa::Buffer;
use std::cmp::Ordering;

/// How two texts compare, byte by byte.
pub fn compare_texts(left: &[u8], right: &[u8]) -> Ordering
    ensures { result ≡ text_order left.now right.now }
{
    left.cmp(&right)
}

/// How the texts of two lent values compare.
fn compare_as_texts(left: ValueRef<'_>, right: ValueRef<'_>) -> Ordering
    ensures { result
        ≡ text_order (text_of (lent_value left.entry)) (text_of (lent_value right.entry)) }
{
    let mut left_buffer = Buffer::new();
    let mut right_buffer = Buffer::new();
    compare_texts(
        text_in(left, &mut left_buffer),
        text_in(right, &mut right_buffer),
    )
}

/// How two values compare: as numbers where both sides are numeric, else their texts byte by byte. A
/// side is numeric unless it is a text, or a candidate that does not look like a numeral. The faults
/// are those of the sides' numbers, the left side's first. It takes no memory.
pub fn compare(left: &Value, right: &Value) -> Result<Ordering, Fault>
    ensures { result ≡ comparison (shown left.now) (shown right.now) }
{
    compare_lent(lend(left), lend(right))
}

/// How two lent values compare, as `compare`. A candidate is read as a numeral at most once, and not
/// beside a text.
#[inline(never)]
fn compare_apart(left: ValueRef<'_>, right: ValueRef<'_>) -> Result<Ordering, Fault>
    ensures { result ≡ comparison (lent_value left.entry) (lent_value right.entry) }
{
    if let ValueRef::Text(_) = right {
        return Ok(compare_as_texts(left, right));
    }
    match numeric_number(left) {
        None => Ok(compare_as_texts(left, right)),
        Some(left_number) => match numeric_number(right) {
            None => Ok(compare_as_texts(left, right)),
            Some(right_number) => Ok(left_number?.cmp(&right_number?)),
        },
    }
}

/// How two lent values compare, as `compare`. Short numerals are compared at once.
#[inline(always)]
pub fn compare_lent(left: ValueRef<'_>, right: ValueRef<'_>) -> Result<Ordering, Fault>
    ensures { result ≡ comparison (lent_value left.entry) (lent_value right.entry) }
{
    if let Some(right_number) = evident_number(right) {
        if let Some(left_number) = evident_number(left) {
            return Ok(left_number.cmp(&right_number));
        }
    }
    compare_apart(left, right)
}

/// The order of texts: one precedes another as its proper beginning, or by a lesser byte where the
/// two first differ.
pub fn text_order_law(left: &[u8], right: &[u8])
    ensures { TextOrderLaw left.now right.now }
{
    let _ = left;
    let _ = right;
}
