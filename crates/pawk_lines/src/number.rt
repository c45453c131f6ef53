//! Numbers that bytes may begin with.

ghost use Rattle.std.specs.Prelude.{◌↔◌, ◌≤◌, IsTrue};
ghost use Rattle.pawk_words.specs.Words.{size_limit};
ghost use Rattle.pawk_lines.specs.Reading.{IsWithin, BeginsDecimal, BeginsSize, BeginsNumber};

use pawk_words::{SIZE_LIMIT, decimal_front};

/// How far from 0 the numbers of a field may be.
#[derive(Clone, Copy)]
pub(crate) struct Range {
    /// The greatest size of a number below 0.
    pub(crate) below: u128,
    /// The greatest number.
    pub(crate) above: u128,
}

/// The numbers of 64 bits without a sign.
pub(crate) const COUNTS: Range = Range {
    below: 0,
    above: 18_446_744_073_709_551_615,
};

/// The numbers of 64 bits with a sign.
pub(crate) const VALUES: Range = Range {
    below: 9_223_372_036_854_775_808,
    above: 9_223_372_036_854_775_807,
};

/// The numbers of words.
pub(crate) const SUMS: Range = Range {
    below: SIZE_LIMIT,
    above: SIZE_LIMIT,
};

/// Whether the number is in the range.
pub(crate) fn is_within(number: i128, range: Range) -> bool
    ensures { IsTrue result ↔ IsWithin range.below range.above number }
{
    if number < 0 {
        number.unsigned_abs() <= range.below
    } else {
        number.unsigned_abs() <= range.above
    }
}

/// Whether the bytes are the first of a number in decimal that is at most this one.
fn begins_decimal(bytes: &[u8], greatest: u128) -> bool
    requires { greatest ≤ size_limit }
    ensures { IsTrue result ↔ BeginsDecimal bytes.now greatest }
{
    match decimal_front(bytes) {
        Some(digits) => digits.count == bytes.len() && digits.size <= greatest,
        None => false,
    }
}

/// Whether the bytes are the first of a number in decimal that is above 0 and at most this one.
fn begins_size(bytes: &[u8], greatest: u128) -> bool
    requires { greatest ≤ size_limit }
    ensures { IsTrue result ↔ BeginsSize bytes.now greatest }
{
    match bytes {
        [] => greatest > 0,
        [first, ..] => *first != b'0' && begins_decimal(bytes, greatest),
    }
}

/// Whether the bytes are the first of a number of the range.
pub(crate) fn begins_number(bytes: &[u8], range: Range) -> bool
    requires below { range.below ≤ size_limit }
    requires above { range.above ≤ size_limit }
    ensures { IsTrue result ↔ BeginsNumber bytes.now range.below range.above }
{
    match bytes {
        [] => true,
        [first, digits @ ..] => {
            if *first == b'-' {
                begins_size(digits, range.below)
            } else {
                begins_decimal(bytes, range.above)
            }
        }
    }
}
