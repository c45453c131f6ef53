//! The digits in front of bytes.

ghost use Rattle.std.specs.Prelude.{◌≡◌, ◌<◌, ◌≤◌, ◌*◌, ◌+◌, ◌-◌, length, take, min, MatchOption};
ghost use Rattle.std.specs.Char.{is_ascii_digit};
ghost use Rattle.std.specs.List.{prefix_len};
ghost use Rattle.pawk_words.specs.Spelling.{digits_value};
ghost use Rattle.pawk_words.specs.Reading.{IsDecimalFront, IsNoDecimalFront};

use crate::limits::SIZE_LIMIT;

/// The size that stands for all sizes above the limit.
const PAST_LIMIT: u128 = SIZE_LIMIT + 1;

/// The greatest number with which another digit is read in 64 bits.
const GREATEST_SMALL: u64 = 1_000_000_000_000_000_000;

/// The digits in front of bytes.
#[derive(Clone, Copy)]
pub struct Digits {
    /// How many they are.
    pub count: usize,
    /// The number that they write, or one more than the limit where it is above that.
    pub size: u128,
}

/// The number that a digit makes of the one that the digits before it write.
fn with_digit(size: u128, digit: u8) -> u128
    requires size { size ≤ PAST_LIMIT }
    requires digit { digit < 58 }
    ensures { result ≡ min (10 * size + (digit - 48)) PAST_LIMIT }
{
    (10 * size + u128::from(digit.saturating_sub(b'0'))).min(PAST_LIMIT)
}

/// The decimal digits in front of the bytes, of which there may be many, and the number that they write.
fn many_digits(bytes: &[u8]) -> Digits
    ensures count { result.count ≡ prefix_len is_ascii_digit bytes.now }
    ensures within { result.count ≤ length bytes.now }
    ensures size { result.size ≡ min (digits_value (take result.count bytes.now)) PAST_LIMIT }
{
    let mut size: u128 = 0;
    for (i, byte) in bytes.iter().enumerate() {
        if !byte.is_ascii_digit() {
            return Digits { count: i, size };
        }
        size = with_digit(size, *byte);
    }
    let count = bytes.len();
    Digits { count, size }
}

/// The decimal digits in front of the bytes and the number that they write, in one pass as long as 64 bits have room for
/// the number.
fn leading_digits(bytes: &[u8]) -> Digits
    ensures count { result.count ≡ prefix_len is_ascii_digit bytes.now }
    ensures within { result.count ≤ length bytes.now }
    ensures size { result.size ≡ min (digits_value (take result.count bytes.now)) PAST_LIMIT }
{
    let mut size: u64 = 0;
    for (i, byte) in bytes.iter().enumerate() {
        if !byte.is_ascii_digit() {
            let size = u128::from(size);
            return Digits { count: i, size };
        }
        if size > GREATEST_SMALL {
            return many_digits(bytes);
        }
        size = 10 * size + u64::from(byte.saturating_sub(b'0'));
    }
    let (count, size) = (bytes.len(), u128::from(size));
    Digits { count, size }
}

/// The digits in front of the bytes, if these may begin with a number in decimal: with digits, none of them a zero in
/// front of others, whose number is within the limit. Bytes that end before the first digit have none.
pub fn decimal_front(bytes: &[u8]) -> Option<Digits>
    ensures { MatchOption result (IsNoDecimalFront bytes.now)
        (λ digits. IsDecimalFront bytes.now digits.count digits.size) }
{
    let digits = leading_digits(bytes);
    if digits.count == 0 && !bytes.is_empty() {
        return None;
    }
    if digits.count > 1 && bytes[0] == b'0' {
        return None;
    }
    if digits.size > SIZE_LIMIT {
        return None;
    }
    Some(digits)
}
