//! The number that a text shows.

ghost use Rattle.std.specs.Prelude.{◌≡◌, ℕ, pos, true, ◌<◌, ◌≤◌, length, IfSome, OnSome, Ok, ◌*◌, ◌+◌, ◌-◌, ◌^◌, drop, take, min};
ghost use Rattle.std.specs.List.{prefix_len};
ghost use Rattle.pawk_value.specs.Bytes.{is_blank, is_digit, is_minus};
ghost use Rattle.pawk_value.specs.Range.{in_range_or_fault};
ghost use Rattle.pawk_value.specs.Numeral.{begins, without_sign, without_point, has_exponent, has_fraction, digits_value, signed, NumeralLaw};
ghost use Rattle.pawk_value.specs.Numeral as spec;
ghost use Rattle.pawk_value.specs.Look.{looks};

use crate::bytes::{is_blank_byte, is_digit_byte};
use crate::faults::Fault;
use crate::limits::NUMBER_LIMIT;

/// The value that stands for all sizes above the size of the least number.
const PAST_LIMIT: u64 = NUMBER_LIMIT + 1;

/// The digits in front of a text.
#[derive(Clone, Copy)]
pub struct Digits {
    /// How many they are.
    pub count: usize,
    /// The number that they write, if it is at most the size of the least number, else one more than
    /// that size.
    pub value: u64,
}

/// How many blanks are in front of a text.
#[inline]
pub(crate) fn count_blanks(text: &[u8]) -> usize
    ensures value { result ≡ prefix_len is_blank text.now }
    ensures bound { result ≤ length text.now }
{
    text.iter().take_while(|b| is_blank_byte(**b)).count()
}

/// The number that a digit makes of the one that the digits before it write.
#[inline]
fn with_digit(value: u64, digit: u8) -> u64
    requires value { value ≤ PAST_LIMIT }
    requires digit { digit < 58 }
    ensures { result ≡ min (10 * value + (digit - 48)) PAST_LIMIT }
{
    if value <= NUMBER_LIMIT / 10 {
        10 * value + u64::from(digit.saturating_sub(b'0'))
    } else {
        PAST_LIMIT
    }
}

/// The decimal digits in front of a text and the number that they write, in one pass.
#[inline]
pub fn leading_digits(text: &[u8]) -> Digits
    ensures count { result.count ≡ prefix_len is_digit text.now }
    ensures bound { result.count ≤ length text.now }
    ensures value { result.value
        ≡ min (digits_value (take (prefix_len is_digit text.now) text.now)) PAST_LIMIT }
{
    let mut value: u64 = 0;
    for (i, b) in text.iter().enumerate() {
        if !is_digit_byte(*b) {
            return Digits { count: i, value };
        }
        value = with_digit(value, *b);
    }
    let count = text.len();
    Digits { count, value }
}

/// The bytes after a sign in front.
pub(crate) fn past_sign(text: &[u8]) -> &[u8]
    ensures { result.now ≡ without_sign text.now }
{
    match text {
        [b'+' | b'-', rest @ ..] => rest,
        _ => text,
    }
}

/// The bytes after a point in front.
fn past_point(text: &[u8]) -> &[u8]
    ensures { result.now ≡ without_point text.now }
{
    match text {
        [b'.', rest @ ..] => rest,
        _ => text,
    }
}

/// Whether a point and a digit are in front.
pub(crate) fn shows_fraction(text: &[u8]) -> bool
    ensures { result ≡ has_fraction text.now }
{
    match text {
        [b'.', b, ..] => is_digit_byte(*b),
        _ => false,
    }
}

/// Whether an exponent is in front.
pub(crate) fn shows_exponent(text: &[u8]) -> bool
    ensures { result ≡ has_exponent text.now }
{
    match text {
        [b'e' | b'E', rest @ ..] => match past_sign(rest) {
            [b, ..] => is_digit_byte(*b),
            [] => false,
        },
        _ => false,
    }
}

/// The number of a sign and a size.
fn signed_number(negative: bool, size: u64) -> Result<i64, Fault>
    requires { size ≤ PAST_LIMIT }
    ensures { result ≡ in_range_or_fault (signed negative size) }
{
    match i64::try_from(size) {
        Ok(number) => Ok(if negative { -number } else { number }),
        Err(_) => if negative && size == NUMBER_LIMIT {
            Ok(i64::MIN)
        } else {
            Err(Fault::Overflow)
        },
    }
}

/// The number of a numeral that begins with digits and goes on with `rest`.
pub(crate) fn number_of_digits(negative: bool, digits: Digits, rest: &[u8]) -> Result<i64, Fault>
    requires { digits.value ≤ PAST_LIMIT }
    ensures { result ≡ spec.number_of_digits negative digits.count digits.value rest.now }
{
    if shows_fraction(rest) {
        return Err(Fault::Numeral);
    }
    if digits.count == 0 {
        return Ok(0);
    }
    if shows_exponent(past_point(rest)) {
        return Err(Fault::Numeral);
    }
    signed_number(negative, digits.value)
}

/// The number of the numeral in front, whose sign was read.
fn unsigned_number(negative: bool, text: &[u8]) -> Result<i64, Fault>
    ensures { result ≡ spec.unsigned_number negative text.now }
{
    let digits = leading_digits(text);
    let (_, rest) = text.split_at(digits.count);
    number_of_digits(negative, digits, rest)
}

/// Whether a minus is in front.
pub(crate) fn is_negative(text: &[u8]) -> bool
    ensures { result ≡ begins is_minus text.now }
{
    match text {
        [b'-', ..] => true,
        _ => false,
    }
}

/// The most digits of a short numeral.
const SHORT: usize = 18;

/// The number of a text that is 1 to 18 digits and nothing else.
#[inline(always)]
fn short_digits(text: &[u8]) -> Option<i64>
    ensures some { OnSome result (0 < length text.now) }
    ensures digits { OnSome result (prefix_len is_digit text.now ≡ length text.now) }
    ensures value { IfSome result (λ number. number ≡ pos (digits_value text.now)) }
    ensures bound { OnSome result (digits_value text.now < 10 ^ 18) }
{
    if text.is_empty() || text.len() > SHORT {
        return None;
    }
    let mut size: u64 = 0;
    for b in text {
        if !is_digit_byte(*b) {
            return None;
        }
        size = 10 * size + u64::from(*b - b'0');
    }
    match i64::try_from(size) {
        Ok(number) => Some(number),
        Err(_) => None,
    }
}

/// The number of a text that is a sign or nothing, then 1 to 18 digits, and nothing else.
#[inline(never)]
#[tactic(auto, unfolding(crate::specs::Numeral::number_of, crate::specs::Look::looks))]
pub(crate) fn short_number(text: &[u8]) -> Option<i64>
    ensures number { IfSome result (λ number. spec.number_of text.now ≡ Ok number) }
    ensures looks { OnSome result (looks text.now ≡ true) }
{
    let number = short_digits(past_sign(text))?;
    Some(if is_negative(text) { -number } else { number })
}

/// The number of a text: that of the numeral in front, blanks before it aside, or 0 where there is
/// none. The fault `numeral` where the numeral has a digit after the point or an exponent, else the
/// fault `overflow` where the number is out of range. It takes no memory and reads each byte once.
#[tactic(auto, unfolding(crate::specs::Numeral::number_of))]
#[inline(never)]
pub fn number_of(text: &[u8]) -> Result<i64, Fault>
    ensures { result ≡ spec.number_of text.now }
{
    let numeral = &text[count_blanks(text)..];
    unsigned_number(is_negative(numeral), past_sign(numeral))
}

/// The number of a text is the one that its longest numeral shows: there is such a number, and only
/// one.
pub fn numeral_law(text: &[u8])
    ensures { NumeralLaw text.now }
{
    let _ = text;
}
