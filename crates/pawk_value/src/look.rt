//! Whether a text from outside looks like a numeral.

ghost use Rattle.std.specs.Prelude.{◌≡◌};
ghost use Rattle.std.specs.List.{list_all};
ghost use Rattle.pawk_value.specs.Bytes.{is_blank, is_digit};
ghost use Rattle.pawk_value.specs.Numeral.{after_while};
ghost use Rattle.pawk_value.specs.Look.{has_digit, without_fraction, without_exponent, unsigned_candidate_number, LookLaw};
ghost use Rattle.pawk_value.specs.Look as spec;

use crate::bytes::{is_blank_byte, is_digit_byte};
use crate::faults::Fault;
use crate::numeral::{
    count_blanks, is_negative, leading_digits, number_of_digits, past_sign, short_number,
    shows_exponent, shows_fraction,
};

/// What follows the digits in front.
fn past_digits(text: &[u8]) -> &[u8]
    ensures { result.now ≡ after_while is_digit text.now }
{
    &text[leading_digits(text).count..]
}

/// Whether a digit is in front, before a point or after it.
fn shows_digit(text: &[u8]) -> bool
    ensures { result ≡ has_digit text.now }
{
    match text {
        [b, ..] => is_digit_byte(*b) || shows_fraction(text),
        [] => false,
    }
}

/// What follows a point and digits in front.
fn past_fraction(text: &[u8]) -> &[u8]
    ensures { result.now ≡ without_fraction text.now }
{
    match text {
        [b'.', rest @ ..] => past_digits(rest),
        _ => text,
    }
}

/// What follows an exponent in front.
fn past_exponent(text: &[u8]) -> &[u8]
    ensures { result.now ≡ without_exponent text.now }
{
    if shows_exponent(text) {
        past_digits(past_sign(&text[1..]))
    } else {
        text
    }
}

/// Whether all bytes are blanks.
fn are_blanks(text: &[u8]) -> bool
    ensures { result ≡ list_all is_blank text.now }
{
    text.iter().all(|b| is_blank_byte(*b))
}

/// The number of a candidate whose blanks in front and sign were read, if it is numeric.
fn unsigned_candidate(negative: bool, text: &[u8]) -> Option<Result<i64, Fault>>
    ensures { result ≡ unsigned_candidate_number negative text.now }
{
    if !shows_digit(text) {
        return None;
    }
    let digits = leading_digits(text);
    let (_, rest) = text.split_at(digits.count);
    if !are_blanks(past_exponent(past_fraction(rest))) {
        return None;
    }
    Some(number_of_digits(negative, digits, rest))
}

/// The number of a text from outside, if it is numeric: blanks at both ends aside, all of it is one
/// numeral, whole or not. The faults are those of `number_of`. It takes no memory and reads each byte
/// of the numeral once.
#[tactic(auto, unfolding(crate::specs::Look::looks, crate::specs::Numeral::number_of))]
pub fn candidate_number(text: &[u8]) -> Option<Result<i64, Fault>>
    ensures { result ≡ spec.candidate_number text.now }
{
    if let Some(number) = short_number(text) {
        return Some(Ok(number));
    }
    let numeral = &text[count_blanks(text)..];
    unsigned_candidate(is_negative(numeral), past_sign(numeral))
}

/// A text looks like a numeral exactly where it is blanks, a numeral and blanks.
pub fn look_law(text: &[u8])
    ensures { LookLaw text.now }
{
    let _ = text;
}
