//! What one piece of a format writes.

ghost use Rattle.std.specs.Prelude.{◌≡◌, ◌++◌, ◌<◌, ◌≤◌, ◌==◌, ◌&&◌, is_some, drop};
ghost use Rattle.pawk_value.specs.Value.{lent_value};
ghost use Rattle.pawk_value.specs.Format.{sign_text, signed_text, unsigned_prefix, unsigned_digits, unsigned_text, unsigned_result, character_result, beginning, string_text, character, directive_text, value_text, and_then, has_leading_zero, conversion_digits, within_limit};
ghost use Rattle.pawk_value.specs.Format as spec;
ghost use Rattle.pawk_value.specs.FormatViews.{as_bytes, as_text, text_after, piece_text, shown_values, Makes, IsRadix, IsUnsigned};

use crate::arguments::{Arguments, first_argument};
use crate::directive::{Conversion, Directive};
use crate::layout::{push_body, push_number, push_plain};
use crate::pieces::Piece;
use crate::radix::{RADIX_ROOM, write_radix};
use crate::{Fault, Stop, ValueRef, candidate_number, text_in, to_num_lent};
use itoa::Buffer;

/// The sign of a number: `+` wins over the space.
fn sign_of(directive: Directive, number: i64) -> &'static [u8]
    ensures { result.now ≡ sign_text directive.flags number }
{
    if number < 0 {
        b"-"
    } else if directive.flags.plus {
        b"+"
    } else if directive.flags.space {
        b" "
    } else {
        &[]
    }
}

/// Whether a number has no digits of its own.
fn has_no_digits(directive: Directive, number: u64) -> bool
    ensures { result ≡ ((number == 0) && is_some directive.precision) }
{
    number == 0 && directive.precision.is_some()
}

/// Appends a number with its sign.
fn push_signed(out: &mut Vec<u8>, directive: Directive, number: i64) -> Result<(), Stop>
    ensures { Makes out.old.items (within_limit (out.old.items ++ signed_text directive number))
        out.new.items result }
{
    let size = number.unsigned_abs();
    let sign = sign_of(directive, number);
    if has_no_digits(directive, size) {
        return push_number(out, directive, sign, &[]);
    }
    let mut buffer = Buffer::new();
    push_number(out, directive, sign, buffer.format(size).as_bytes())
}

/// The prefix of a number without sign.
fn prefix_of(directive: Directive, number: u64) -> &'static [u8]
    ensures { result.now ≡ unsigned_prefix directive number }
{
    if !directive.flags.alternate || number == 0 {
        return &[];
    }
    match directive.conversion {
        Conversion::Hexadecimal => b"0x",
        Conversion::UpperHexadecimal => b"0X",
        _ => &[],
    }
}

/// Appends a number without sign in decimal digits.
fn push_decimal(out: &mut Vec<u8>, directive: Directive, number: u64) -> Result<(), Stop>
    requires { directive.conversion ≡ Conversion.Unsigned }
    ensures { Makes out.old.items (within_limit (out.old.items ++ unsigned_text directive number))
        out.new.items result }
{
    if has_no_digits(directive, number) {
        return push_number(out, directive, prefix_of(directive, number), &[]);
    }
    let mut buffer = Buffer::new();
    let digits = buffer.format(number).as_bytes();
    push_number(out, directive, prefix_of(directive, number), digits)
}

/// Whether a conversion is to octal digits.
fn is_octal(conversion: Conversion) -> bool
    ensures { result ≡ spec.is_octal conversion }
{
    match conversion {
        Conversion::Octal => true,
        _ => false,
    }
}

/// Whether the first digit is to be 0.
fn leads_with_zero(directive: Directive) -> bool
    ensures { result ≡ has_leading_zero directive }
{
    is_octal(directive.conversion) && directive.flags.alternate
}

/// Writes the digits of 0, and returns where they start.
fn write_zero(directive: Directive, buffer: &mut [u8; RADIX_ROOM]) -> usize
    requires { IsRadix directive.conversion }
    ensures start { result ≤ 24 }
    ensures written { drop result buffer.new ≡ unsigned_digits directive 0 }
{
    if has_no_digits(directive, 0) && !leads_with_zero(directive) {
        return RADIX_ROOM;
    }
    buffer[RADIX_ROOM - 1] = b'0';
    RADIX_ROOM - 1
}

/// Writes the digits of a number above 0 by the conversion, and returns where they start.
fn write_plain(conversion: Conversion, number: u64, buffer: &mut [u8; RADIX_ROOM]) -> usize
    requires conversion { IsRadix conversion }
    requires number { 0 < number }
    ensures start { (2 ≤ result) × (result < 24) }
    ensures written { drop result buffer.new ≡ conversion_digits conversion number }
{
    match conversion {
        Conversion::Octal => write_radix(number, 8, false, buffer),
        Conversion::Hexadecimal => write_radix(number, 16, false, buffer),
        _ => write_radix(number, 16, true, buffer),
    }
}

/// Writes the digits of an octal or hexadecimal conversion so that they end at the buffer's end, and
/// returns where they start.
fn write_conversion(directive: Directive, number: u64, buffer: &mut [u8; RADIX_ROOM]) -> usize
    requires { IsRadix directive.conversion }
    ensures start { result ≤ 24 }
    ensures written { drop result buffer.new ≡ unsigned_digits directive number }
{
    if number == 0 {
        return write_zero(directive, buffer);
    }
    let start = write_plain(directive.conversion, number, buffer);
    if !leads_with_zero(directive) {
        return start;
    }
    buffer[start - 1] = b'0';
    start - 1
}

/// Appends a number without sign in octal or hexadecimal digits.
fn push_radix(out: &mut Vec<u8>, directive: Directive, number: u64) -> Result<(), Stop>
    requires { IsRadix directive.conversion }
    ensures { Makes out.old.items (within_limit (out.old.items ++ unsigned_text directive number))
        out.new.items result }
{
    let mut buffer = [0u8; RADIX_ROOM];
    let start = write_conversion(directive, number, &mut buffer);
    push_number(
        out,
        directive,
        prefix_of(directive, number),
        &buffer[start..],
    )
}

/// Appends a number without sign by its conversion.
fn push_unsigned(out: &mut Vec<u8>, directive: Directive, number: i64) -> Result<(), Stop>
    requires { IsUnsigned directive.conversion }
    ensures { Makes out.old.items
        (text_after out.old.items (unsigned_result directive number))
        out.new.items result }
{
    match u64::try_from(number) {
        Err(_) => Err(Stop::Fault(Fault::Negative)),
        Ok(size) => match directive.conversion {
            Conversion::Unsigned => push_decimal(out, directive, size),
            _ => push_radix(out, directive, size),
        },
    }
}

/// The bytes of a text that a precision leaves.
fn beginning_of(precision: Option<usize>, text: &[u8]) -> &[u8]
    ensures { result.now ≡ beginning precision text.now }
{
    match precision {
        None => text,
        Some(most) => &text[..most.min(text.len())],
    }
}

/// Appends the text of a value, cut by the precision.
fn push_string(out: &mut Vec<u8>, directive: Directive, value: ValueRef<'_>) -> Result<(), Stop>
    ensures { Makes out.old.items
        (within_limit (out.old.items ++ string_text directive (lent_value value.entry)))
        out.new.items result }
{
    let mut buffer = Buffer::new();
    let text = text_in(value, &mut buffer);
    push_plain(out, directive, beginning_of(directive.precision, text))
}

/// The byte of a number.
fn byte_of(number: i64) -> Result<u8, Fault>
    ensures { as_bytes result ≡ spec.byte_of number }
{
    match u8::try_from(number) {
        Ok(byte) => Ok(byte),
        Err(_) => Err(Fault::Format),
    }
}

/// The byte that `c` writes, if it writes one.
fn character_of(value: ValueRef<'_>) -> Result<Option<u8>, Fault>
    ensures { as_text result ≡ character (lent_value value.entry) }
{
    match value {
        ValueRef::Uninit => Ok(None),
        ValueRef::Num(number) => Ok(Some(byte_of(number)?)),
        ValueRef::Text(text) => Ok(text.first().copied()),
        ValueRef::Maybe(text) => match candidate_number(text) {
            Some(number) => Ok(Some(byte_of(number?)?)),
            None => Ok(text.first().copied()),
        },
    }
}

/// Appends one byte, or nothing, with spaces.
fn push_character(out: &mut Vec<u8>, directive: Directive, value: ValueRef<'_>) -> Result<(), Stop>
    ensures { Makes out.old.items
        (text_after out.old.items
        (and_then (character (lent_value value.entry)) (character_result directive)))
        out.new.items result }
{
    match character_of(value)? {
        None => push_plain(out, directive, &[]),
        Some(byte) => push_plain(out, directive, &[byte]),
    }
}

/// Appends what a directive writes for a value. The faults are `format`, those of the value's number,
/// `negative` and `length`.
#[inline(never)]
fn push_directive(out: &mut Vec<u8>, directive: Directive, value: ValueRef<'_>) -> Result<(), Stop>
    ensures { Makes out.old.items
        (text_after out.old.items (directive_text directive (lent_value value.entry)))
        out.new.items result }
{
    match directive.conversion {
        Conversion::Signed => push_signed(out, directive, to_num_lent(value)?),
        Conversion::Text => push_string(out, directive, value),
        Conversion::Byte => push_character(out, directive, value),
        _ => push_unsigned(out, directive, to_num_lent(value)?),
    }
}

/// Appends what a directive writes for the first of the values.
#[inline(always)]
fn push_place(out: &mut Vec<u8>, directive: Directive, arguments: Arguments<'_>) -> Result<(), Stop>
    ensures { Makes out.old.items
        (text_after out.old.items (value_text directive (shown_values arguments.entry)))
        out.new.items result }
{
    match first_argument(arguments) {
        None => Err(Stop::Fault(Fault::Format)),
        Some(value) => push_directive(out, directive, value),
    }
}

/// Appends bytes as they are.
fn push_bytes(out: &mut Vec<u8>, bytes: &[u8]) -> Result<(), Stop>
    ensures { Makes out.old.items (Ok (out.old.items ++ bytes.now)) out.new.items result }
{
    out.extend_from_slice(bytes)?;
    Ok(())
}

/// Appends what a piece of a format writes.
#[inline(always)]
pub fn push_piece(out: &mut Vec<u8>, piece: Piece<'_>, arguments: Arguments<'_>) -> Result<(), Stop>
    ensures { Makes out.old.items
        (piece_text out.old.items piece.entry (shown_values arguments.entry))
        out.new.items result }
{
    match piece {
        Piece::Plain(bytes) => push_bytes(out, bytes),
        Piece::Percent => push_body(out, b"%"),
        Piece::Place(directive) => push_place(out, directive, arguments),
        Piece::Malformed => Err(Stop::Fault(Fault::Format)),
    }
}
