//! The directives of formats.

ghost use Rattle.std.specs.Prelude.{◌≡◌, ◌≤◌, ◌&&◌, length, take, is_some, IfSome};
ghost use Rattle.std.specs.List.{prefix_len};
ghost use Rattle.pawk_value.specs.Format.{contains, is_flag, spelling_in_front, past_directive, without_precision, precision_in_front, precision_value, is_conversion, directive_of, is_proper};
ghost use Rattle.pawk_value.specs.FormatViews.{cap, cap_precision, cap_directive};
ghost use Rattle.pawk_value.specs.Bytes.{is_digit};
ghost use Rattle.pawk_value.specs.Numeral.{digits_value, after_while};
ghost use Rattle.pawk_value.specs.DirectiveLaw.{DirectiveLaw, DirectiveFaults, ZeroIsIdle};
ghost use Rattle.pawk_value.specs.Format as spec;

use crate::{LENGTH_LIMIT, leading_digits};

/// What a directive writes of a value.
#[derive(Clone, Copy)]
pub enum Conversion {
    /// A number with its sign: `d` and `i`.
    Signed,
    /// A number without sign in decimal digits: `u`.
    Unsigned,
    /// A number without sign in octal digits: `o`.
    Octal,
    /// A number without sign in hexadecimal digits with small letters: `x`.
    Hexadecimal,
    /// A number without sign in hexadecimal digits with great letters: `X`.
    UpperHexadecimal,
    /// A text: `s`.
    Text,
    /// One byte: `c`.
    Byte,
}

/// The flags of a directive.
#[derive(Clone, Copy)]
pub struct Flags {
    /// `-`: the spaces come after the text.
    pub left: bool,
    /// `+`: a number has a sign.
    pub plus: bool,
    /// A space: it is written where a number has no sign.
    pub space: bool,
    /// `0`: zeros fill the width.
    pub zero: bool,
    /// `#`: a leading 0, `0x` or `0X`.
    pub alternate: bool,
}

/// A directive. A width or a precision above the limit of lengths is one above it.
#[derive(Clone, Copy)]
pub struct Directive {
    /// The flags.
    pub flags: Flags,
    /// The least number of bytes, 0 where none is written.
    pub width: usize,
    /// The number after a point, 0 where none is written there.
    pub precision: Option<usize>,
    /// What it writes.
    pub conversion: Conversion,
}

/// A directive, and what follows it.
#[derive(Clone, Copy)]
pub struct Reading<'a> {
    pub directive: Directive,
    pub rest: &'a [u8],
}

/// Whether a byte is among others.
fn has_byte(bytes: &[u8], byte: u8) -> bool
    ensures { result ≡ contains bytes.now byte }
{
    bytes.iter().any(|b| *b == byte)
}

/// Whether a byte is a flag.
fn is_flag_byte(byte: u8) -> bool
    ensures { result ≡ is_flag byte }
{
    has_byte(b"-+ 0#", byte)
}

/// How many flags are in front.
fn count_flags(text: &[u8]) -> usize
    ensures value { result ≡ prefix_len is_flag text.now }
    ensures bound { result ≤ length text.now }
{
    text.iter().take_while(|b| is_flag_byte(**b)).count()
}

/// The flags that bytes are.
fn flags_in(bytes: &[u8]) -> Flags
    ensures { result ≡ spec.flags_in bytes.now }
{
    Flags {
        left: has_byte(bytes, b'-'),
        plus: has_byte(bytes, b'+'),
        space: has_byte(bytes, b' '),
        zero: has_byte(bytes, b'0'),
        alternate: has_byte(bytes, b'#'),
    }
}

/// The conversion of a letter, if it has one.
fn conversion_of(letter: u8) -> Option<Conversion>
    ensures known { is_some result ≡ is_conversion letter }
    ensures value { IfSome result (λ conversion. conversion ≡ spec.conversion_of letter) }
{
    match letter {
        b'd' | b'i' => Some(Conversion::Signed),
        b'u' => Some(Conversion::Unsigned),
        b'o' => Some(Conversion::Octal),
        b'x' => Some(Conversion::Hexadecimal),
        b'X' => Some(Conversion::UpperHexadecimal),
        b's' => Some(Conversion::Text),
        b'c' => Some(Conversion::Byte),
        _ => None,
    }
}

/// Whether a conversion allows the flags.
fn allows(conversion: Conversion, flags: Flags) -> bool
    ensures { result ≡ spec.allows conversion flags }
{
    match conversion {
        Conversion::Signed => !flags.alternate,
        Conversion::Unsigned => !(flags.plus || flags.space || flags.alternate),
        Conversion::Octal | Conversion::Hexadecimal | Conversion::UpperHexadecimal => {
            !(flags.plus || flags.space)
        },
        Conversion::Text | Conversion::Byte => {
            !(flags.plus || flags.space || flags.zero || flags.alternate)
        },
    }
}

/// Whether a conversion allows a precision.
fn allows_precision(conversion: Conversion, some: bool) -> bool
    ensures { result ≡ spec.allows_precision conversion some }
{
    match conversion {
        Conversion::Byte => !some,
        _ => true,
    }
}

/// A count in front of a text, and what follows it.
#[derive(Clone, Copy)]
struct LeadingCount<'a> {
    value: usize,
    rest: &'a [u8],
}

/// The number that the digits in front of a text write, and what follows them.
fn read_count(text: &[u8]) -> LeadingCount<'_>
    ensures value { result.value
        ≡ cap (digits_value (take (prefix_len is_digit text.now) text.now)) }
    ensures rest { result.rest.now
        ≡ after_while is_digit text.now }
{
    let digits = leading_digits(text);
    let (_, rest) = text.split_at(digits.count);
    let value = digits.value.min(LENGTH_LIMIT as u64 + 1) as usize;
    LeadingCount { value, rest }
}

/// A precision in front of a text, if there is one, and what follows it.
#[derive(Clone, Copy)]
struct Precision<'a> {
    value: Option<usize>,
    rest: &'a [u8],
}

/// The precision in front of a text, and what follows it.
fn read_precision(text: &[u8]) -> Precision<'_>
    ensures value { result.value ≡ cap_precision (precision_value (precision_in_front text.now)) }
    ensures some { is_some result.value ≡ is_some (precision_in_front text.now) }
    ensures rest { result.rest.now ≡ without_precision text.now }
{
    match text {
        [b'.', digits @ ..] => {
            let count = read_count(digits);
            Precision {
                value: Some(count.value),
                rest: count.rest,
            }
        },
        _ => Precision {
            value: None,
            rest: text,
        },
    }
}

/// The directive with a letter, if the letter is a conversion's that allows the flags and the
/// precision.
fn directive_with(
    flags: Flags,
    width: usize,
    precision: Option<usize>,
    letter: u8,
) -> Option<Directive>
    ensures form { is_some result ≡ (is_conversion letter
        && (spec.allows (spec.conversion_of letter) flags
        && spec.allows_precision (spec.conversion_of letter) (is_some precision))) }
    ensures flags { IfSome result (λ d. d.flags ≡ flags) }
    ensures width { IfSome result (λ d. d.width ≡ width) }
    ensures precision { IfSome result (λ d. d.precision ≡ precision) }
    ensures conversion { IfSome result (λ d. d.conversion ≡ spec.conversion_of letter) }
{
    let conversion = conversion_of(letter)?;
    if !allows(conversion, flags) {
        return None;
    }
    if !allows_precision(conversion, precision.is_some()) {
        return None;
    }
    Some(Directive {
        flags,
        width,
        precision,
        conversion,
    })
}

/// The directive after a `%` and what follows it, if its form is one that the standard allows.
pub fn read_directive(text: &[u8]) -> Option<Reading<'_>>
    ensures form { is_some result ≡ is_proper (spelling_in_front text.now) }
    ensures directive { IfSome result
        (λ reading. reading.directive ≡ cap_directive (directive_of (spelling_in_front text.now))) }
    ensures rest { IfSome result (λ reading. reading.rest.now ≡ past_directive text.now) }
{
    let (flags, after_flags) = text.split_at(count_flags(text));
    let width = read_count(after_flags);
    let precision = read_precision(width.rest);
    match precision.rest {
        [] => None,
        [letter, rest @ ..] => {
            let flags = flags_in(flags);
            let directive = directive_with(flags, width.value, precision.value, *letter)?;
            Some(Reading { directive, rest })
        },
    }
}

/// What a directive writes is as long as the width or longer. The digits of a number read back as
/// it, with no 0 in front that nothing asks for; of a text there is as much as the precision allows.
/// It fails only as the value does, or for its sign or size. Beside `-` or a precision `0` is idle.
pub fn directive_law(directive: Directive)
    ensures writes { DirectiveLaw directive }
    ensures fails { DirectiveFaults directive }
    ensures idle { ZeroIsIdle directive }
{
    let _ = directive;
}
