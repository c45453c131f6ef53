//! The bytes that numerals are made of.

ghost use Rattle.std.specs.Prelude.{◌≡◌};
ghost use Rattle.pawk_value.specs.Bytes.{is_blank, is_digit};

/// Whether a byte is a space, a tab or a newline.
#[inline]
pub fn is_blank_byte(b: u8) -> bool
    ensures { result ≡ is_blank b }
{
    b == b' ' || b == b'\t' || b == b'\n'
}

/// Whether a byte is a decimal digit.
#[inline]
pub fn is_digit_byte(b: u8) -> bool
    ensures { result ≡ is_digit b }
{
    b >= b'0' && b <= b'9'
}
