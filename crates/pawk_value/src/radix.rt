//! The digits of octal and hexadecimal conversions.

ghost use Rattle.std.specs.Prelude.{◌≡◌, ◌⊎◌, ◌≤◌, ◌<◌, ◌-◌, ◌+◌, ◌^◌, drop, length};
ghost use Rattle.pawk_value.specs.Format.{radix_text};
ghost use Rattle.pawk_value.specs.Format as spec;

/// Space for the octal digits of 64 bits, with two bytes to spare.
pub const RADIX_ROOM: usize = 24;

/// The byte of a digit.
fn digit_byte(digit: u8, upper: bool) -> u8
    requires { digit < 16 }
    ensures { result ≡ spec.digit_byte upper digit }
{
    if digit < 10 {
        b'0' + digit
    } else if upper {
        b'A' - 10 + digit
    } else {
        b'a' - 10 + digit
    }
}

/// Writes the digits of a number so that they end at the buffer's end, and returns where they start.
pub fn write_radix(number: u64, base: u64, upper: bool, buffer: &mut [u8; RADIX_ROOM]) -> usize
    requires base { (base ≡ 8) ⊎ (base ≡ 16) }
    requires number { 0 < number }
    ensures start { (2 ≤ result) × (result < 24) }
    ensures written { drop result buffer.new ≡ radix_text base upper number }
{
    let mut left = number;
    let mut start = RADIX_ROOM;
    while left > 0 {
        start -= 1;
        buffer[start] = digit_byte((left % base) as u8, upper);
        left /= base;
    }
    start
}
