//! Single bytes of a text.

ghost use Rattle.std.specs.Prelude.{◌≡◌, ◌≢◌, ◌<◌, length, slice_index};
ghost use Rattle.pawk_lex.specs.Bytes as spec;

/// Whether this byte may occur in a name.
pub fn is_name_byte(byte: u8) -> bool
    ensures { result ≡ spec.is_name_byte byte }
{
    byte.is_ascii_alphanumeric() || byte == b'_'
}

/// Whether this byte is an octal digit.
pub fn is_octal(byte: u8) -> bool
    ensures { result ≡ spec.is_octal byte }
{
    (b'0'..=b'7').contains(&byte)
}

/// The byte at this index, or 0 where there is none.
pub fn byte_at(text: &[u8], index: usize) -> u8
    ensures value { result ≡ slice_index text.now index }
    ensures within { result ≢ 0 → index < length text.now }
{
    if index < text.len() { text[index] } else { 0 }
}
