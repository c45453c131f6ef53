//! The text of tokens, at the end of a text.

ghost use Rattle.std.specs.Prelude.{◌++◌, OnOk};
ghost use Rattle.pawk_lex.specs.Tokens as token;
ghost use Rattle.pawk_lex.specs.Canonical.{byte_text};
ghost use Rattle.pawk_syntax_show.specs.Lengthening.{Lengthens};
ghost use Rattle.pawk_syntax_show.specs.TreeText.{with_token};

use itoa::Buffer;
use std::alloc::AllocError;

/// Appends these bytes as they are.
pub fn append(out: &mut Vec<u8>, text: &[u8]) -> Result<(), AllocError>
    ensures { OnOk result
        (Lengthens out.old.items out.new.items (λ rest. text.now ++ rest)) }
{
    out.extend_from_slice(text)
}

/// Appends a numeral without leading zeros.
pub fn append_number(out: &mut Vec<u8>, number: u64) -> Result<(), AllocError>
    ensures { OnOk result
        (Lengthens out.old.items out.new.items (with_token (token.number number))) }
{
    let mut buffer = Buffer::new();
    append(out, buffer.format(number).as_bytes())
}

/// Appends a byte as it is written in a string: a quote and a backslash after a backslash, a printable
/// byte itself, any other one by three octal digits.
fn append_byte(out: &mut Vec<u8>, byte: u8) -> Result<(), AllocError>
    ensures { OnOk result
        (Lengthens out.old.items out.new.items (λ rest. byte_text byte ++ rest)) }
{
    if byte == b'"' || byte == b'\\' {
        append(out, &[b'\\', byte])
    } else if 32 <= byte && byte <= 126 {
        append(out, &[byte])
    } else {
        let digits = [48 + byte / 64, 48 + byte / 8 % 8, 48 + byte % 8];
        append(out, &[b'\\', digits[0], digits[1], digits[2]])
    }
}

/// Appends a string of these bytes, in quotes.
pub fn append_string(out: &mut Vec<u8>, bytes: &[u8]) -> Result<(), AllocError>
    ensures { OnOk result
        (Lengthens out.old.items out.new.items (with_token (token.string bytes.now))) }
{
    append(out, b"\"")?;
    let mut left = bytes;
    while let [byte, rest @ ..] = left {
        append_byte(out, *byte)?;
        left = rest;
    }
    append(out, b"\"")
}

/// Appends an expression of these bytes, between slashes.
pub fn append_ere(out: &mut Vec<u8>, bytes: &[u8]) -> Result<(), AllocError>
    ensures { OnOk result
        (Lengthens out.old.items out.new.items (with_token (token.ere bytes.now))) }
{
    append(out, b"/")?;
    append(out, bytes)?;
    append(out, b"/")
}
