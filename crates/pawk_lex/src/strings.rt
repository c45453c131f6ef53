//! The bytes inside strings and between slashes.

ghost use Rattle.std.specs.Prelude.{◌≡◌, ◌≢◌, ◌<◌, ◌≤◌, IsTrue, [], length, IfSome, IfOk};
ghost use Rattle.pawk_lex.specs.Bytes as bytes;
ghost use Rattle.pawk_lex.specs.Gaps.{pass};
ghost use Rattle.pawk_lex.specs.Strings as spec;

use crate::bytes::{byte_at, is_octal};
use std::alloc::{AllocError, Global};

/// The byte that a backslash and this byte write.
#[tactic(auto, unfolding(crate::specs::Strings::simple_escape))]
fn simple_escape(byte: u8) -> Option<u8>
    ensures value { result ≡ spec.simple_escape byte }
    ensures within { IfSome result (λ _. byte ≢ 0) }
{
    match byte {
        b'"' | b'/' | b'\\' => Some(byte),
        b'a' => Some(7),
        b'b' => Some(8),
        b'f' => Some(12),
        b'n' => Some(b'\n'),
        b'r' => Some(b'\r'),
        b't' => Some(b'\t'),
        b'v' => Some(11),
        _ => None,
    }
}

/// The byte that a backslash and octal digits write, the first of which is `first`, and how many
/// bytes write it.
#[tactic(auto, unfolding(crate::specs::Strings::octal_escape))]
fn octal_escape(first: u8, second: u8, third: u8) -> Option<(u8, usize)>
    requires { IsTrue (bytes.is_octal first) }
    ensures value { result ≡ spec.octal_escape first second third }
    ensures within { IfSome result (λ p. (2 ≤ p.1) × (p.1 ≤ 4) ×
        (2 < p.1 → second ≢ 0) × (3 < p.1 → third ≢ 0)) }
{
    let one = first - b'0';
    if !is_octal(second) {
        return Some((one, 2));
    }
    let two = 8 * one + (second - b'0');
    if is_octal(third) && two < 32 {
        return Some((8 * two + (third - b'0'), 4));
    }
    Some((two, 3))
}

/// The byte that comes next in a string, and how many bytes write it; `None` where the string
/// ends: at a quote, a newline, the end of the text or a backslash that begins no escape.
#[tactic(auto, unfolding(crate::specs::Strings::string_byte))]
pub fn string_byte(text: &[u8]) -> Option<(u8, usize)>
    ensures value { result ≡ spec.string_byte text.now }
    ensures within { IfSome result (λ p. (1 ≤ p.1) × (p.1 ≤ length text.now)) }
{
    match text {
        [] => None,
        [b'"' | b'\n', ..] => None,
        [b'\\', rest @ ..] => {
            let first = byte_at(rest, 0);
            if is_octal(first) {
                octal_escape(first, byte_at(rest, 1), byte_at(rest, 2))
            } else {
                match simple_escape(first) {
                    None => None,
                    Some(byte) => Some((byte, 2)),
                }
            }
        }
        [byte, ..] => Some((*byte, 1)),
    }
}

/// The bytes that are written up to the string's end, and the text from that end on.
pub fn decode(alloc: Global, mut text: &[u8]) -> Result<(Vec<u8>, &[u8]), AllocError>
    ensures { IfOk result (λ p. spec.decode 0 [] text.entry.now ≡ (p.0.items, p.1.now)) }
{
    let mut decoded = Vec::new(alloc);
    while let Some((byte, length)) = string_byte(text) {
        decoded.push(byte)?;
        text = &text[length..];
    }
    Ok((decoded, text))
}

/// How many bytes at the front belong to an expression: 0 where it ends.
#[tactic(auto, unfolding(crate::specs::Strings::ere_length))]
fn ere_length(text: &[u8]) -> usize
    ensures value { result ≡ spec.ere_length text.now }
    ensures within { result ≤ length text.now }
{
    match text {
        [] => 0,
        [b'/' | b'\n', ..] => 0,
        [b'\\', rest @ ..] => match rest {
            [] => 0,
            [b'\n', ..] => 0,
            _ => 2,
        },
        _ => 1,
    }
}

/// The text from the end of the expression on.
pub fn after_ere(mut text: &[u8]) -> &[u8]
    ensures value { result.now ≡ pass spec.ere_length 0 text.entry.now }
    ensures within { length result.now ≤ length text.entry.now }
{
    loop {
        let length = ere_length(text);
        if length == 0 {
            return text;
        }
        text = &text[length..];
    }
}
