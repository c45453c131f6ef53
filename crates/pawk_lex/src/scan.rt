//! Runs of bytes.

ghost use Rattle.std.specs.Prelude.{◌≡◌, ◌≤◌, length};
ghost use Rattle.std.specs.Char.{is_ascii_digit};
ghost use Rattle.std.specs.List.{prefix_len};
ghost use Rattle.pawk_lex.specs.Bytes as bytes;
ghost use Rattle.pawk_lex.specs.Gaps as spec;

use crate::bytes::is_name_byte;

/// How many digits come first.
pub fn digit_count(text: &[u8]) -> usize
    ensures value { result ≡ prefix_len is_ascii_digit text.now }
    ensures within { result ≤ length text.now }
{
    let mut end = 0;
    while end < text.len() && text[end].is_ascii_digit() {
        end += 1;
    }
    end
}

/// How many bytes of names come first.
pub fn name_length(text: &[u8]) -> usize
    ensures value { result ≡ prefix_len bytes.is_name_byte text.now }
    ensures within { result ≤ length text.now }
{
    let mut end = 0;
    while end < text.len() && is_name_byte(text[end]) {
        end += 1;
    }
    end
}

/// How many bytes come before the first newline.
fn line_length(text: &[u8]) -> usize
    ensures value { result ≡ prefix_len bytes.is_in_line text.now }
    ensures within { result ≤ length text.now }
{
    let mut end = 0;
    while end < text.len() && text[end] != b'\n' {
        end += 1;
    }
    end
}

/// How many bytes at the front separate tokens: a blank, a joined line or a comment (POSIX.1-2017,
/// awk, "Lexical Conventions": `<blank>`, `<backslash>` before `<newline>`, comment).
#[tactic(auto, unfolding(crate::specs::Gaps::gap_length))]
fn gap_length(text: &[u8]) -> usize
    ensures value { result ≡ spec.gap_length text.now }
    ensures within { result ≤ length text.now }
{
    match text {
        [b' ' | b'\t', ..] => 1,
        [b'\\', b'\n', ..] => 2,
        [b'#', ..] => line_length(text),
        _ => 0,
    }
}

/// The text from its first token on: blanks, joined lines and comments are passed over.
pub fn skip(mut text: &[u8]) -> &[u8]
    ensures { result.now ≡ spec.skip text.entry.now }
{
    loop {
        let length = gap_length(text);
        if length == 0 {
            return text;
        }
        text = &text[length..];
    }
}
