//! Where messages go: text for people.

ghost use Rattle.std.specs.Prelude.{◌≤◌, ℕ, List, None, Option, length, IfSome};

use std::io;
use std::io::{IsTerminal, Write};

/// A writer of messages: in place of each character that controls a terminal, turns text round or ends a line unseen, it
/// writes `?`. Tabs and newlines stay.
#[derive(Drop)]
pub(crate) struct Messages<W> {
    writer: W,
}

impl<W> Messages<W> {
    /// Messages that go to this writer.
    pub(crate) fn new(writer: W) -> Messages<W> {
        Messages { writer }
    }
}

/// How many bytes the first character takes, if it is one that is not written: a control character, one that turns text
/// round (U+202A to U+202E, U+2066 to U+2069), or one that separates lines or paragraphs (U+2028, U+2029).
fn hidden_length(bytes: &[u8]) -> Option<usize>
    ensures { IfSome result (λ count. count ≤ length bytes.now) }
{
    match bytes {
        [b'\t' | b'\n', ..] => None,
        [0x00..=0x1f | 0x7f..=0x9f, ..] => Some(1),
        [0xc2, 0x80..=0x9f, ..] => Some(2),
        [0xe2, 0x80, 0xa8..=0xae, ..] => Some(3),
        [0xe2, 0x81, 0xa6..=0xa9, ..] => Some(3),
        _ => None,
    }
}

/// How many bytes the first character takes in UTF-8; 1 where none begins here.
fn character_length(bytes: &[u8]) -> usize {
    match bytes {
        [0xc2..=0xdf, 0x80..=0xbf, ..] => 2,
        [0xe0..=0xef, 0x80..=0xbf, 0x80..=0xbf, ..] => 3,
        [0xf0..=0xf4, 0x80..=0xbf, 0x80..=0xbf, 0x80..=0xbf, ..] => 4,
        _ => 1,
    }
}

/// How many bytes come before the first character that is not written.
fn written_length(bytes: &[u8]) -> usize
    ensures { result ≤ length bytes.now }
{
    let mut count: usize = 0;
    for _ in bytes {
        let rest = bytes.get(count..).unwrap_or(&[]);
        if rest.is_empty() || hidden_length(rest).is_some() {
            break;
        }
        count = count.saturating_add(character_length(rest));
    }
    count.min(bytes.len())
}

impl<W: Write> Write for Messages<W> {
    // What was written is not told, since some of it is `?`.
    ghost contents = { λ _. None };

    fn write(&mut self, bytes: &[u8]) -> io::Result<usize> {
        if let Some(count) = hidden_length(bytes) {
            self.writer.write_all(b"?")?;
            return Ok(count);
        }
        let count = written_length(bytes);
        self.writer.write_all(&bytes[..count])?;
        Ok(count)
    }

    fn flush(&mut self) -> io::Result<()> {
        self.writer.flush()
    }
}

impl<W: IsTerminal> IsTerminal for Messages<W> {
    fn is_terminal(&self) -> bool {
        self.writer.is_terminal()
    }
}
