//! The words of a table file and the gaps between them.

ghost use Rattle.std.specs.Prelude.{◌≡◌, ◌≢◌, MatchOption};
ghost use Rattle.pawk_words.specs.Words as spec;

/// A word. Its letters or bytes are lent.
#[derive(Clone, Copy)]
pub enum Word<'a> {
    /// A name: 1 to 16 lower-case letters, `a` to `z`.
    Name(&'a [u8]),
    /// A whole number whose size is at most 18446744073709551616.
    Number(i128),
    /// A text: any bytes.
    Text(&'a [u8]),
}

/// What comes after a word.
#[derive(Clone, Copy, PartialEq, Eq)]
pub enum Gap {
    /// One space: the line goes on.
    Space,
    /// One newline: the line ends.
    Newline,
}

/// The byte of a gap.
pub(crate) fn gap_byte(gap: Gap) -> u8
    ensures { result ≡ spec.gap_byte gap }
{
    match gap {
        Gap::Space => b' ',
        Gap::Newline => b'\n',
    }
}

/// The gap that a byte is, if it is one.
pub(crate) fn gap_of(byte: u8) -> Option<Gap>
    ensures { MatchOption result
        ((g : Gap) → byte ≢ spec.gap_byte g) (λ g. byte ≡ spec.gap_byte g) }
{
    match byte {
        b' ' => Some(Gap::Space),
        b'\n' => Some(Gap::Newline),
        _ => None,
    }
}
