//! Records that end at one byte.

ghost use Rattle.std.specs.Prelude.{◌≡◌, ℕ, ◌+◌, ◌<◌, ◌≤◌, [], ◌∷◌, length, take};
ghost use Rattle.std.specs.Prelude.{IfSome, MatchOption};
ghost use Rattle.memchr.specs.Find.{IsFirst};
ghost use Rattle.pawk_records.specs.Records.{NoSeparator, records};
ghost use Rattle.pawk_records.specs.Begins.{BeginsAt};

use memchr::memchr;

/// The first record of a text and what follows it, if there is one. None ends within the first
/// `from` bytes, which are not looked at.
#[inline]
pub(crate) fn split_line(text: &[u8], from: usize, separator: u8) -> Option<(&[u8], &[u8])>
    requires within { from ≤ length text.now }
    requires none { NoSeparator separator (take from text.now) }
    ensures cut { MatchOption result (records separator text.now ≡ [])
        (λ parts. records separator text.now ≡ parts.0.now ∷ records separator parts.1.now) }
    ensures short { IfSome result
        (λ parts. length parts.0.now + length parts.1.now ≤ length text.now) }
    ensures less { IfSome result (λ parts. length parts.1.now < length text.now) }
{
    if text.is_empty() {
        return None;
    }
    match memchr(separator, &text[from..]) {
        Some(end) => Some((&text[..from + end], &text[from + end + 1..])),
        None => Some((text, &[])),
    }
}

/// The first place from `from` on at which a record begins.
pub(crate) fn next_line(bytes: &[u8], from: usize, separator: u8) -> Option<usize>
    ensures { IsFirst (BeginsAt (separator ∷ []) bytes.now) from (length bytes.now) result }
{
    if from >= bytes.len() {
        return None;
    }
    if from == 0 {
        return Some(0);
    }
    let (_, after) = bytes.split_at(from - 1);
    match memchr(separator, after) {
        Some(end) if from + end < bytes.len() => Some(from + end),
        _ => None,
    }
}
