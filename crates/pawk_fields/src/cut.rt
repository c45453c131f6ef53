//! Where a field ends.

ghost use Rattle.std.specs.Prelude.{◌≡◌, ◌+◌, ◌<◌, ◌≤◌, ℕ, List, length, IfSome, MatchOption};
ghost use Rattle.memchr.specs.Find.{IsFirst};
ghost use Rattle.pawk_fields.specs.Between.{IsNewline};
ghost use Rattle.pawk_fields.specs.FieldWalks.{IsNextMatch};
ghost use Rattle.pawk_fields.specs.Cut.{IsCut, IsWithin};

use memchr::memchr;

/// What is known of the next match that is not empty: where it starts, and the byte after it.
#[derive(Clone, Copy)]
pub(crate) enum Ahead {
    /// It was not looked for.
    Unknown,
    /// It is this one, or there is none.
    Known(Option<(usize, usize)>),
}

/// The end of a field, in bytes counted from 0.
#[derive(Clone, Copy)]
pub(crate) struct Cut {
    /// The byte after the field.
    pub(crate) end: usize,
    /// Where the next field begins, if there is one.
    pub(crate) next: Option<usize>,
    /// The next match from there on.
    pub(crate) ahead: Ahead,
}

/// The first newline from a place up to another, if newlines separate.
#[inline]
fn find_newline(text: &[u8], paragraph: bool, from: usize, to: usize) -> Option<usize>
    requires ordered { from ≤ to }
    requires within { to ≤ length text.now }
    ensures { IsFirst (IsNewline paragraph text.now) from to result }
{
    if !paragraph {
        return None;
    }
    match memchr(b'\n', &text[from..to]) {
        None => None,
        Some(ahead) => Some(from + ahead),
    }
}

/// Where a match starts, or the end of the text.
#[inline]
fn match_start(text: &[u8], found: Option<(usize, usize)>) -> usize
    ensures { MatchOption found (result ≡ length text.now) (λ m. result ≡ m.0) }
{
    match found {
        Some((start, _)) => start,
        None => text.len(),
    }
}

/// The end of the field that begins at a place, from the next match that is not empty.
#[inline]
pub(crate) fn cut_at(
    text: &[u8],
    paragraph: bool,
    from: usize,
    found: Option<(usize, usize)>,
) -> Cut
    requires within { from ≤ length text.now }
    requires found { IsWithin text.now from found }
    ensures cut { (pattern : List ℕ) → IsNextMatch pattern text.now from found
        → IsCut pattern paragraph text.now from result }
    ensures end { (from ≤ result.end) × (result.end ≤ length text.now) }
    ensures next { IfSome result.next (λ p. (from < p) × (p ≤ length text.now)) }
{
    let stop = match_start(text, found);
    if let Some(newline) = find_newline(text, paragraph, from, stop) {
        return Cut {
            end: newline,
            next: Some(newline + 1),
            ahead: Ahead::Known(found),
        };
    }
    match found {
        Some((start, end)) => Cut {
            end: start,
            next: Some(end),
            ahead: Ahead::Unknown,
        },
        None => Cut {
            end: text.len(),
            next: None,
            ahead: Ahead::Unknown,
        },
    }
}
