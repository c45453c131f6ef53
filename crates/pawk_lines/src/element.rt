//! Whole lines of elements, of which tables are made for the most part.

ghost use Rattle.std.specs.Prelude.{◌≡◌, ◌<◌, ◌≤◌, ◌++◌, ◌∷◌, IfSome};
ghost use Rattle.std.specs.Fmt.{decimal, signed_decimal};
ghost use Rattle.pawk_words.specs.Words.{IsWord, number, size_limit, text, written_all, written_word};
ghost use Rattle.pawk_lines.specs.Lines.{shown, shown_mark, IsMark, IsText, mark_words, BeginsLine};

use crate::line::{Line, Mark};
use crate::name::after;
use crate::read::read_mark;
use pawk_value::ValueRef;
use pawk_words::decimal_front;

/// The number in decimal in front of the bytes, with this byte after it, and what follows.
fn number_before(end: u8, bytes: &[u8]) -> Option<(u128, &[u8])>
    ensures { IfSome result (λ found. (found.0 ≤ size_limit)
        × (bytes.now ≡ decimal found.0 ++ end ∷ found.1.now)) }
{
    let digits = decimal_front(bytes)?;
    let (_, rest) = bytes.split_at(digits.count);
    match rest {
        [first, rest @ ..] => {
            if *first == end {
                Some((digits.size, rest))
            } else {
                None
            }
        }
        [] => None,
    }
}

/// The text in front of the bytes, with this byte after it, and what follows.
fn text_before(end: u8, bytes: &[u8]) -> Option<(&[u8], &[u8])>
    ensures { IfSome result (λ found. IsText found.0.now
        × (bytes.now ≡ written_word (text found.0.now) ++ end ∷ found.1.now)) }
{
    let (size, rest) = number_before(b':', bytes)?;
    if size >= rest.len() as u128 {
        return None;
    }
    let (text, rest) = rest.split_at(size as usize);
    match rest {
        [first, rest @ ..] => {
            if *first == end {
                Some((text, rest))
            } else {
                None
            }
        }
        [] => None,
    }
}

/// The number below 0 of this size.
fn below_zero(size: u128) -> i128
    requires some { 0 < size }
    requires small { size ≤ size_limit }
    ensures word { IsWord (number result) }
    ensures decimal { signed_decimal result ≡ 45 ∷ decimal size }
{
    -(size as i128)
}

/// The number in front of the bytes, with this byte after it, and what follows.
fn signed_before(end: u8, bytes: &[u8]) -> Option<(i128, &[u8])>
    ensures { IfSome result (λ found. IsWord (number found.0)
        × (bytes.now ≡ signed_decimal found.0 ++ end ∷ found.1.now)) }
{
    if let Some((size, rest)) = number_before(end, bytes) {
        return Some((size as i128, rest));
    }
    let digits = after(b"-", bytes).ok()?;
    let (size, rest) = number_before(end, digits)?;
    if size == 0 {
        return None;
    }
    Some((below_zero(size), rest))
}

/// The mark of a sum in front of the bytes that is each sum on the way, and what follows.
fn added_mark(bytes: &[u8]) -> Option<(Mark<'_>, &[u8])>
    ensures { IfSome result (λ found. IsMark (shown_mark found.0)
        × (bytes.now ≡ written_all (mark_words (shown_mark found.0)) ++ found.1.now)) }
{
    let rest = after(b"add ", bytes).ok()?;
    let (total, rest) = signed_before(b'\n', rest)?;
    Some((Mark::Added(total), rest))
}

/// The mark of a sum and its extremes in front of the bytes, and what follows.
fn sum_mark(bytes: &[u8]) -> Option<(Mark<'_>, &[u8])>
    ensures { IfSome result (λ found. IsMark (shown_mark found.0)
        × (bytes.now ≡ written_all (mark_words (shown_mark found.0)) ++ found.1.now)) }
{
    let Ok(rest) = after(b"sum ", bytes) else {
        return None;
    };
    let (total, rest) = signed_before(b' ', rest)?;
    let (least, rest) = signed_before(b' ', rest)?;
    let (greatest, rest) = signed_before(b'\n', rest)?;
    let mark = Mark::Sum {
        total,
        least,
        greatest,
    };
    Some((mark, rest))
}

/// The mark of a text in front of the bytes, and what follows.
fn text_mark(bytes: &[u8]) -> Option<(Mark<'_>, &[u8])>
    ensures { IfSome result (λ found. IsMark (shown_mark found.0)
        × (bytes.now ≡ written_all (mark_words (shown_mark found.0)) ++ found.1.now)) }
{
    let rest = after(b"text ", bytes).ok()?;
    let (text, rest) = text_before(b'\n', rest)?;
    Some((Mark::Put(ValueRef::Text(text)), rest))
}

/// The mark of a text that may look numeric in front of the bytes, and what follows.
fn maybe_mark(bytes: &[u8]) -> Option<(Mark<'_>, &[u8])>
    ensures { IfSome result (λ found. IsMark (shown_mark found.0)
        × (bytes.now ≡ written_all (mark_words (shown_mark found.0)) ++ found.1.now)) }
{
    let rest = after(b"maybe ", bytes).ok()?;
    let (text, rest) = text_before(b'\n', rest)?;
    Some((Mark::Put(ValueRef::Maybe(text)), rest))
}

/// The mark of a sum or of a text in front of the bytes, by their first byte, and what follows.
fn frequent_mark(bytes: &[u8]) -> Option<(Mark<'_>, &[u8])>
    ensures { IfSome result (λ found. IsMark (shown_mark found.0)
        × (bytes.now ≡ written_all (mark_words (shown_mark found.0)) ++ found.1.now)) }
{
    match bytes {
        [b'a', ..] => added_mark(bytes),
        [b's', ..] => sum_mark(bytes),
        [b't', ..] => text_mark(bytes),
        [b'm', ..] => maybe_mark(bytes),
        _ => None,
    }
}

/// The mark in front of the bytes, and what follows.
fn whole_mark(bytes: &[u8]) -> Option<(Mark<'_>, &[u8])>
    ensures { IfSome result (λ found. IsMark (shown_mark found.0)
        × (bytes.now ≡ written_all (mark_words (shown_mark found.0)) ++ found.1.now)) }
{
    match frequent_mark(bytes) {
        Some(found) => Some(found),
        None => read_mark(bytes).ok(),
    }
}

/// The line of an element in front of the bytes, and what follows it.
pub(crate) fn whole_element(bytes: &[u8]) -> Option<(Line<'_>, &[u8])>
    ensures { IfSome result (λ found. BeginsLine bytes.now (shown found.0) found.1.now) }
{
    let rest = after(b"key ", bytes).ok()?;
    let (key, rest) = text_before(b' ', rest)?;
    let (mark, rest) = whole_mark(rest)?;
    Some((Line::Element { key, mark }, rest))
}
