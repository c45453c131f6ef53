//! The topic `ere`: extended regular expressions.
//!
//! A row has fields between semicolons. Expressions and texts are parts, each as how often it stands and its bytes, parted by
//! tabs: `3`, `a` and `1`, `*` are `aaa*`. In bytes a backslash with three octal digits is the byte of that value.
//!
//! | row | answer |
//! |---|---|
//! | `parse;EXPRESSION` | `ok` where the expression is read, else the number of its refusal |
//! | `words;EXPRESSION` | the words of which each text that matches holds one, or `none` where none are known |
//! | `row;EXPRESSION;FROM;TEXT` | where the match is: the byte where it starts and the byte after it, or `none` |
//! | `states;EXPRESSION;FROM;TEXT` | the same, and whether the table of states was emptied |
//! | `all;EXPRESSION` | the same for the texts below from the bytes 0, 1 and 3 on |
//!
//! A question is known by its first letter. Where memory is refused to a search, the matcher is asked again.

ghost use Rattle.std.specs.Prelude.{◌≤◌, length};

use crate::text::{number, piece, push_decimal, push_parts};
use pawk_ere::{Ere, Matcher, needed_words_of};
use std::alloc::{AllocError, Global};

/// In those of 64 bytes or more a matcher looks for words first.
const TEXTS: [&[u8]; 14] = [
    b"",
    b"a",
    b"ab",
    b"abcab",
    b"aabb",
    b"bababa",
    b"ccaabbc",
    b"abababa",
    b"bbbbbbbbbbbbbbbbbbbbbbbbbbbbbbbbbbbbbbbbbbbbbbbbbbbbbbbbbbbbbbbb",
    b"ccccccccccccccccccccccccccccccccccccccccccccccccccccccccccccccab",
    b"bababababababababababababababababababababababababababababababababa",
    b"aabcccccccccccccccccccccccccccccccccccccccccccccccccccccccccccccccccccc",
    b"ccccccccccccccccccccccccccccccabacccccccccccccccccccccccccccccccccbb",
    b"abcabcccccccccccccccccccccccccccccccccccccccccccccccccccccccccccc",
];

/// The places where the search in one of those texts begins.
const PLACES: [usize; 3] = [0, 1, 3];

/// Adds the words that an expression needs, with blanks between them.
fn push_words(alloc: Global, ere: &Ere, out: &mut Vec<u8>) -> Result<(), AllocError> {
    let words = needed_words_of(alloc, ere)?;
    if words.is_empty() {
        return out.extend_from_slice(b"none");
    }
    for word in words.as_slice() {
        out.extend_from_slice(if out.is_empty() { b"" } else { b" " })?;
        out.extend_from_slice(word.needle())?;
    }
    Ok(())
}

/// Adds where a match is.
fn push_place(found: Option<(usize, usize)>, out: &mut Vec<u8>) -> Result<(), AllocError> {
    match found {
        None => out.extend_from_slice(b"none"),
        Some((start, end)) => {
            push_decimal(start as u64, out)?;
            out.extend_from_slice(b"-")?;
            push_decimal(end as u64, out)
        }
    }
}

/// What a matcher finds, asked again where memory was refused.
fn find(
    matcher: &mut Matcher,
    text: &[u8],
    from: usize,
) -> Result<Option<(usize, usize)>, AllocError>
    requires { from ≤ length text.now }
{
    match matcher.find(text, from) {
        Ok(found) => Ok(found),
        Err(_) => matcher.find(text, from),
    }
}

/// Adds the answers for a text from each place, with blanks between them.
fn push_from_places(
    matcher: &mut Matcher,
    text: &[u8],
    out: &mut Vec<u8>,
) -> Result<(), AllocError> {
    for from in PLACES {
        if from <= text.len() {
            out.extend_from_slice(if out.is_empty() { b"" } else { b" " })?;
            push_place(find(matcher, text, from)?, out)?;
        }
    }
    Ok(())
}

/// Adds the answers for the texts above.
fn push_all(matcher: &mut Matcher, out: &mut Vec<u8>) -> Result<(), AllocError> {
    for text in TEXTS {
        push_from_places(matcher, text, out)?;
    }
    Ok(())
}

/// The bytes of a field's parts.
fn joined(alloc: Global, field: &[u8]) -> Result<Vec<u8>, AllocError> {
    let mut bytes = Vec::new(alloc);
    push_parts(alloc, field, &mut bytes)?;
    Ok(bytes)
}

/// Adds the answer for a text from a place on.
fn push_one(
    alloc: Global,
    matcher: &mut Matcher,
    row: &[u8],
    out: &mut Vec<u8>,
) -> Result<(), AllocError> {
    let text = joined(alloc, piece(row, b';', 3))?;
    let from = number(piece(row, b';', 2)) as usize;
    if from > text.len() {
        return out.extend_from_slice(b"no such place");
    }
    push_place(find(matcher, text.as_slice(), from)?, out)?;
    if row.first() == Some(&b's') {
        let emptied = matcher.emptyings() > 0;
        out.extend_from_slice(if emptied { b" emptied" } else { b" kept" })?;
    }
    Ok(())
}

/// Adds the answer to a row on matches.
fn push_matches(alloc: Global, ere: &Ere, row: &[u8], out: &mut Vec<u8>) -> Result<(), AllocError> {
    let mut matcher = Matcher::new(alloc, ere)?;
    match row.first() {
        Some(b'a') => push_all(&mut matcher, out),
        _ => push_one(alloc, &mut matcher, row, out),
    }
}

/// Adds the answer to a row on an expression.
fn push_of_ere(alloc: Global, ere: &Ere, row: &[u8], out: &mut Vec<u8>) -> Result<(), AllocError> {
    match row.first() {
        Some(b'p') => out.extend_from_slice(b"ok"),
        Some(b'w') => push_words(alloc, ere, out),
        _ => push_matches(alloc, ere, row, out),
    }
}

/// Adds the answer to a row.
pub fn push_answer(alloc: Global, row: &[u8], out: &mut Vec<u8>) -> Result<(), AllocError> {
    let pattern = joined(alloc, piece(row, b';', 1))?;
    match Ere::parse(alloc, pattern.as_slice()) {
        Ok(ere) => push_of_ere(alloc, &ere, row, out),
        Err(why) => push_decimal(u64::from(why.number()), out),
    }
}
