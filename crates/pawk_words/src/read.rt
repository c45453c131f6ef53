//! Words are read.

ghost use Rattle.std.specs.Prelude.{◌≡◌, ◌<◌, ◌≤◌, ◌+◌, ◌^◌, ℕ, pos, neg_ℤ, List, length, drop, slice_index};
ghost use Rattle.std.specs.Prelude.{IfOk, OnErr, IsOkAnd, IfSome, IfNone, IsSomeAnd};
ghost use Rattle.pawk_words.specs.declared.word.Gap.{Gap};
ghost use Rattle.pawk_words.specs.Words as spec;
ghost use Rattle.pawk_words.specs.Words.{shown, Begins};
ghost use Rattle.std.specs.Char.{is_ascii_digit, is_ascii_lowercase};
ghost use Rattle.std.specs.List.{prefix_len};
ghost use Rattle.pawk_words.specs.Reading.{IsInFront, IsCutShort, IsDamaged, Reads};
ghost use Rattle.pawk_words.specs.Reading.{ReadsGap, ReadsText};

use crate::digits::decimal_front;
use crate::limits::{NAME_LIMIT, SIZE_LIMIT};
use crate::word::{Gap, Word, gap_of};
use thiserror::Error;

/// A word that was read.
#[derive(Clone, Copy)]
pub struct ReadWord<'a> {
    /// The word.
    pub word: Word<'a>,
    /// The gap after it.
    pub gap: Gap,
    /// How many bytes the word and its gap take.
    pub length: usize,
}

/// No word is in front of the bytes, whatever comes after them.
#[derive(Clone, Copy, Debug, Drop, Error)]
#[error("the bytes are no word of a table file")]
pub struct Damage;

/// How many lower-case letters are in front of the bytes.
fn count_letters(bytes: &[u8]) -> usize
    ensures value { result ≡ prefix_len is_ascii_lowercase bytes.now }
    ensures within { result ≤ length bytes.now }
{
    bytes
        .iter()
        .take_while(|byte| byte.is_ascii_lowercase())
        .count()
}

/// The word, which took so many bytes, with the gap that is in front of the rest. `Damage` where another byte is there.
fn with_gap<'a>(word: Word<'a>, taken: usize, rest: &[u8]) -> Result<Option<ReadWord<'a>>, Damage>
    requires { taken + length rest.now < 2 ^ 64 }
    ensures { ReadsGap word.entry taken rest.now result }
{
    match rest {
        [] => Ok(None),
        [byte, ..] => match gap_of(*byte) {
            Some(gap) => Ok(Some(ReadWord {
                word,
                gap,
                length: taken + 1,
            })),
            None => Err(Damage),
        },
    }
}

/// The name in front of bytes that begin with a letter.
fn read_name(bytes: &[u8]) -> Result<Option<ReadWord<'_>>, Damage>
    requires { 0 < prefix_len is_ascii_lowercase bytes.now }
    ensures { Reads bytes.now result }
{
    let count = count_letters(bytes);
    if count > NAME_LIMIT {
        return Err(Damage);
    }
    let (letters, rest) = bytes.split_at(count);
    with_gap(Word::Name(letters), count, rest)
}

/// The text whose length was read, from its first byte on.
fn read_text(taken: usize, size: u128, bytes: &[u8]) -> Result<Option<ReadWord<'_>>, Damage>
    requires { taken + length bytes.now < 2 ^ 64 }
    ensures { ReadsText taken size bytes.now result }
{
    if size >= bytes.len() as u128 {
        return Ok(None);
    }
    let (text, rest) = bytes.split_at(size as usize);
    with_gap(Word::Text(text), taken + size as usize, rest)
}

/// The bytes after the first.
fn after_first(bytes: &[u8]) -> &[u8]
    requires { 0 < length bytes.now }
    ensures { result.now ≡ drop 1 bytes.now }
{
    &bytes[1..]
}

/// The number or the text in front of bytes that begin with a digit.
fn read_from_digit(bytes: &[u8]) -> Result<Option<ReadWord<'_>>, Damage>
    requires { 0 < prefix_len is_ascii_digit bytes.now }
    ensures { Reads bytes.now result }
{
    let Some(digits) = decimal_front(bytes) else {
        return Err(Damage);
    };
    let (_, rest) = bytes.split_at(digits.count);
    if rest.is_empty() || rest[0] != b':' {
        return with_gap(Word::Number(digits.size as i128), digits.count, rest);
    }
    read_text(digits.count + 1, digits.size, after_first(rest))
}

/// The number below 0 of this size.
fn below_zero(size: u128) -> i128
    requires { size ≤ SIZE_LIMIT }
    ensures { result ≡ neg_ℤ (pos size) }
{
    -(size as i128)
}

/// The number below 0 in front of bytes that begin with a minus.
fn read_below_zero(bytes: &[u8]) -> Result<Option<ReadWord<'_>>, Damage>
    requires some { 0 < length bytes.now }
    requires minus { slice_index bytes.now 0 ≡ 45 }
    ensures { Reads bytes.now result }
{
    let rest = after_first(bytes);
    let Some(digits) = decimal_front(rest) else {
        return Err(Damage);
    };
    if digits.count == 0 {
        return Ok(None);
    }
    if digits.size == 0 {
        return Err(Damage);
    }
    let (_, rest) = rest.split_at(digits.count);
    with_gap(
        Word::Number(below_zero(digits.size)),
        digits.count + 1,
        rest,
    )
}

/// What is in front of the bytes, by its first byte.
fn read_front(bytes: &[u8]) -> Result<Option<ReadWord<'_>>, Damage>
    ensures { Reads bytes.now result }
{
    if bytes.is_empty() {
        return Ok(None);
    }
    let first = bytes[0];
    if first.is_ascii_lowercase() {
        read_name(bytes)
    } else if first.is_ascii_digit() {
        read_from_digit(bytes)
    } else if first == b'-' {
        read_below_zero(bytes)
    } else {
        Err(Damage)
    }
}

/// The word in front of the bytes, with the gap after it, and how many bytes they take. `None` where the bytes end too
/// early: no word with its gap is in front, but one is in front of some bytes that go on from them. It takes no memory.
///
/// `Damage` where no word is in front, whatever comes after the bytes.
pub fn read_word(bytes: &[u8]) -> Result<Option<ReadWord<'_>>, Damage>
    ensures found { IfOk result (λ answer. IfSome answer (λ found.
        IsInFront bytes.now (shown found.word) found.gap found.length)) }
    ensures short { IfOk result (λ answer. IfNone answer (IsCutShort bytes.now)) }
    ensures damage { OnErr result (IsDamaged bytes.now) }
    ensures again { (w : spec.Word) (g : Gap) (rest : List ℕ) → Begins bytes.now w g rest →
        IsOkAnd result (λ answer. IsSomeAnd answer (λ found. (shown found.word ≡ w)
        × (found.gap ≡ g) × (drop found.length bytes.now ≡ rest))) }
{
    read_front(bytes)
}
