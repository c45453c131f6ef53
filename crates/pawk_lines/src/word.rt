//! One word of a kind is read.

ghost use Rattle.std.specs.Prelude.{◌≡◌, ◌≢◌, ◌≤◌, ◌++◌, ℕ, ℤ, List, IfOk, IfSome, IfNone, OnErr, MatchOption, MatchResult};
ghost use Rattle.pawk_words.specs.Words as words;
ghost use Rattle.pawk_words.specs.Words.{number, text, written, Begins, size_limit};
ghost use Rattle.pawk_words.specs.Reading as reading;
ghost use Rattle.pawk_value.specs.Range.{FitsWord};
ghost use Rattle.pawk_lines.specs.Lines.{IsCount, IsText, count};
ghost use Rattle.pawk_lines.specs.Reading.{Fails, IsWithin, Numbers, Texts, may_begin_text};

use crate::failure::{Failure, cut};
use crate::number::{COUNTS, Range, VALUES, begins_number, is_within};
use pawk_words::{Damage, Gap, Word, read_word};

/// The word in front of the bytes, if this gap is after it, and what follows the gap.
#[inline(always)]
fn next_word(bytes: &[u8], gap: Gap) -> Result<Option<(Word<'_>, &[u8])>, Damage>
    ensures found { IfOk result (λ answer. IfSome answer (λ found.
        Begins bytes.now (words.shown found.0) gap found.1.now)) }
    ensures short { IfOk result (λ answer. IfNone answer (reading.IsCutShort bytes.now)) }
    ensures damage { OnErr result ((more : List ℕ) (w : words.Word) (rest : List ℕ) →
        ¬ Begins (bytes.now ++ more) w gap rest) }
{
    match read_word(bytes) {
        Ok(Some(found)) => {
            if found.gap == gap {
                Ok(Some((found.word, &bytes[found.length..])))
            } else {
                Err(Damage)
            }
        }
        Ok(None) => Ok(None),
        Err(damage) => Err(damage),
    }
}

/// The number that a word is, if it is one of the range.
#[inline(always)]
fn number_in(word: Word<'_>, range: Range) -> Option<i128>
    ensures { MatchOption result
        ((z : ℤ) → IsWithin range.below range.above z → words.shown word.entry ≢ number z)
        (λ z. IsWithin range.below range.above z × (words.shown word.entry ≡ number z)) }
{
    match word {
        Word::Number(number) => {
            if is_within(number, range) {
                Some(number)
            } else {
                None
            }
        }
        _ => None,
    }
}

/// The number of the range in front of the bytes, with this gap after it, and what follows.
pub(crate) fn read_number(bytes: &[u8], range: Range, gap: Gap) -> Result<(i128, &[u8]), Failure>
    requires below { range.below ≤ size_limit }
    requires above { range.above ≤ size_limit }
    ensures { MatchResult result
        (λ found. IsWithin range.below range.above found.0
        × (bytes.now ≡ written (number found.0) gap ++ found.1.now))
        (Fails (Numbers range.below range.above gap) bytes.now) }
{
    match next_word(bytes, gap) {
        Ok(Some((word, rest))) => match number_in(word, range) {
            Some(number) => Ok((number, rest)),
            None => Err(Failure::Damage),
        },
        Ok(None) => Err(cut(begins_number(bytes, range))),
        Err(_) => Err(Failure::Damage),
    }
}

/// The number of 64 bits without a sign in front of the bytes, with this gap after it, and what follows.
pub(crate) fn read_count(bytes: &[u8], gap: Gap) -> Result<(u64, &[u8]), Failure>
    ensures { MatchResult result
        (λ found. IsCount found.0 × (bytes.now ≡ written (count found.0) gap ++ found.1.now))
        (Fails (Numbers COUNTS.below COUNTS.above gap) bytes.now) }
{
    let (number, rest) = read_number(bytes, COUNTS, gap)?;
    Ok((number as u64, rest))
}

/// The number of 64 bits with a sign in front of the bytes, with this gap after it, and what follows.
pub(crate) fn read_value(bytes: &[u8], gap: Gap) -> Result<(i64, &[u8]), Failure>
    ensures { MatchResult result
        (λ found. FitsWord found.0 × (bytes.now ≡ written (number found.0) gap ++ found.1.now))
        (Fails (Numbers VALUES.below VALUES.above gap) bytes.now) }
{
    let (number, rest) = read_number(bytes, VALUES, gap)?;
    Ok((number as i64, rest))
}

/// Whether the bytes may be the first of a text.
fn begins_text(bytes: &[u8]) -> bool
    ensures { result ≡ may_begin_text bytes.now }
{
    match bytes {
        [] => true,
        [first, ..] => first.is_ascii_digit(),
    }
}

/// The text in front of the bytes, with this gap after it, and what follows.
pub(crate) fn read_text(bytes: &[u8], gap: Gap) -> Result<(&[u8], &[u8]), Failure>
    ensures { MatchResult result
        (λ found. IsText found.0.now
        × (bytes.now ≡ written (text found.0.now) gap ++ found.1.now))
        (Fails (Texts gap) bytes.now) }
{
    match next_word(bytes, gap) {
        Ok(Some((word, rest))) => match word {
            Word::Text(text) => Ok((text, rest)),
            _ => Err(Failure::Damage),
        },
        Ok(None) => Err(cut(begins_text(bytes))),
        Err(_) => Err(Failure::Damage),
    }
}
