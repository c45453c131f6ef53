//! Lines are read.

ghost use Rattle.std.specs.Prelude.{◌≡◌, ◌++◌, ℕ, List, drop, IfOk, OnErr, IsOkAnd, IfSome, IfNone, IsSomeAnd, MatchResult};
ghost use Rattle.pawk_words.specs.Words.{written_all};
ghost use Rattle.pawk_lines.specs.Lines as spec;
ghost use Rattle.pawk_lines.specs.Lines.{shown, shown_mark, IsMark, mark_words, BeginsLine};
ghost use Rattle.pawk_lines.specs.Reading.{IsInFront, IsCutShort, IsDamaged, Fails, Lines, Marks, AfterLine, AfterMark, IsLineAfter, IsMarkAfter};

use crate::element::whole_element;
use crate::failure::Failure;
use crate::line::{Line, Mark};
use crate::name::{LINE_NAMES, MARK_NAMES, MarkName, Name, NumberLine, TextLine, read_name};
use crate::number::SUMS;
use crate::word::{read_count, read_number, read_text, read_value};
use pawk_value::ValueRef;
use pawk_words::{Damage, Gap};

/// A line that was read.
#[derive(Clone, Copy)]
pub struct ReadLine<'a> {
    /// The line.
    pub line: Line<'a>,
    /// How many bytes it takes, with its newline.
    pub length: usize,
}

/// What follows `add `.
fn read_added(bytes: &[u8]) -> Result<(Mark<'_>, &[u8]), Failure>
    ensures { MatchResult result (λ found.
        IsMarkAfter (Name.Mark MarkName.Added) bytes.now (shown_mark found.0) found.1.now)
        (Fails (AfterMark (Name.Mark MarkName.Added)) bytes.now) }
{
    let (sum, rest) = read_number(bytes, SUMS, Gap::Newline)?;
    Ok((Mark::Added(sum), rest))
}

/// What follows `sum `.
fn read_sum(bytes: &[u8]) -> Result<(Mark<'_>, &[u8]), Failure>
    ensures { MatchResult result
        (λ found. IsMarkAfter (Name.Mark MarkName.Sum) bytes.now (shown_mark found.0) found.1.now)
        (Fails (AfterMark (Name.Mark MarkName.Sum)) bytes.now) }
{
    let (total, rest) = read_number(bytes, SUMS, Gap::Space)?;
    let (least, rest) = read_number(rest, SUMS, Gap::Space)?;
    let (greatest, rest) = read_number(rest, SUMS, Gap::Newline)?;
    let mark = Mark::Sum {
        total,
        least,
        greatest,
    };
    Ok((mark, rest))
}

/// What follows the name of a mark.
fn after_mark_name(name: MarkName, bytes: &[u8]) -> Result<(Mark<'_>, &[u8]), Failure>
    ensures { MatchResult result
        (λ found. IsMarkAfter (Name.Mark name) bytes.now (shown_mark found.0) found.1.now)
        (Fails (AfterMark (Name.Mark name)) bytes.now) }
{
    match name {
        MarkName::Added => read_added(bytes),
        MarkName::Sum => read_sum(bytes),
        MarkName::Unset => Ok((Mark::Put(ValueRef::Uninit), bytes)),
        MarkName::Number => {
            let (number, rest) = read_value(bytes, Gap::Newline)?;
            Ok((Mark::Put(ValueRef::Num(number)), rest))
        }
        MarkName::Text => {
            let (text, rest) = read_text(bytes, Gap::Newline)?;
            Ok((Mark::Put(ValueRef::Text(text)), rest))
        }
        MarkName::Maybe => {
            let (text, rest) = read_text(bytes, Gap::Newline)?;
            Ok((Mark::Put(ValueRef::Maybe(text)), rest))
        }
        MarkName::Created => Ok((Mark::Created, bytes)),
    }
}

/// The mark in front of the bytes, and what follows it.
pub(crate) fn read_mark(bytes: &[u8]) -> Result<(Mark<'_>, &[u8]), Failure>
    ensures { MatchResult result
        (λ found. IsMark (shown_mark found.0)
        × (bytes.now ≡ written_all (mark_words (shown_mark found.0)) ++ found.1.now))
        (Fails Marks bytes.now) }
{
    let (name, rest) = read_name(&MARK_NAMES, bytes)?;
    match name {
        Name::Mark(mark) => after_mark_name(mark, rest),
        _ => Err(Failure::Damage),
    }
}

/// What follows the name of a line of one number.
fn after_number_name(name: NumberLine, bytes: &[u8]) -> Result<(Line<'_>, &[u8]), Failure>
    ensures { MatchResult result
        (λ found. IsLineAfter (Name.Number name) bytes.now (shown found.0) found.1.now)
        (Fails (AfterLine (Name.Number name)) bytes.now) }
{
    let (number, rest) = read_count(bytes, Gap::Newline)?;
    Ok((name.line(number), rest))
}

/// What follows the name of a line of one text.
fn after_text_name(name: TextLine, bytes: &[u8]) -> Result<(Line<'_>, &[u8]), Failure>
    ensures { MatchResult result
        (λ found. IsLineAfter (Name.Text name) bytes.now (shown found.0) found.1.now)
        (Fails (AfterLine (Name.Text name)) bytes.now) }
{
    let (text, rest) = read_text(bytes, Gap::Newline)?;
    Ok((name.line(text), rest))
}

/// What follows `assign `.
fn read_assign(bytes: &[u8]) -> Result<(Line<'_>, &[u8]), Failure>
    ensures { MatchResult result
        (λ found. IsLineAfter Name.Assign bytes.now (shown found.0) found.1.now)
        (Fails (AfterLine Name.Assign) bytes.now) }
{
    let (name, rest) = read_text(bytes, Gap::Space)?;
    let (value, rest) = read_text(rest, Gap::Newline)?;
    Ok((Line::Assign { name, value }, rest))
}

/// What follows `shard `.
fn read_shard(bytes: &[u8]) -> Result<(Line<'_>, &[u8]), Failure>
    ensures { MatchResult result
        (λ found. IsLineAfter Name.Shard bytes.now (shown found.0) found.1.now)
        (Fails (AfterLine Name.Shard) bytes.now) }
{
    let (first, rest) = read_count(bytes, Gap::Space)?;
    let (last, rest) = read_count(rest, Gap::Space)?;
    let (of, rest) = read_count(rest, Gap::Newline)?;
    Ok((Line::Shard { first, last, of }, rest))
}

/// What follows `scalar `.
fn read_scalar(bytes: &[u8]) -> Result<(Line<'_>, &[u8]), Failure>
    ensures { MatchResult result
        (λ found. IsLineAfter Name.Scalar bytes.now (shown found.0) found.1.now)
        (Fails (AfterLine Name.Scalar) bytes.now) }
{
    let (slot, rest) = read_count(bytes, Gap::Space)?;
    let (mark, rest) = read_mark(rest)?;
    Ok((Line::Scalar { slot, mark }, rest))
}

/// What follows `key `.
fn read_element(bytes: &[u8]) -> Result<(Line<'_>, &[u8]), Failure>
    ensures { MatchResult result
        (λ found. IsLineAfter Name.Element bytes.now (shown found.0) found.1.now)
        (Fails (AfterLine Name.Element) bytes.now) }
{
    let (key, rest) = read_text(bytes, Gap::Space)?;
    let (mark, rest) = read_mark(rest)?;
    Ok((Line::Element { key, mark }, rest))
}

/// What follows `last `.
fn read_last(bytes: &[u8]) -> Result<(Line<'_>, &[u8]), Failure>
    ensures { MatchResult result
        (λ found. IsLineAfter Name.Last bytes.now (shown found.0) found.1.now)
        (Fails (AfterLine Name.Last) bytes.now) }
{
    let (fnr, rest) = read_count(bytes, Gap::Space)?;
    let (bytes, rest) = read_text(rest, Gap::Newline)?;
    Ok((Line::Last { fnr, bytes }, rest))
}

/// What follows the name of a line.
fn after_line_name(name: Name, bytes: &[u8]) -> Result<(Line<'_>, &[u8]), Failure>
    ensures { MatchResult result
        (λ found. IsLineAfter name bytes.now (shown found.0) found.1.now)
        (Fails (AfterLine name) bytes.now) }
{
    match name {
        Name::Number(line) => after_number_name(line, bytes),
        Name::Text(line) => after_text_name(line, bytes),
        Name::Assign => read_assign(bytes),
        Name::Shard => read_shard(bytes),
        Name::Scalar => read_scalar(bytes),
        Name::Element => read_element(bytes),
        Name::Last => read_last(bytes),
        Name::Mark(_) => Err(Failure::Damage),
    }
}

/// The line in front of the bytes, and what follows it.
fn read_front(bytes: &[u8]) -> Result<(Line<'_>, &[u8]), Failure>
    ensures { MatchResult result
        (λ found. BeginsLine bytes.now (shown found.0) found.1.now)
        (Fails Lines bytes.now) }
{
    if let Some(found) = whole_element(bytes) {
        return Ok(found);
    }
    let (name, rest) = read_name(&LINE_NAMES, bytes)?;
    after_line_name(name, rest)
}

/// The line in front of the bytes, and how many bytes it takes. `None` where the bytes end too early: no line is in
/// front, but one is in front of some bytes that go on from them. It takes no memory.
///
/// `Damage` where no line is in front, whatever comes after the bytes.
pub fn read_line(bytes: &[u8]) -> Result<Option<ReadLine<'_>>, Damage>
    ensures found { IfOk result (λ answer. IfSome answer (λ found.
        IsInFront bytes.now (shown found.line) found.length)) }
    ensures short { IfOk result (λ answer. IfNone answer (IsCutShort bytes.now)) }
    ensures damage { OnErr result (IsDamaged bytes.now) }
    ensures again { (l : spec.Line) (rest : List ℕ) → BeginsLine bytes.now l rest →
        IsOkAnd result (λ answer. IsSomeAnd answer (λ found. (shown found.line ≡ l)
        × (drop found.length bytes.now ≡ rest))) }
{
    match read_front(bytes) {
        Ok((line, rest)) => Ok(Some(ReadLine {
            line,
            length: bytes.len() - rest.len(),
        })),
        Err(Failure::Short) => Ok(None),
        Err(Failure::Damage) => Err(Damage),
    }
}
