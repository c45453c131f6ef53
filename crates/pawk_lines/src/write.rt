//! Lines are written.

ghost use Rattle.std.specs.Prelude.{◌≡◌, ◌++◌, ◌∷◌, [], take, length, OnOk};
ghost use Rattle.pawk_words.specs.Words.{IsWord, number, written_all};
ghost use Rattle.pawk_words.specs.Words as words;
ghost use Rattle.pawk_value.specs.Value.{Num, lent_value};
ghost use Rattle.pawk_lines.specs.Lines.{shown, shown_mark, IsLine, IsMark, IsValue, IsText, line_bytes, mark_words, value_words, added, sum, assign, shard, scalar, element, last};
ghost use Rattle.pawk_lines.specs.Names.{spelling, number_line_of, text_line_of};

use crate::line::{Line, Mark};
use crate::name::{MarkName, Name, NumberLine, TextLine};
use pawk_value::ValueRef;
use pawk_words::{Gap, Word, push_word};
use std::alloc::AllocError;

/// Writes a name and the gap after it.
fn push_name(out: &mut Vec<u8>, name: Name) -> Result<(), AllocError>
    ensures written { OnOk result (out.new.items ≡ out.old.items ++ spelling name) }
    ensures kept { take (length out.old.items) out.new.items ≡ out.old.items }
{
    out.extend_from_slice(name.spelling())
}

/// Writes a mark of one text.
fn push_text_mark(out: &mut Vec<u8>, name: MarkName, text: &[u8]) -> Result<(), AllocError>
    requires { IsText text.now }
    ensures written { OnOk result (out.new.items
        ≡ out.old.items ++ (spelling (Name.Mark name)
        ++ written_all ((words.text text.now, Gap.Newline) ∷ []))) }
    ensures kept { take (length out.old.items) out.new.items ≡ out.old.items }
{
    push_name(out, Name::Mark(name))?;
    push_word(out, Word::Text(text), Gap::Newline)
}

/// Writes a mark of one number.
fn push_number_mark(out: &mut Vec<u8>, value: i64) -> Result<(), AllocError>
    ensures written { OnOk result (out.new.items ≡ out.old.items
        ++ written_all (value_words (Num value))) }
    ensures kept { take (length out.old.items) out.new.items ≡ out.old.items }
{
    push_name(out, Name::Mark(MarkName::Number))?;
    push_word(out, Word::Number(i128::from(value)), Gap::Newline)
}

/// Writes a value that was put.
fn push_value(out: &mut Vec<u8>, value: ValueRef<'_>) -> Result<(), AllocError>
    requires { IsValue (lent_value value) }
    ensures written { OnOk result (out.new.items
        ≡ out.old.items ++ written_all (value_words (lent_value value.entry))) }
    ensures kept { take (length out.old.items) out.new.items ≡ out.old.items }
{
    match value {
        ValueRef::Uninit => push_name(out, Name::Mark(MarkName::Unset)),
        ValueRef::Num(number) => push_number_mark(out, number),
        ValueRef::Text(text) => push_text_mark(out, MarkName::Text, text),
        ValueRef::Maybe(text) => push_text_mark(out, MarkName::Maybe, text),
    }
}

/// Writes a sum that is its extremes, too.
fn push_added(out: &mut Vec<u8>, sum: i128) -> Result<(), AllocError>
    requires { IsWord (number sum) }
    ensures written { OnOk result
        (out.new.items ≡ out.old.items ++ written_all (mark_words (added sum))) }
    ensures kept { take (length out.old.items) out.new.items ≡ out.old.items }
{
    push_name(out, Name::Mark(MarkName::Added))?;
    push_word(out, Word::Number(sum), Gap::Newline)
}

/// Writes a sum with its extremes.
fn push_sum(out: &mut Vec<u8>, total: i128, least: i128, greatest: i128) -> Result<(), AllocError>
    requires total { IsWord (number total) }
    requires least { IsWord (number least) }
    requires greatest { IsWord (number greatest) }
    ensures written { OnOk result (out.new.items
        ≡ out.old.items ++ written_all (mark_words (sum total least greatest))) }
    ensures kept { take (length out.old.items) out.new.items ≡ out.old.items }
{
    push_name(out, Name::Mark(MarkName::Sum))?;
    push_word(out, Word::Number(total), Gap::Space)?;
    push_word(out, Word::Number(least), Gap::Space)?;
    push_word(out, Word::Number(greatest), Gap::Newline)
}

/// Writes a mark.
fn push_mark(out: &mut Vec<u8>, mark: Mark<'_>) -> Result<(), AllocError>
    requires { IsMark (shown_mark mark) }
    ensures written { OnOk result (out.new.items
        ≡ out.old.items ++ written_all (mark_words (shown_mark mark.entry))) }
    ensures kept { take (length out.old.items) out.new.items ≡ out.old.items }
{
    match mark {
        Mark::Added(sum) => push_added(out, sum),
        Mark::Sum {
            total,
            least,
            greatest,
        } => push_sum(out, total, least, greatest),
        Mark::Put(value) => push_value(out, value),
        Mark::Created => push_name(out, Name::Mark(MarkName::Created)),
    }
}

/// Writes a line of one number.
fn push_number_line(out: &mut Vec<u8>, name: NumberLine, number: u64) -> Result<(), AllocError>
    ensures written { OnOk result (out.new.items
        ≡ out.old.items ++ line_bytes (number_line_of name number)) }
    ensures kept { take (length out.old.items) out.new.items ≡ out.old.items }
{
    push_name(out, Name::Number(name))?;
    push_word(out, Word::Number(i128::from(number)), Gap::Newline)
}

/// Writes a line of one text.
fn push_text_line(out: &mut Vec<u8>, name: TextLine, text: &[u8]) -> Result<(), AllocError>
    requires { IsText text.now }
    ensures written { OnOk result (out.new.items
        ≡ out.old.items ++ line_bytes (text_line_of name text.now)) }
    ensures kept { take (length out.old.items) out.new.items ≡ out.old.items }
{
    push_name(out, Name::Text(name))?;
    push_word(out, Word::Text(text), Gap::Newline)
}

/// Writes an assignment.
fn push_assign(out: &mut Vec<u8>, name: &[u8], value: &[u8]) -> Result<(), AllocError>
    requires name { IsText name.now }
    requires value { IsText value.now }
    ensures written { OnOk result
        (out.new.items ≡ out.old.items ++ line_bytes (assign name.now value.now)) }
    ensures kept { take (length out.old.items) out.new.items ≡ out.old.items }
{
    push_name(out, Name::Assign)?;
    push_word(out, Word::Text(name), Gap::Space)?;
    push_word(out, Word::Text(value), Gap::Newline)
}

/// Writes which shards of how many they are.
fn push_shard(out: &mut Vec<u8>, first: u64, last: u64, of: u64) -> Result<(), AllocError>
    ensures written { OnOk result
        (out.new.items ≡ out.old.items ++ line_bytes (shard first last of)) }
    ensures kept { take (length out.old.items) out.new.items ≡ out.old.items }
{
    push_name(out, Name::Shard)?;
    push_word(out, Word::Number(i128::from(first)), Gap::Space)?;
    push_word(out, Word::Number(i128::from(last)), Gap::Space)?;
    push_word(out, Word::Number(i128::from(of)), Gap::Newline)
}

/// Writes the mark of a scalar.
fn push_scalar(out: &mut Vec<u8>, slot: u64, mark: Mark<'_>) -> Result<(), AllocError>
    requires { IsMark (shown_mark mark) }
    ensures written { OnOk result (out.new.items
        ≡ out.old.items ++ line_bytes (scalar slot (shown_mark mark.entry))) }
    ensures kept { take (length out.old.items) out.new.items ≡ out.old.items }
{
    push_name(out, Name::Scalar)?;
    push_word(out, Word::Number(i128::from(slot)), Gap::Space)?;
    push_mark(out, mark)
}

/// Writes the mark of an element.
fn push_element(out: &mut Vec<u8>, key: &[u8], mark: Mark<'_>) -> Result<(), AllocError>
    requires key { IsText key.now }
    requires mark { IsMark (shown_mark mark) }
    ensures written { OnOk result (out.new.items
        ≡ out.old.items ++ line_bytes (element key.now (shown_mark mark.entry))) }
    ensures kept { take (length out.old.items) out.new.items ≡ out.old.items }
{
    push_name(out, Name::Element)?;
    push_word(out, Word::Text(key), Gap::Space)?;
    push_mark(out, mark)
}

/// Writes the last record.
fn push_last(out: &mut Vec<u8>, fnr: u64, bytes: &[u8]) -> Result<(), AllocError>
    requires { IsText bytes.now }
    ensures written { OnOk result
        (out.new.items ≡ out.old.items ++ line_bytes (last fnr bytes.now)) }
    ensures kept { take (length out.old.items) out.new.items ≡ out.old.items }
{
    push_name(out, Name::Last)?;
    push_word(out, Word::Number(i128::from(fnr)), Gap::Space)?;
    push_word(out, Word::Text(bytes), Gap::Newline)
}

/// Writes a line at the end of the bytes. Where memory is refused, the bytes that were there are still in front, and a
/// part of the line may follow them.
pub fn push_line(out: &mut Vec<u8>, line: Line<'_>) -> Result<(), AllocError>
    requires { IsLine (shown line) }
    ensures written { OnOk result
        (out.new.items ≡ out.old.items ++ line_bytes (shown line.entry)) }
    ensures kept { take (length out.old.items) out.new.items ≡ out.old.items }
{
    match line {
        Line::Format(number) => push_number_line(out, NumberLine::Format, number),
        Line::Program(text) => push_text_line(out, TextLine::Program, text),
        Line::Budget(steps) => push_number_line(out, NumberLine::Budget, steps),
        Line::Assign { name, value } => push_assign(out, name, value),
        Line::Shard { first, last, of } => push_shard(out, first, last, of),
        Line::Before(records) => push_number_line(out, NumberLine::Before, records),
        Line::File(name) => push_text_line(out, TextLine::File, name),
        Line::Part(records) => push_number_line(out, NumberLine::Part, records),
        Line::Output(bytes) => push_text_line(out, TextLine::Output, bytes),
        Line::Scalar { slot, mark } => push_scalar(out, slot, mark),
        Line::Array(slot) => push_number_line(out, NumberLine::Array, slot),
        Line::Element { key, mark } => push_element(out, key, mark),
        Line::Last { fnr, bytes } => push_last(out, fnr, bytes),
        Line::Records(records) => push_number_line(out, NumberLine::Records, records),
        Line::End(digest) => push_text_line(out, TextLine::End, digest),
    }
}
