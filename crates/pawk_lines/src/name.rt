//! The names with which lines and marks begin.

ghost use Rattle.std.specs.Prelude.{◌≡◌, ◌++◌, MatchResult};
ghost use Rattle.std.specs.List.{Contains};
ghost use Rattle.pawk_lines.specs.Lines as spec;
ghost use Rattle.pawk_lines.specs.Names.{spelling, number_line_of, text_line_of};
ghost use Rattle.pawk_lines.specs.Reading.{Fails, FailsAfter, OneOf};

use crate::failure::{Failure, cut};
use crate::line::Line;

/// The first words of a line or of a mark, which say which one it is.
#[derive(Clone, Copy)]
pub(crate) enum Name {
    /// Of a line of one number.
    Number(NumberLine),
    /// Of a line of one text.
    Text(TextLine),
    /// `assign`
    Assign,
    /// `shard`
    Shard,
    /// `scalar`
    Scalar,
    /// `key`
    Element,
    /// `last`
    Last,
    /// Of a mark.
    Mark(MarkName),
}

/// The name of a line of one number.
#[derive(Clone, Copy)]
pub(crate) enum NumberLine {
    /// `pawk table`
    Format,
    /// `budget`
    Budget,
    /// `before`
    Before,
    /// `part`
    Part,
    /// `array`
    Array,
    /// `records`
    Records,
}

/// The name of a line of one text.
#[derive(Clone, Copy)]
pub(crate) enum TextLine {
    /// `program`
    Program,
    /// `file`
    File,
    /// `output`
    Output,
    /// `end`
    End,
}

/// The name of a mark.
#[derive(Clone, Copy)]
pub(crate) enum MarkName {
    /// `add`
    Added,
    /// `sum`
    Sum,
    /// `unset`
    Unset,
    /// `number`
    Number,
    /// `text`
    Text,
    /// `maybe`
    Maybe,
    /// `created`
    Created,
}

/// The names of lines.
pub(crate) const LINE_NAMES: [Name; 15] = [
    Name::Element,
    Name::Scalar,
    Name::Number(NumberLine::Array),
    Name::Number(NumberLine::Part),
    Name::Text(TextLine::File),
    Name::Text(TextLine::Output),
    Name::Number(NumberLine::Format),
    Name::Text(TextLine::Program),
    Name::Number(NumberLine::Budget),
    Name::Assign,
    Name::Shard,
    Name::Number(NumberLine::Before),
    Name::Last,
    Name::Number(NumberLine::Records),
    Name::Text(TextLine::End),
];

/// The names of marks.
pub(crate) const MARK_NAMES: [Name; 7] = [
    Name::Mark(MarkName::Added),
    Name::Mark(MarkName::Sum),
    Name::Mark(MarkName::Number),
    Name::Mark(MarkName::Text),
    Name::Mark(MarkName::Maybe),
    Name::Mark(MarkName::Unset),
    Name::Mark(MarkName::Created),
];

impl NumberLine {
    /// How it is written, with the space after it.
    fn spelling(self) -> &'static [u8]
        ensures { result.now ≡ spelling (Name.Number self) }
    {
        match self {
            NumberLine::Format => b"pawk table ",
            NumberLine::Budget => b"budget ",
            NumberLine::Before => b"before ",
            NumberLine::Part => b"part ",
            NumberLine::Array => b"array ",
            NumberLine::Records => b"records ",
        }
    }

    /// The line of this number.
    pub(crate) fn line(self, number: u64) -> Line<'static>
        ensures { spec.shown result ≡ number_line_of self number }
    {
        match self {
            NumberLine::Format => Line::Format(number),
            NumberLine::Budget => Line::Budget(number),
            NumberLine::Before => Line::Before(number),
            NumberLine::Part => Line::Part(number),
            NumberLine::Array => Line::Array(number),
            NumberLine::Records => Line::Records(number),
        }
    }
}

impl TextLine {
    /// How it is written, with the space after it.
    fn spelling(self) -> &'static [u8]
        ensures { result.now ≡ spelling (Name.Text self) }
    {
        match self {
            TextLine::Program => b"program ",
            TextLine::File => b"file ",
            TextLine::Output => b"output ",
            TextLine::End => b"end ",
        }
    }

    /// The line of this text.
    pub(crate) fn line(self, text: &[u8]) -> Line<'_>
        ensures { spec.shown result ≡ text_line_of self text.now }
    {
        match self {
            TextLine::Program => Line::Program(text),
            TextLine::File => Line::File(text),
            TextLine::Output => Line::Output(text),
            TextLine::End => Line::End(text),
        }
    }
}

impl MarkName {
    /// How it is written, with the gap after it.
    fn spelling(self) -> &'static [u8]
        ensures { result.now ≡ spelling (Name.Mark self) }
    {
        match self {
            MarkName::Added => b"add ",
            MarkName::Sum => b"sum ",
            MarkName::Unset => b"unset\n",
            MarkName::Number => b"number ",
            MarkName::Text => b"text ",
            MarkName::Maybe => b"maybe ",
            MarkName::Created => b"created\n",
        }
    }
}

impl Name {
    /// How it is written, with the gap after it.
    pub(crate) fn spelling(self) -> &'static [u8]
        ensures { result.now ≡ spelling self }
    {
        match self {
            Name::Number(line) => line.spelling(),
            Name::Text(line) => line.spelling(),
            Name::Assign => b"assign ",
            Name::Shard => b"shard ",
            Name::Scalar => b"scalar ",
            Name::Element => b"key ",
            Name::Last => b"last ",
            Name::Mark(mark) => mark.spelling(),
        }
    }
}

/// The bytes after these first ones.
pub(crate) fn after<'a>(first: &[u8], bytes: &'a [u8]) -> Result<&'a [u8], Failure>
    ensures { MatchResult result (λ rest. bytes.now ≡ first.now ++ rest.now)
        (FailsAfter first.now bytes.now) }
{
    match bytes.strip_prefix(first) {
        Some(rest) => Ok(rest),
        None => Err(cut(first.starts_with(bytes))),
    }
}

/// The name in front of the bytes, one of these, and what follows it.
pub(crate) fn read_name<'a>(names: &[Name], bytes: &'a [u8]) -> Result<(Name, &'a [u8]), Failure>
    ensures { MatchResult result
        (λ found. Contains names.now found.0 × (bytes.now ≡ spelling found.0 ++ found.1.now))
        (Fails (OneOf names.now) bytes.now) }
{
    for name in names {
        match after(name.spelling(), bytes) {
            Ok(rest) => return Ok((*name, rest)),
            Err(Failure::Short) => return Err(Failure::Short),
            Err(Failure::Damage) => {}
        }
    }
    Err(Failure::Damage)
}
