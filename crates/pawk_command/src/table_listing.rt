//! What tables say, in words.

use crate::checked_table::CheckedTable;
use crate::command_line::CommandLine;
use crate::first_table::code_of;
use crate::listing::{append_byte, append_number, append_string};
use crate::reports::{End, RunFailure, UNWRITTEN};
use itoa::Integer;
use pawk_code::program::Code;
use pawk_lines::{Line, Mark, read_line};
use pawk_par::{Ending, Seed};
use pawk_parts::TableRefusal;
use pawk_settings::Assignment;
use pawk_tables::{ReadHeader, ReadSection, Section, Shape, Shard, read_section};
use pawk_value::ValueRef;
use std::alloc::{AllocError, Global};
use std::fs::File;
use std::io::{Read, Write};
use std::rt::Files;

/// How many bytes are written at once at least.
const PART: usize = 65_536;

/// Appends a number and what is counted, with an `s` behind all but one.
fn append_count(lines: &mut Vec<u8>, count: u64, unit: &[u8]) -> Result<(), AllocError> {
    append_number(lines, count)?;
    lines.extend_from_slice(b" ")?;
    lines.extend_from_slice(unit)?;
    if count == 1 {
        Ok(())
    } else {
        lines.extend_from_slice(b"s")
    }
}

/// Appends these words and a number.
fn append_amount<N: Integer>(
    lines: &mut Vec<u8>,
    words: &[u8],
    number: N,
) -> Result<(), AllocError> {
    lines.extend_from_slice(words)?;
    append_number(lines, number)
}

/// Appends a name, whose bytes are written as those of strings.
fn append_name(lines: &mut Vec<u8>, name: &[u8]) -> Result<(), AllocError> {
    for byte in name {
        append_byte(lines, *byte)?;
    }
    Ok(())
}

/// Appends a line of a program: a byte that is not printable by three octal digits, as it may stand in strings and regular
/// expressions.
fn append_code(lines: &mut Vec<u8>, text: &[u8]) -> Result<(), AllocError> {
    lines.extend_from_slice(b"  ")?;
    for byte in text {
        match byte {
            b'"' | b'\\' => lines.extend_from_slice(&[*byte])?,
            _ => append_byte(lines, *byte)?,
        }
    }
    lines.extend_from_slice(b"\n")
}

/// Appends the lines of a program.
fn append_program(lines: &mut Vec<u8>, text: &[u8]) -> Result<(), AllocError> {
    lines.extend_from_slice(b"program:\n")?;
    let text = text.strip_suffix(b"\n").unwrap_or(text);
    if text.is_empty() {
        return Ok(());
    }
    for line in text.split(|byte| *byte == b'\n') {
        append_code(lines, line)?;
    }
    Ok(())
}

/// Appends what is assigned, a line for each, after these words.
fn append_assignments(
    lines: &mut Vec<u8>,
    words: &[u8],
    assignments: &[Assignment],
) -> Result<(), AllocError> {
    for assignment in assignments {
        lines.extend_from_slice(words)?;
        append_name(lines, assignment.name.as_slice())?;
        lines.extend_from_slice(b" = ")?;
        append_string(lines, assignment.value.as_slice())?;
        lines.extend_from_slice(b"\n")?;
    }
    Ok(())
}

/// Appends of which shards a table is.
fn append_shard(lines: &mut Vec<u8>, shard: Shard) -> Result<(), AllocError> {
    if shard.first == shard.last {
        append_amount(lines, b" of shard ", shard.first)?;
    } else {
        append_amount(lines, b" of shards ", shard.first)?;
        append_amount(lines, b" to ", shard.last)?;
    }
    append_amount(lines, b" of ", shard.of)
}

/// Appends which table it is.
fn append_title(
    lines: &mut Vec<u8>,
    header: &ReadHeader<'_>,
    records: u64,
) -> Result<(), AllocError> {
    lines.extend_from_slice(b"table")?;
    if let Some(shard) = header.shard {
        append_shard(lines, shard)?;
    }
    if header.before > 0 {
        lines.extend_from_slice(b", after ")?;
        append_count(lines, header.before, b"record")?;
    }
    lines.extend_from_slice(b": ")?;
    append_count(lines, records, b"record")?;
    lines.extend_from_slice(b"\n")
}

/// Appends what a table begins with that has so many records.
fn append_header(
    lines: &mut Vec<u8>,
    header: &ReadHeader<'_>,
    records: u64,
) -> Result<(), AllocError> {
    append_title(lines, header, records)?;
    append_program(lines, header.program)?;
    append_amount(lines, b"budget ", header.budget)?;
    lines.extend_from_slice(b"\n")?;
    append_assignments(lines, b"before BEGIN: ", header.assignments.as_slice())?;
    append_assignments(lines, b"after BEGIN: ", header.first.as_slice())
}

/// Appends a value that was set.
fn append_value(lines: &mut Vec<u8>, value: ValueRef<'_>) -> Result<(), AllocError> {
    lines.extend_from_slice(b": set to ")?;
    match value {
        ValueRef::Uninit => lines.extend_from_slice(b"no value"),
        ValueRef::Num(number) => append_number(lines, number),
        ValueRef::Text(text) => append_string(lines, text),
        ValueRef::Maybe(text) => {
            append_string(lines, text)?;
            lines.extend_from_slice(b" from outside")
        }
    }
}

/// Appends what was noted of a variable or an element, and ends the line.
fn append_mark(lines: &mut Vec<u8>, mark: Mark<'_>) -> Result<(), AllocError> {
    match mark {
        Mark::Added(total) => append_amount(lines, b": added ", total)?,
        Mark::Sum {
            total,
            least,
            greatest,
        } => {
            append_amount(lines, b": added ", total)?;
            append_amount(lines, b", between ", least)?;
            append_amount(lines, b" and ", greatest)?;
        }
        Mark::Put(value) => append_value(lines, value)?,
        Mark::Created => lines.extend_from_slice(b": created")?,
    }
    lines.extend_from_slice(b"\n")
}

/// How many records the sections of a table have.
#[derive(Clone, Copy)]
struct Census {
    /// All records.
    records: u64,
    /// Those that are kept as bytes, where one section alone keeps some.
    kept: Option<u64>,
}

/// The records of some sections.
#[derive(Clone, Copy)]
struct Sections {
    /// How many records were run apart.
    parted: u64,
    /// How many sections keep records as bytes.
    keeping: u64,
}

impl Sections {
    /// These sections and one more.
    fn with(self, section: &Section<'_>) -> Sections {
        match section {
            Section::File(_) => self,
            Section::Part { records, .. } => Sections {
                parted: self.parted.saturating_add(*records),
                keeping: self.keeping,
            },
            Section::Kept { .. } => Sections {
                parted: self.parted,
                keeping: self.keeping.saturating_add(1),
            },
        }
    }

    /// The census of these sections, where they have so many records; nothing where they have more.
    fn census(self, records: u64) -> Option<Census> {
        let others = records.checked_sub(self.parted)?;
        Some(Census {
            records,
            kept: if self.keeping == 1 {
                Some(others)
            } else {
                None
            },
        })
    }
}

/// Counts the records of a table's sections, and sees that they are whole.
///
/// `Damage` where they are not, `Memory` where memory was refused.
fn census_of(alloc: Global, shape: Shape, sections: &[u8]) -> Result<Census, TableRefusal> {
    let mut rest = sections;
    let mut seen = Sections {
        parted: 0,
        keeping: 0,
    };
    for _ in 0..sections.len() {
        let (item, after) = read_section(alloc, shape, rest)?;
        match item {
            ReadSection::Section(section) => {
                seen = seen.with(&section);
                rest = after;
            }
            ReadSection::Records(records) => {
                return seen.census(records).ok_or(TableRefusal::Damage);
            }
        }
    }
    Err(TableRefusal::Damage)
}

/// The lines that say what a table says, as far as they are not written yet.
#[derive(Drop)]
struct Listing<'a> {
    lines: Vec<u8>,
    code: &'a Code,
    census: Census,
    /// The name of the array that keys are of.
    array: &'a [u8],
}

/// The name of a slot.
fn name_in(names: &[Vec<u8>], slot: u64) -> Result<&[u8], TableRefusal> {
    let place = usize::try_from(slot).unwrap_or(usize::MAX);
    match names.get(place) {
        Some(name) => Ok(name.as_slice()),
        None => Err(TableRefusal::Damage),
    }
}

impl<'a> Listing<'a> {
    /// Appends the line of a file; standard input has no name.
    fn append_file(&mut self, name: &[u8]) -> Result<(), AllocError> {
        if name.is_empty() {
            return self.lines.extend_from_slice(b"standard input\n");
        }
        self.lines.extend_from_slice(b"file ")?;
        append_name(&mut self.lines, name)?;
        self.lines.extend_from_slice(b"\n")
    }

    /// Appends the beginning of the line of a part, which [`Listing::append_output`] ends.
    fn append_part(&mut self, records: u64) -> Result<(), AllocError> {
        self.lines.extend_from_slice(b"part of ")?;
        append_count(&mut self.lines, records, b"record")?;
        self.lines.extend_from_slice(b", ")
    }

    /// Appends how much a part wrote.
    fn append_output(&mut self, output: &[u8]) -> Result<(), AllocError> {
        append_count(&mut self.lines, output.len() as u64, b"byte")?;
        self.lines.extend_from_slice(b" of output\n")
    }

    /// Appends what was noted of the variable of a slot.
    fn append_scalar(&mut self, slot: u64, mark: Mark<'_>) -> Result<(), TableRefusal> {
        let name = name_in(self.code.scalars.as_slice(), slot)?;
        self.lines.extend_from_slice(b"  ")?;
        append_name(&mut self.lines, name)?;
        Ok(append_mark(&mut self.lines, mark)?)
    }

    /// Appends what was noted of an element.
    fn append_element(&mut self, key: &[u8], mark: Mark<'_>) -> Result<(), AllocError> {
        self.lines.extend_from_slice(b"  ")?;
        append_name(&mut self.lines, self.array)?;
        self.lines.extend_from_slice(b"[")?;
        append_string(&mut self.lines, key)?;
        self.lines.extend_from_slice(b"]")?;
        append_mark(&mut self.lines, mark)
    }

    /// Appends that records are kept, which come after so many of their file.
    fn append_kept(&mut self, before: u64) -> Result<(), AllocError> {
        match self.census.kept {
            Some(count) => append_count(&mut self.lines, count, b"record")?,
            None => self.lines.extend_from_slice(b"records")?,
        }
        append_amount(&mut self.lines, b" kept, after ", before)?;
        self.lines.extend_from_slice(b" of its file\n")
    }

    /// Appends what a line of the sections says.
    fn append_line(&mut self, line: Line<'_>) -> Result<(), TableRefusal> {
        match line {
            Line::File(name) => self.append_file(name)?,
            Line::Part(records) => self.append_part(records)?,
            Line::Output(output) => self.append_output(output)?,
            Line::Scalar { slot, mark } => self.append_scalar(slot, mark)?,
            Line::Array(slot) => self.array = name_in(self.code.arrays.as_slice(), slot)?,
            Line::Element { key, mark } => self.append_element(key, mark)?,
            Line::Last { fnr, .. } => self.append_kept(fnr)?,
            Line::Records(_) => {}
            _ => return Err(TableRefusal::Damage),
        }
        Ok(())
    }

    /// Writes what is not written yet.
    fn write<'n, O: Write>(&mut self, output: &mut O) -> Result<(), RunFailure<'n>> {
        if output.write_all(self.lines.as_slice()).is_err() {
            return Err(RunFailure::from(UNWRITTEN));
        }
        self.lines.clear();
        Ok(())
    }

    /// Appends what the line says that comes next in the sections, and gives what follows it; nothing at the end.
    fn append_next<'s>(&mut self, sections: &'s [u8]) -> Result<Option<&'s [u8]>, TableRefusal> {
        match read_line(sections)? {
            Some(found) => {
                self.append_line(found.line)?;
                Ok(sections.get(found.length..))
            }
            None => Ok(None),
        }
    }

    /// Writes what the sections of the table of this name say.
    fn write_sections<'n, O: Write>(
        &mut self,
        name: &'n str,
        sections: &[u8],
        output: &mut O,
    ) -> Result<(), RunFailure<'n>> {
        let mut rest = sections;
        for _ in 0..sections.len() {
            match self.append_next(rest) {
                Ok(Some(after)) => rest = after,
                Ok(None) => break,
                Err(refusal) => return Err(RunFailure::of_table(name, refusal)),
            }
            if self.lines.len() >= PART {
                self.write(output)?;
            }
        }
        self.write(output)
    }
}

/// Writes what the table of this name says.
fn show_table<'a, O: Write>(
    alloc: Global,
    seed: Seed,
    name: &'a str,
    table: &CheckedTable,
    output: &mut O,
) -> Result<(), RunFailure<'a>> {
    let (header, sections) = table.parted(alloc, name)?;
    let code = code_of(alloc, name, &header, seed)?;
    let shape = Shape {
        seed,
        scalars: code.scalars.len(),
        arrays: code.arrays.len(),
    };
    let census = match census_of(alloc, shape, sections) {
        Ok(census) => census,
        Err(refusal) => return Err(RunFailure::of_table(name, refusal)),
    };
    let mut listing = Listing {
        lines: Vec::new(alloc),
        code: &code,
        census,
        array: &[],
    };
    append_header(&mut listing.lines, &header, census.records)?;
    listing.write_sections(name, sections, output)
}

/// Writes what the tables say that the operands name, one after the other.
pub fn show_tables<'a, R, I, O>(
    rt: &R,
    line: &'a CommandLine<'a>,
    input: I,
    output: &mut O,
) -> Result<End, RunFailure<'a>>
where
    R: Files<File = File> + AllocGlobal,
    I: Read + Drop,
    O: Write,
{
    let alloc = rt.alloc();
    if !line.operands.assignments().is_empty() {
        return Err(RunFailure::LateAssignment);
    }
    let mut input = input;
    let turns = line.operands.turns(alloc, &[])?;
    for turn in turns {
        let table = CheckedTable::read(rt, turn.name, &mut input)?;
        show_table(alloc, line.host.seed, turn.name, &table, output)?;
    }
    Ok(End::of(alloc, Ending::Status(0)))
}
