//! The sections of a table file.

ghost use Rattle.std.specs.Prelude.{◌≡◌, ◌<◌, ◌++◌, ℕ, List, All, take, length};
ghost use Rattle.std.specs.Prelude.{IfOk, OnOk, IsErrOf, MatchResult};
ghost use Rattle.pawk_frozen.specs.Marks as marks;
ghost use Rattle.pawk_lines.specs.Lines as lines;
ghost use Rattle.pawk_lines.specs.Lines.{BeginsLine, IsLine, line_bytes};
ghost use Rattle.pawk_parts.specs.Parts.{all_bytes};
ghost use Rattle.pawk_parts.specs.declared.refusal.TableRefusal.{TableRefusal};
ghost use Rattle.pawk_tables.specs.Layout.{part, Spells};
ghost use Rattle.pawk_tables.specs.Reading.{item_of, IsInFront, IsPartAfter, Item};

use crate::front::next_line;
use pawk_frozen::Table;
use pawk_keyed_map::Seed;
use pawk_lines::{Damage, Line, push_line};
use pawk_parts::{TableRefusal, push_table, read_table};
use std::alloc::{AllocError, Global};

/// Of which globals tables are: how many scalars and arrays there are, and what the maps of keys hash by.
#[derive(Clone, Copy)]
pub struct Shape {
    /// What the maps hash their keys by.
    pub seed: Seed,
    /// How many scalars there are.
    pub scalars: usize,
    /// How many arrays there are.
    pub arrays: usize,
}

/// A section of a table file. Its texts are lent.
#[derive(Drop)]
pub enum Section<'a> {
    /// The records that follow are of the file of this name.
    File(&'a [u8]),
    /// So many records were run apart.
    Part {
        /// How many records.
        records: u64,
        /// What they wrote.
        output: &'a [u8],
        /// What they noted of the globals.
        table: Table,
    },
    /// Records that were not run, which a merge runs in their order.
    Kept {
        /// How many records of their file came before them.
        fnr: u64,
        /// Their bytes.
        bytes: &'a [u8],
    },
}

/// What comes next in a table file, after its header or a section.
#[derive(Drop)]
pub enum ReadSection<'a> {
    /// One more section.
    Section(Section<'a>),
    /// How many records the shard has. Nothing follows.
    Records(u64),
}

/// Writes that the records that follow are of the file of this name. Where memory is refused, the bytes that were there
/// are still in front, and a part of the section may follow them.
pub fn push_file(out: &mut Vec<u8>, name: &[u8]) -> Result<(), AllocError>
    ensures written { OnOk result
        (out.new.items ≡ out.old.items ++ line_bytes (lines.file name.now)) }
    ensures line { IsLine (lines.file name.now) }
    ensures kept { take (length out.old.items) out.new.items ≡ out.old.items }
{
    push_line(out, Line::File(name))
}

/// Writes a part: so many records that were run apart, what they wrote and what they noted of the globals. Where it is
/// refused, the bytes that were there are still in front, and a part of the section may follow them.
///
/// `Memory` where memory was refused, `Damage` where no lines say what the table has.
pub fn push_part(
    out: &mut Vec<u8>,
    records: u64,
    output: &[u8],
    table: &Table,
) -> Result<(), TableRefusal>
    ensures written { OnOk result ((ls : List lines.Line) × All IsLine ls
        × Spells (length table.now.scalars) (length table.now.arrays)
        (part records output.now table.now) ls
        × (out.new.items ≡ out.old.items ++ all_bytes ls)) }
    ensures damage { IsErrOf result TableRefusal.Damage → (ls : List lines.Line) →
        ¬ Spells (length table.now.scalars) (length table.now.arrays)
        (part records output.now table.now) ls }
    ensures kept { take (length out.old.items) out.new.items ≡ out.old.items }
{
    push_line(out, Line::Part(records))?;
    push_line(out, Line::Output(output))?;
    push_table(out, table)
}

/// Writes records that a merge runs in their order: how many records of their file came before them, and their bytes.
/// Where memory is refused, the bytes that were there are still in front, and a part of the section may follow them.
pub fn push_kept(out: &mut Vec<u8>, fnr: u64, bytes: &[u8]) -> Result<(), AllocError>
    ensures written { OnOk result
        (out.new.items ≡ out.old.items ++ line_bytes (lines.last fnr bytes.now)) }
    ensures line { IsLine (lines.last fnr bytes.now) }
    ensures kept { take (length out.old.items) out.new.items ≡ out.old.items }
{
    push_line(out, Line::Last { fnr, bytes })
}

/// Writes how many records the shard has, after its last section. Where memory is refused, the bytes that were there
/// are still in front, and a part of the line may follow them.
pub fn push_records(out: &mut Vec<u8>, records: u64) -> Result<(), AllocError>
    ensures written { OnOk result
        (out.new.items ≡ out.old.items ++ line_bytes (lines.records records)) }
    ensures line { IsLine (lines.records records) }
    ensures kept { take (length out.old.items) out.new.items ≡ out.old.items }
{
    push_line(out, Line::Records(records))
}

/// What a part wrote, and what follows its line.
fn read_output(bytes: &[u8]) -> Result<(&[u8], &[u8]), Damage>
    ensures { MatchResult result
        (λ found. BeginsLine bytes.now (lines.output found.0.now) found.1.now)
        (λ _. (output rest : List ℕ) → ¬ BeginsLine bytes.now (lines.output output) rest) }
{
    match next_line(bytes)? {
        (Line::Output(output), rest) => Ok((output, rest)),
        _ => Err(Damage),
    }
}

/// What a part wrote and noted, and what follows.
fn read_part(
    alloc: Global,
    shape: Shape,
    bytes: &[u8],
) -> Result<(&[u8], Table, &[u8]), TableRefusal>
    ensures found { IfOk result (λ found.
        IsPartAfter shape.scalars shape.arrays bytes.now found.0.now found.1 found.2.now) }
    ensures damage { IsErrOf result TableRefusal.Damage → (output : List ℕ) (table : marks.Table)
        (rest : List ℕ) → ¬ IsPartAfter shape.scalars shape.arrays bytes.now output table rest }
{
    let (output, rest) = read_output(bytes)?;
    let read = read_table(alloc, shape.seed, shape.scalars, shape.arrays, rest)?;
    Ok((output, read.table, &rest[read.length..]))
}

/// What comes next in a table file, and what follows it, which is shorter than the bytes: a section in front of them, all
/// of it, or the number of records, after which nothing comes.
///
/// `Damage` where neither is there, `Memory` where memory was refused.
pub fn read_section(
    alloc: Global,
    shape: Shape,
    bytes: &[u8],
) -> Result<(ReadSection<'_>, &[u8]), TableRefusal>
    ensures found { IfOk result (λ found.
        IsInFront shape.scalars shape.arrays bytes.now (item_of found.0) found.1.now) }
    ensures shorter { IfOk result (λ found. length found.1.now < length bytes.now) }
    ensures damage { IsErrOf result TableRefusal.Damage → (item : Item) (rest : List ℕ) →
        ¬ IsInFront shape.scalars shape.arrays bytes.now item rest }
{
    let (line, rest) = next_line(bytes)?;
    match line {
        Line::File(name) => Ok((ReadSection::Section(Section::File(name)), rest)),
        Line::Part(records) => {
            let (output, table, rest) = read_part(alloc, shape, rest)?;
            let section = Section::Part {
                records,
                output,
                table,
            };
            Ok((ReadSection::Section(section), rest))
        }
        Line::Last { fnr, bytes } => Ok((ReadSection::Section(Section::Kept { fnr, bytes }), rest)),
        Line::Records(records) => {
            if rest.is_empty() {
                Ok((ReadSection::Records(records), rest))
            } else {
                Err(TableRefusal::Damage)
            }
        }
        _ => Err(TableRefusal::Damage),
    }
}
