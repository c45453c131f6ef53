//! The header of a table file.

ghost use Rattle.std.specs.Prelude.{◌≡◌, ◌++◌, ℕ, List, All, Option, take, length};
ghost use Rattle.std.specs.Prelude.{IfOk, OnOk, IsErrOf, MatchResult};
ghost use Rattle.pawk_lines.specs.Lines as lines;
ghost use Rattle.pawk_lines.specs.Lines.{BeginsLine, IsLine};
ghost use Rattle.pawk_parts.specs.Parts.{all_bytes};
ghost use Rattle.pawk_parts.specs.declared.refusal.TableRefusal.{TableRefusal};
ghost use Rattle.pawk_store.specs.Openings.{pairs_of};
ghost use Rattle.pawk_tables.specs.Layout as spec;
ghost use Rattle.pawk_tables.specs.Layout.{assign_lines, header_lines, place_lines, program_lines, Pairs};
ghost use Rattle.pawk_tables.specs.Reading.{BeginsLines, BeginsNoAssignment, IsHeaderInFront};
ghost use Rattle.pawk_tables.specs.Views.{header_of, read_header_of, shard_of};

use crate::front::next_line;
use pawk_lines::{Damage, Line, push_line};
use pawk_parts::TableRefusal;
use pawk_settings::Assignment;
use std::alloc::{AllocError, Global};

/// The number of the format.
const FORMAT: u64 = 1;

/// Which shards of how many a table is of: a first one, a last one and all between them. One shard is both.
#[derive(Clone, Copy)]
pub struct Shard {
    /// The number of the first shard.
    pub first: u64,
    /// The number of the last shard.
    pub last: u64,
    /// How many shards there are.
    pub of: u64,
}

/// What a table file begins with. Its texts are lent.
#[derive(Clone, Copy)]
pub struct Header<'a> {
    /// The text of the program.
    pub program: &'a [u8],
    /// The steps that each part of the run may take.
    pub budget: u64,
    /// What is assigned before BEGIN, in this order.
    pub assignments: &'a [Assignment],
    /// Which shards the table is of, where the input is cut into several.
    pub shard: Option<Shard>,
    /// How many records the shards before these have.
    pub before: u64,
    /// What is assigned after BEGIN and before the first file, in this order.
    pub first: &'a [Assignment],
}

/// What a table file begins with, as it was read. The program is lent.
#[derive(Drop)]
pub struct ReadHeader<'a> {
    /// The text of the program.
    pub program: &'a [u8],
    /// The steps that each part of the run may take.
    pub budget: u64,
    /// What is assigned before BEGIN, in this order.
    pub assignments: Vec<Assignment>,
    /// Which shards the table is of, where the input is cut into several.
    pub shard: Option<Shard>,
    /// How many records the shards before these have.
    pub before: u64,
    /// What is assigned after BEGIN and before the first file, in this order.
    pub first: Vec<Assignment>,
}

/// Writes the lines of some assignments.
fn push_assignments(out: &mut Vec<u8>, assignments: &[Assignment]) -> Result<(), AllocError>
    ensures written { OnOk result (out.new.items
        ≡ out.old.items ++ all_bytes (assign_lines (pairs_of assignments.now))) }
    ensures lines { OnOk result (All IsLine (assign_lines (pairs_of assignments.now))) }
    ensures kept { take (length out.old.items) out.new.items ≡ out.old.items }
{
    for assignment in assignments {
        let line = Line::Assign {
            name: assignment.name.as_slice(),
            value: assignment.value.as_slice(),
        };
        push_line(out, line)?;
    }
    Ok(())
}

/// Writes the format, the program and its budget.
fn push_program(out: &mut Vec<u8>, program: &[u8], budget: u64) -> Result<(), AllocError>
    ensures written { OnOk result (out.new.items
        ≡ out.old.items ++ all_bytes (program_lines program.now budget)) }
    ensures lines { OnOk result (All IsLine (program_lines program.now budget)) }
    ensures kept { take (length out.old.items) out.new.items ≡ out.old.items }
{
    push_line(out, Line::Format(FORMAT))?;
    push_line(out, Line::Program(program))?;
    push_line(out, Line::Budget(budget))
}

/// Writes where the shards lie.
fn push_place(out: &mut Vec<u8>, shard: Option<Shard>, before: u64) -> Result<(), AllocError>
    ensures written { OnOk result (out.new.items
        ≡ out.old.items ++ all_bytes (place_lines (shard_of shard) before)) }
    ensures lines { OnOk result (All IsLine (place_lines (shard_of shard) before)) }
    ensures kept { take (length out.old.items) out.new.items ≡ out.old.items }
{
    if let Some(Shard { first, last, of }) = shard {
        push_line(out, Line::Shard { first, last, of })?;
    }
    push_line(out, Line::Before(before))
}

/// Writes the header of a table file at the end of the bytes. Where memory is refused, the bytes that were there are
/// still in front, and a part of the header may follow them.
pub fn push_header(out: &mut Vec<u8>, header: &Header<'_>) -> Result<(), AllocError>
    ensures written { OnOk result (out.new.items
        ≡ out.old.items ++ all_bytes (header_lines (header_of header.now))) }
    ensures lines { OnOk result (All IsLine (header_lines (header_of header.now))) }
    ensures kept { take (length out.old.items) out.new.items ≡ out.old.items }
{
    push_program(out, header.program, header.budget)?;
    push_assignments(out, header.assignments)?;
    push_place(out, header.shard, header.before)?;
    push_assignments(out, header.first)
}

/// What follows the line of the format.
fn read_format(bytes: &[u8]) -> Result<&[u8], Damage>
    ensures { MatchResult result (λ rest. BeginsLine bytes.now (lines.format 1) rest.now)
        (λ _. (rest : List ℕ) → ¬ BeginsLine bytes.now (lines.format 1) rest) }
{
    match next_line(bytes)? {
        (Line::Format(number), rest) => {
            if number == FORMAT {
                Ok(rest)
            } else {
                Err(Damage)
            }
        }
        _ => Err(Damage),
    }
}

/// The text of the program, and what follows its line.
fn read_text(bytes: &[u8]) -> Result<(&[u8], &[u8]), Damage>
    ensures { MatchResult result
        (λ found. BeginsLine bytes.now (lines.program found.0.now) found.1.now)
        (λ _. (text rest : List ℕ) → ¬ BeginsLine bytes.now (lines.program text) rest) }
{
    match next_line(bytes)? {
        (Line::Program(text), rest) => Ok((text, rest)),
        _ => Err(Damage),
    }
}

/// The budget, and what follows its line.
fn read_budget(bytes: &[u8]) -> Result<(u64, &[u8]), Damage>
    ensures { MatchResult result
        (λ found. BeginsLine bytes.now (lines.budget found.0) found.1.now)
        (λ _. (steps : ℕ) (rest : List ℕ) → ¬ BeginsLine bytes.now (lines.budget steps) rest) }
{
    match next_line(bytes)? {
        (Line::Budget(steps), rest) => Ok((steps, rest)),
        _ => Err(Damage),
    }
}

/// How many records come before the shards, and what follows the line that says so.
fn read_before(bytes: &[u8]) -> Result<(u64, &[u8]), Damage>
    ensures { MatchResult result
        (λ found. BeginsLine bytes.now (lines.before found.0) found.1.now)
        (λ _. (count : ℕ) (rest : List ℕ) → ¬ BeginsLine bytes.now (lines.before count) rest) }
{
    match next_line(bytes)? {
        (Line::Before(records), rest) => Ok((records, rest)),
        _ => Err(Damage),
    }
}

/// The program and its budget, and what follows their lines.
fn read_program(bytes: &[u8]) -> Result<(&[u8], u64, &[u8]), Damage>
    ensures { MatchResult result
        (λ found. BeginsLines bytes.now (program_lines found.0.now found.1) found.2.now)
        (λ _. (program : List ℕ) (budget : ℕ) (rest : List ℕ) →
        ¬ BeginsLines bytes.now (program_lines program budget) rest) }
{
    let rest = read_format(bytes)?;
    let (program, rest) = read_text(rest)?;
    let (budget, rest) = read_budget(rest)?;
    Ok((program, budget, rest))
}

/// Where the shards lie, and what follows the lines that say so.
fn read_place(bytes: &[u8]) -> Result<(Option<Shard>, u64, &[u8]), Damage>
    ensures { MatchResult result
        (λ found. BeginsLines bytes.now (place_lines (shard_of found.0) found.1) found.2.now)
        (λ _. (shard : Option (ℕ × ℕ × ℕ)) (before : ℕ) (rest : List ℕ) →
        ¬ BeginsLines bytes.now (place_lines shard before) rest) }
{
    match next_line(bytes)? {
        (Line::Shard { first, last, of }, rest) => {
            let (before, rest) = read_before(rest)?;
            Ok((Some(Shard { first, last, of }), before, rest))
        }
        (Line::Before(before), rest) => Ok((None, before, rest)),
        _ => Err(Damage),
    }
}

/// The assignments in front of the bytes, all of them, and the line that follows, which is none.
fn read_assignments(alloc: Global, bytes: &[u8]) -> Result<(Vec<Assignment>, &[u8]), TableRefusal>
    ensures found { IfOk result (λ found.
        BeginsLines bytes.now (assign_lines (pairs_of found.0.items)) found.1.now
        × BeginsNoAssignment found.1.now) }
    ensures damage { IsErrOf result TableRefusal.Damage → (pairs : Pairs) (rest : List ℕ) →
        BeginsLines bytes.now (assign_lines pairs) rest → ¬ BeginsNoAssignment rest }
{
    let mut assignments = Vec::new(alloc);
    let mut rest = bytes;
    while let (Line::Assign { name, value }, after) = next_line(rest)? {
        let name = Vec::from_slice(alloc, name)?;
        let value = Vec::from_slice(alloc, value)?;
        assignments.push(Assignment { name, value })?;
        rest = after;
    }
    Ok((assignments, rest))
}

/// The header in front of the bytes of a table file, and what follows it: sections and the number of records.
///
/// `Damage` where no header is in front, `Memory` where memory was refused.
pub fn read_header(alloc: Global, bytes: &[u8]) -> Result<(ReadHeader<'_>, &[u8]), TableRefusal>
    ensures found { IfOk result (λ found.
        IsHeaderInFront bytes.now (read_header_of found.0) found.1.now) }
    ensures damage { IsErrOf result TableRefusal.Damage → (header : spec.Header)
        (rest : List ℕ) → ¬ IsHeaderInFront bytes.now header rest }
{
    let (program, budget, rest) = read_program(bytes)?;
    let (assignments, rest) = read_assignments(alloc, rest)?;
    let (shard, before, rest) = read_place(rest)?;
    let (first, rest) = read_assignments(alloc, rest)?;
    let header = ReadHeader {
        program,
        budget,
        assignments,
        shard,
        before,
        first,
    };
    Ok((header, rest))
}
