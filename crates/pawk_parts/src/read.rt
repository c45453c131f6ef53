//! Tables are read.

ghost use Rattle.std.specs.Prelude.{◌≡◌, ◌<◌, ℕ, true, Some, None, length};
ghost use Rattle.std.specs.Prelude.{IfOk, IfErr, MatchResult, MatchOption};
ghost use Rattle.std.specs.Bool.{MatchBool};
ghost use Rattle.pawk_frozen.specs.Marks as marks;
ghost use Rattle.pawk_lines.specs.Lines.{shown, shown_mark};
ghost use Rattle.pawk_lines.specs.Lines as lines;
ghost use Rattle.pawk_parts.specs.Parts.{Noted, noted, nothing_noted, is_mark_line};
ghost use Rattle.pawk_parts.specs.Parts.{BeginsOtherLine, IsTableInFront};
ghost use Rattle.pawk_parts.specs.Refusals.{OnDamage};
ghost use Rattle.pawk_parts.specs.Reading.{noted_by, SaysMark, SayNothing, SayUpTo};

use crate::mark::copy_mark;
use crate::refusal::TableRefusal;
use pawk_array::Seed;
use pawk_frozen::{CellMark, Table};
use pawk_lines::{Line, Mark, read_line};
use std::alloc::{AllocError, Global};

/// A table that was read.
#[derive(Drop)]
pub struct ReadTable {
    /// What the lines say.
    pub table: Table,
    /// How many bytes they take.
    pub length: usize,
}

/// What the lines said that were read so far.
#[derive(Drop)]
struct Reader {
    alloc: Global,
    array: Option<usize>,
    table: Table,
}

impl Reader {
    /// Before the first line.
    fn new(alloc: Global, seed: Seed, scalars: usize, arrays: usize) -> Result<Reader, AllocError>
        ensures { IfOk result (λ reader. noted_by reader ≡ nothing_noted scalars arrays) }
    {
        Ok(Reader {
            alloc,
            array: None,
            table: Table::blank(alloc, seed, scalars, arrays)?,
        })
    }

    /// Notes the mark of a scalar.
    ///
    /// `Damage` where there is no such slot, something was noted of the scalar before, or a shorter mark says the same.
    fn note_scalar(&mut self, slot: u64, mark: Mark<'_>) -> Result<(), TableRefusal>
        ensures { let line = noted (lines.scalar slot (shown_mark mark.entry)) (noted_by self.old) in
            MatchResult result (λ _. line ≡ Some (noted_by self.new))
            (λ refusal. OnDamage refusal (line ≡ None)) }
    {
        let slot = slot as usize;
        match self.table.scalars().get(slot) {
            Some(CellMark::Blank) => {
                let mark = copy_mark(self.alloc, mark)?;
                self.table.set_scalar(slot, mark);
                Ok(())
            }
            _ => Err(TableRefusal::Damage),
        }
    }

    /// The keys that follow are of the array of this slot.
    ///
    /// `Damage` where there is no such slot.
    fn begin_array(&mut self, slot: u64) -> Result<(), TableRefusal>
        ensures { let line = noted (lines.array slot) (noted_by self.old) in
            MatchResult result (λ _. line ≡ Some (noted_by self.new))
            (λ refusal. OnDamage refusal (line ≡ None)) }
    {
        let slot = slot as usize;
        if slot >= self.table.arrays().len() {
            return Err(TableRefusal::Damage);
        }
        self.array = Some(slot);
        Ok(())
    }

    /// Notes the mark of an element.
    ///
    /// `Damage` where no array began, something was noted of the element before, or a shorter mark says the same.
    fn note_element(&mut self, key: &[u8], mark: Mark<'_>) -> Result<(), TableRefusal>
        ensures { let line
            = noted (lines.element key.now (shown_mark mark.entry)) (noted_by self.old) in
            MatchResult result (λ _. line ≡ Some (noted_by self.new))
            (λ refusal. OnDamage refusal (line ≡ None)) }
    {
        let Some(array) = self.array else {
            return Err(TableRefusal::Damage);
        };
        let mark = copy_mark(self.alloc, mark)?;
        if self.table.note_element(array, key, mark)? {
            Ok(())
        } else {
            Err(TableRefusal::Damage)
        }
    }

    /// Notes what a line says, and says whether it is a mark line.
    ///
    /// `Damage` where it is one that says nothing here.
    fn note(&mut self, line: Line<'_>) -> Result<bool, TableRefusal>
        ensures { MatchResult result (λ is_mark. (is_mark_line (shown line.entry) ≡ is_mark)
            × MatchBool is_mark
            (noted (shown line.entry) (noted_by self.old) ≡ Some (noted_by self.new))
            (noted_by self.new ≡ noted_by self.old))
            (λ refusal. OnDamage refusal ((is_mark_line (shown line.entry) ≡ true)
            × (noted (shown line.entry) (noted_by self.old) ≡ None))) }
    {
        match line {
            Line::Scalar { slot, mark } => self.note_scalar(slot, mark)?,
            Line::Array(slot) => self.begin_array(slot)?,
            Line::Element { key, mark } => self.note_element(key, mark)?,
            _ => return Ok(false),
        }
        Ok(true)
    }

    /// Reads the line in front of the bytes and notes what it says; how many bytes it takes, or none where it is no
    /// mark line.
    ///
    /// `Damage` where no line is in front, or a mark line that says nothing here.
    fn read_mark(&mut self, bytes: &[u8]) -> Result<Option<usize>, TableRefusal>
        ensures { MatchResult result (λ answer. MatchOption answer
            ((noted_by self.new ≡ noted_by self.old) × BeginsOtherLine bytes.now)
            (λ count. SaysMark bytes.now (noted_by self.old) (noted_by self.new) count))
            (λ refusal. OnDamage refusal (SayNothing bytes.now (noted_by self.old))) }
    {
        let Some(found) = read_line(bytes)? else {
            return Err(TableRefusal::Damage);
        };
        if self.note(found.line)? {
            Ok(Some(found.length))
        } else {
            Ok(None)
        }
    }

    /// Reads the mark lines in front of the bytes, up to the first line that is no mark line; how many bytes they take.
    ///
    /// `Damage` where no line comes after some of them, or a mark line that says nothing there.
    fn read_marks(&mut self, bytes: &[u8]) -> Result<usize, TableRefusal>
        ensures { MatchResult result
            (λ count. SayUpTo bytes.now (noted_by self.old) (noted_by self.new) count)
            (λ refusal. OnDamage refusal ((after : Noted) (count : ℕ) →
            ¬ SayUpTo bytes.now (noted_by self.old) after count)) }
    {
        let mut rest = bytes;
        while let Some(count) = self.read_mark(rest)? {
            rest = &rest[count..];
        }
        Ok(bytes.len() - rest.len())
    }
}

/// Reads the table in front of the bytes: the mark lines up to the first line that is no mark line, which has to
/// follow. Keys are hashed by `seed`.
///
/// `Memory` where memory is refused; `Damage` where no table of so many scalars and arrays is in front.
pub fn read_table(
    alloc: Global,
    seed: Seed,
    scalars: usize,
    arrays: usize,
    bytes: &[u8],
) -> Result<ReadTable, TableRefusal>
    ensures found { IfOk result (λ read.
        IsTableInFront scalars arrays bytes.now read.table read.length) }
    ensures within { IfOk result (λ read. read.length < length bytes.now) }
    ensures again { (table : marks.Table) (count : ℕ) →
        IsTableInFront scalars arrays bytes.now table count →
        MatchResult result (λ read. (read.table ≡ table) × (read.length ≡ count))
        (λ refusal. refusal ≡ TableRefusal.Memory) }
    ensures damage { IfErr result (λ refusal. refusal ≡ TableRefusal.Damage →
        (table : marks.Table) (count : ℕ) →
        ¬ IsTableInFront scalars arrays bytes.now table count) }
{
    let mut reader = Reader::new(alloc, seed, scalars, arrays)?;
    let length = reader.read_marks(bytes)?;
    Ok(ReadTable {
        table: reader.table,
        length,
    })
}
