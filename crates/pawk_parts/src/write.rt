//! Tables are written.

ghost use Rattle.std.specs.Prelude.{◌≡◌, ◌<◌, ◌++◌, ℕ, List, [], Some, length, map, take};
ghost use Rattle.std.specs.Prelude.{replicate, slice_index_or, slice_set, OnOk, IfErr};
ghost use Rattle.pawk_world.specs.Worlds as cell;
ghost use Rattle.pawk_frozen.specs.Marks.{Marks, blank, mark_at};
ghost use Rattle.pawk_frozen.specs.MarkViews.{mark_view};
ghost use Rattle.pawk_lines.specs.Lines as lines;
ghost use Rattle.pawk_parts.specs.Parts.{Noted, all_bytes, SayTable};
ghost use Rattle.pawk_parts.specs.Refusals.{OnDamage};
ghost use Rattle.pawk_parts.specs.Writing.{Appends, AppendsTable, AreAll, HasUnsaid};
ghost use Rattle.pawk_parts.specs.Writing.{MayBeLeft, MayBeSaid};
ghost use Rattle.pawk_parts.specs.Writing.{with_array, with_noted, with_scalars};

use crate::mark::lend_mark;
use crate::refusal::TableRefusal;
use pawk_frozen::{CellMark, ElementMarks, LentPairs, Table};
use pawk_lines::{Line, push_line};

/// Writes what was noted of a scalar, unless nothing was.
///
/// `Damage` where it is a sum that no line says.
fn push_scalar(out: &mut Vec<u8>, slot: usize, mark: &CellMark) -> Result<(), TableRefusal>
    ensures written { OnOk result ((n : Noted) → slot < length n.table.scalars →
        mark_at (cell.scalar slot) n.table ≡ blank → Appends out.old.items out.new.items n
        (with_noted (cell.scalar slot) (mark_view mark.now) n)) }
    ensures damage { IfErr result (λ refusal.
        OnDamage refusal (¬ MayBeLeft (mark_view mark.now))) }
    ensures kept { take (length out.old.items) out.new.items ≡ out.old.items }
{
    if let Some(mark) = lend_mark(mark)? {
        let slot = slot as u64;
        push_line(out, Line::Scalar { slot, mark })?;
    }
    Ok(())
}

/// Writes what was noted of scalars, by their slots.
fn push_scalars(out: &mut Vec<u8>, marks: &[CellMark]) -> Result<(), TableRefusal>
    ensures written { OnOk result ((n : Noted) →
        n.table.scalars ≡ replicate (length marks.now) blank →
        Appends out.old.items out.new.items n (with_scalars (map mark_view marks.now) n)) }
    ensures damage { IfErr result (λ refusal. OnDamage refusal ((slot : ℕ)
        × ¬ MayBeLeft (slice_index_or (map mark_view marks.now) slot blank))) }
    ensures kept { take (length out.old.items) out.new.items ≡ out.old.items }
{
    for slot in 0..marks.len() {
        push_scalar(out, slot, &marks[slot])?;
    }
    Ok(())
}

/// Writes what was noted of an element.
///
/// `Damage` where that is nothing, or a sum that no line says.
fn push_element(out: &mut Vec<u8>, key: &[u8], mark: &CellMark) -> Result<(), TableRefusal>
    ensures written { OnOk result ((n : Noted) (slot : ℕ) → n.array ≡ Some slot →
        mark_at (cell.element slot key.now) n.table ≡ blank →
        Appends out.old.items out.new.items n
        (with_noted (cell.element slot key.now) (mark_view mark.now) n)) }
    ensures damage { IfErr result (λ refusal.
        OnDamage refusal (¬ MayBeSaid (mark_view mark.now))) }
    ensures kept { take (length out.old.items) out.new.items ≡ out.old.items }
{
    match lend_mark(mark)? {
        Some(mark) => {
            push_line(out, Line::Element { key, mark })?;
            Ok(())
        }
        None => Err(TableRefusal::Damage),
    }
}

/// Writes what was noted of the elements that are left of an array.
fn push_elements(out: &mut Vec<u8>, mut pairs: LentPairs<'_>) -> Result<(), TableRefusal>
    ensures written { OnOk result ((n : Noted) (slot : ℕ) (all : Marks) → n.array ≡ Some slot →
        slot < length n.table.arrays →
        AreAll all pairs.entry (slice_index_or n.table.arrays slot []) →
        Appends out.old.items out.new.items n (with_array slot all n)) }
    ensures damage { IfErr result (λ refusal. OnDamage refusal (HasUnsaid pairs.entry)) }
    ensures kept { take (length out.old.items) out.new.items ≡ out.old.items }
{
    while let Some((key, mark)) = pairs.next() {
        push_element(out, key.text(), mark)?;
    }
    Ok(())
}

/// Writes what was noted of the elements of an array, unless nothing was.
fn push_array(out: &mut Vec<u8>, slot: usize, marks: &ElementMarks) -> Result<(), TableRefusal>
    ensures written { OnOk result ((n : Noted) → slot < length n.table.arrays →
        slice_index_or n.table.arrays slot [] ≡ [] →
        AppendsTable out.old.items out.new.items n
        (record n.table { arrays = slice_set n.table.arrays slot marks.now })) }
    ensures damage { IfErr result (λ refusal. OnDamage refusal (HasUnsaid marks.now)) }
    ensures kept { take (length out.old.items) out.new.items ≡ out.old.items }
{
    let mut pairs = marks.pairs();
    if let Some((key, mark)) = pairs.next() {
        push_line(out, Line::Array(slot as u64))?;
        push_element(out, key.text(), mark)?;
        push_elements(out, pairs)?;
    }
    Ok(())
}

/// Writes what was noted of the elements of arrays, by the slots of these.
fn push_arrays(out: &mut Vec<u8>, arrays: &[ElementMarks]) -> Result<(), TableRefusal>
    ensures written { OnOk result ((n : Noted) →
        n.table.arrays ≡ replicate (length arrays.now) [] →
        AppendsTable out.old.items out.new.items n (record n.table { arrays = arrays.now })) }
    ensures damage { IfErr result (λ refusal. OnDamage refusal ((slot : ℕ)
        × HasUnsaid (slice_index_or arrays.now slot []))) }
    ensures kept { take (length out.old.items) out.new.items ≡ out.old.items }
{
    for slot in 0..arrays.len() {
        push_array(out, slot, &arrays[slot])?;
    }
    Ok(())
}

/// Appends the lines that say what is in a table: first the scalars by their slots, then each array of which something
/// was noted, with its keys in the order in which they were first noted.
///
/// `Memory` where memory is refused, `Damage` where something was noted that no line says: a sum of a size above 2^64,
/// or nothing of an element. Then the bytes that were there are still in front, and some of the lines may follow them.
pub fn push_table(out: &mut Vec<u8>, table: &Table) -> Result<(), TableRefusal>
    ensures written { OnOk result ((ls : List lines.Line)
        × SayTable (length table.now.scalars) (length table.now.arrays) ls table.now
        × (out.new.items ≡ out.old.items ++ all_bytes ls)) }
    ensures damage { IfErr result (λ refusal. refusal ≡ TableRefusal.Damage →
        (ls : List lines.Line) →
        ¬ SayTable (length table.now.scalars) (length table.now.arrays) ls table.now) }
    ensures kept { take (length out.old.items) out.new.items ≡ out.old.items }
{
    push_scalars(out, table.scalars())?;
    push_arrays(out, table.arrays())
}
