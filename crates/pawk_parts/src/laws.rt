//! The laws of tables in lines. Each is the contract of a function that does nothing.

ghost use Rattle.std.specs.Prelude.{◌≡◌, ℕ, List, ◌++◌, length, false};
ghost use Rattle.pawk_frozen.specs.Marks.{Table};
ghost use Rattle.pawk_lines.specs.Lines.{Line, IsLine, line_bytes};
ghost use Rattle.pawk_parts.specs.Parts.{all_bytes, is_mark_line, SayTable, IsTableInFront};

/// The lines that say a table are read as it: with any line after them that is no mark line, the table is in front of
/// the bytes, whatever follows, and bytes have one table in front at most.
pub fn tables_are_read_again()
    ensures front { (scalars arrays : ℕ) (ls : List Line) (table : Table) (next : Line)
        (rest : List ℕ) → SayTable scalars arrays ls table → IsLine next →
        is_mark_line next ≡ false → IsTableInFront scalars arrays
        (all_bytes ls ++ (line_bytes next ++ rest)) table (length (all_bytes ls)) }
    ensures one { (scalars arrays : ℕ) (bytes : List ℕ) (table other : Table) (count size : ℕ) →
        IsTableInFront scalars arrays bytes table count →
        IsTableInFront scalars arrays bytes other size → (table ≡ other) × (count ≡ size) }
{}
