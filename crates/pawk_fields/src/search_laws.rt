//! Laws about the definitions. The calls do nothing.

ghost use Rattle.std.specs.Prelude.{◌≤◌, ℕ, Bool, List, length};
ghost use Rattle.pawk_ere_syntax.specs.Pattern.{Pattern};
ghost use Rattle.pawk_fields.specs.Laws.{FieldsLaw, FindLaw, ReadLaw};

/// The expression that is read of bytes is the one that they spell, and none is read where they spell none.
pub fn read_law()
    ensures { (bytes : List ℕ) → ReadLaw bytes }
{}

/// What is found in a text from a place of it on is the leftmost match of the expression that starts there or later, and of
/// those the longest; no other answer is right.
pub fn find_law()
    ensures { (e : Pattern) (text : List ℕ) (from : ℕ) → from ≤ length text → FindLaw e text from }
{}

/// The fields of a record by an FS are the one list that the relation has, and the fault is the one that it has.
pub fn fields_by_law()
    ensures { (fs : List ℕ) (paragraph : Bool) (s : List ℕ) → FieldsLaw fs paragraph s }
{}
