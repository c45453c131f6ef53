//! The laws of programs. Each is the contract of a function that does nothing.

ghost use Rattle.std.specs.Prelude.{◌≡◌, List};
ghost use Rattle.pawk_lex.specs.Bytes.{Text};
ghost use Rattle.pawk_lex.specs.Canonical.{AreBytes};
ghost use Rattle.pawk_syntax_tree.specs.Item.{Part};
ghost use Rattle.pawk_syntax_check.specs.Demands.{Kinds, AreKindsOf};
ghost use Rattle.pawk_syntax.specs.Spells.{Spells};
ghost use Rattle.pawk_code.specs.Programs.{Code};
ghost use Rattle.pawk_resolve_program.specs.Codes.{IsCodeOf};
ghost use Rattle.pawk_resolve_law.specs.Programs.{names_of, heads_of, outline, spelled_program, FitsProgram};

/// The code of a program that a text spells is another writing of its items.
pub fn code_spells()
    ensures { (text : Text) (ps : List Part) (k : Kinds) (c : Code) →
        AreBytes text → Spells text ps → AreKindsOf ps k → IsCodeOf ps c →
        spelled_program (names_of k ps) (heads_of ps) c ≡ outline ps }
{}

/// The code of a program that a text spells is in normal form.
pub fn code_fits()
    ensures { (text : Text) (ps : List Part) (k : Kinds) (c : Code) →
        AreBytes text → Spells text ps → AreKindsOf ps k → IsCodeOf ps c →
        FitsProgram (names_of k ps) (heads_of ps) c }
{}

/// The code of a program that a text spells is the only one in normal form that is another writing of its items.
pub fn code_is_unique()
    ensures { (text : Text) (ps : List Part) (k : Kinds) (c : Code) →
        AreBytes text → Spells text ps → AreKindsOf ps k →
        FitsProgram (names_of k ps) (heads_of ps) c →
        spelled_program (names_of k ps) (heads_of ps) c ≡ outline ps →
        IsCodeOf ps c }
{}
