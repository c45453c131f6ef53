//! The laws of the tables of a program. Each is the contract of a function that does nothing.

ghost use Rattle.std.specs.Prelude.{◌≡◌, ◌&&◌, ◌||◌, List};
ghost use Rattle.std.specs.List.{flat_map};
ghost use Rattle.pawk_lex.specs.Bytes.{Text};
ghost use Rattle.pawk_lex.specs.Vocabulary.{is_among};
ghost use Rattle.pawk_syntax_tree.specs.Item.{Part};
ghost use Rattle.pawk_syntax_check.specs.Demands.{Kinds};
ghost use Rattle.pawk_syntax_grammar.specs.Expressions.{eres_of_program};
ghost use Rattle.pawk_code.specs.FirstSlots.{first_scalars};
ghost use Rattle.pawk_resolve.specs.ResolvedPrograms.{global_names, is_global_array, is_global_scalar};
ghost use Rattle.pawk_resolve_law.specs.Programs.{names_of};

/// The tables hold the global names that are mentioned, each by its kind, and no others but the
/// scalars of the language that a program may assign; and the expressions between slashes.
pub fn tables_hold_the_names()
    ensures scalars { (k : Kinds) (ps : List Part) (x : Text) →
        is_among (names_of k ps).scalars x ≡ (is_among first_scalars x ||
        (is_among (flat_map global_names ps) x && is_global_scalar k x)) }
    ensures arrays { (k : Kinds) (ps : List Part) (x : Text) →
        is_among (names_of k ps).arrays x ≡
        (is_among (flat_map global_names ps) x && is_global_array k x) }
    ensures expressions { (k : Kinds) (ps : List Part) (x : Text) →
        is_among (names_of k ps).expressions x ≡ is_among (eres_of_program ps) x }
{}
