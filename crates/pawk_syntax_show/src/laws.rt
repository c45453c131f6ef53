//! The laws of canonical texts. Each is the contract of a function that does nothing.

ghost use Rattle.std.specs.Prelude.{List};
ghost use Rattle.pawk_lex.specs.Bytes.{Text};
ghost use Rattle.pawk_lex.specs.Tokens.{Tok};
ghost use Rattle.pawk_lex.specs.Cut.{Cut};
ghost use Rattle.pawk_lex.specs.Canonical.{AreBytes};
ghost use Rattle.pawk_syntax_tree.specs.Item.{Part};
ghost use Rattle.pawk_syntax_tree.specs.ItemGrammar.{Programs};
ghost use Rattle.pawk_syntax_tree.specs.ItemCanonical.{canon_program};
ghost use Rattle.pawk_syntax_show.specs.ProgramText.{program_text};

/// The canonical text of a program that some text spells is cut into the program's canonical
/// tokens.
pub fn canonical_text_is_cut()
    ensures { (text : Text) (ts : List Tok) (xs : List Part) → AreBytes text → Cut text ts →
        Programs ts xs → Cut (program_text xs) (canon_program xs) }
{}
