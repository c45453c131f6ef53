//! The laws of program texts. Each is the contract of a function that does nothing.

ghost use Rattle.std.specs.Prelude.{List};
ghost use Rattle.pawk_lex.specs.Bytes.{Text};
ghost use Rattle.pawk_lex.specs.Canonical.{AreBytes};
ghost use Rattle.pawk_syntax_tree.specs.Item.{Part};
ghost use Rattle.pawk_syntax_show.specs.ProgramText.{program_text};
ghost use Rattle.pawk_syntax.specs.Spells.{Spells};

pub use pawk_lex::laws::{cut_is_unique, spacing_is_free};
pub use pawk_syntax_show::laws::canonical_text_is_cut;
pub use pawk_syntax_tree::program_laws::{canonical_is_read_again, reading_is_sound};

/// The canonical text of a program that some text spells, spells it too.
pub fn canonical_text_spells()
    ensures { (text : Text) (xs : List Part) →
        AreBytes text → Spells text xs → Spells (program_text xs) xs }
{}
