//! The laws of reading programs. Each is the contract of a function that does nothing.

ghost use Rattle.std.specs.Prelude.{◌≡◌, List, [], Some};
ghost use Rattle.pawk_lex.specs.Tokens.{Tok};
ghost use Rattle.pawk_syntax_tree.specs.Item.{Part, AreLow};
ghost use Rattle.pawk_syntax_tree.specs.ItemGrammar.{Programs};
ghost use Rattle.pawk_syntax_tree.specs.ItemCanonical.{canon_program};
ghost use Rattle.pawk_syntax_tree.specs.ItemParse.{program};

/// A program that is read is derived by all of the tokens, and no item of it is too high.
pub fn reading_is_sound()
    ensures derived { (ts rest : List Tok) (xs : List Part) →
        program ts ≡ Some (xs, rest) → Programs ts xs × (rest ≡ []) }
    ensures low { (ts rest : List Tok) (xs : List Part) →
        program ts ≡ Some (xs, rest) → AreLow xs }
{}

/// The canonical tokens of a program that some tokens derive, and of which no item is too high, are
/// read as that program.
pub fn canonical_is_read_again()
    ensures { (ts : List Tok) (xs : List Part) →
        Programs ts xs → AreLow xs → program (canon_program xs) ≡ Some (xs, []) }
{}
