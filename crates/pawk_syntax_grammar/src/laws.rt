//! The law of brackets in canonical text. It is the contract of a function that does nothing.

ghost use Rattle.std.specs.Prelude.{◌≡◌, List, true};
ghost use Rattle.pawk_syntax_tree.specs.Item.{Part, AreLow};
ghost use Rattle.pawk_syntax_tree.specs.ItemCanonical.{canon_program};
ghost use Rattle.pawk_syntax_grammar.specs.Brackets.{are_few};

/// The canonical tokens of a program of which no item is too high open few brackets.
pub fn canonical_opens_few()
    ensures { (xs : List Part) → AreLow xs → are_few 0 (canon_program xs) ≡ true }
{}
