//! The laws of expressions between slashes. Each is the contract of a function that does nothing.

ghost use Rattle.std.specs.Prelude.{◌≡◌, List, []};
ghost use Rattle.pawk_lex.specs.Tokens.{Tok};
ghost use Rattle.pawk_syntax_tree.specs.Item.{Part};
ghost use Rattle.pawk_syntax_tree.specs.ItemGrammar.{Programs};
ghost use Rattle.pawk_syntax_tree.specs.ItemCanonical.{canon_program};
ghost use Rattle.pawk_syntax_grammar.specs.Expressions.{eres, eres_of_program};

/// The expressions of a program are those of its tokens, in order.
pub fn derivation_keeps_expressions()
    ensures { (ts : List Tok) (xs : List Part) → Programs ts xs → eres ts ≡ eres_of_program xs }
{}

/// The expressions of a program are those of its canonical tokens, in order.
pub fn canonical_keeps_expressions()
    ensures { (xs : List Part) → eres (canon_program xs) ≡ eres_of_program xs }
{}
