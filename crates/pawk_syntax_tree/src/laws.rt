//! The laws of reading expressions. Each is the contract of a function that does nothing.

ghost use Rattle.std.specs.Prelude.{◌≡◌, ◌≤◌, ◌*◌, ℕ, Bool, List, Some, false, true};
ghost use Rattle.pawk_lex.specs.Tokens.{Tok};
ghost use Rattle.pawk_syntax_tree.specs.Tree.{Tree};
ghost use Rattle.pawk_syntax_tree.specs.Grammar.{Derives};
ghost use Rattle.pawk_syntax_tree.specs.Canonical.{canon, height, opening, closing};
ghost use Rattle.pawk_syntax_tree.specs.Parse.{expr, greatest_depth, greatest_height};

/// An expression that is read is derived by the tokens that were read.
pub fn reading_is_sound()
    ensures { (depth : ℕ) (compares : Bool) (ts rest : List Tok) (a : Tree) →
        expr depth compares 0 ts ≡ Some (a, rest) → Derives compares 0 ts rest a }
{}

/// The canonical tokens of a tree that some tokens derive, and that is not too high, are read as
/// that tree, before any closing bracket.
pub fn canonical_is_read_again()
    ensures { (compares : Bool) (level : ℕ) (ts others rest : List Tok) (a : Tree) →
        Derives compares level ts others a → height a ≤ greatest_height →
        expr greatest_depth compares 0 (canon a (closing rest)) ≡ Some (a, closing rest) }
{}
