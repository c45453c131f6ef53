//! The laws of expressions. Each is the contract of a function that does nothing.

ghost use Rattle.std.specs.Prelude.{◌≡◌};
ghost use Rattle.pawk_syntax_tree.specs.Tree.{Tree};
ghost use Rattle.pawk_code.specs.Expressions.{Expr};
ghost use Rattle.pawk_resolve.specs.Scopes.{Scope};
ghost use Rattle.pawk_resolve.specs.Resolved.{resolved};
ghost use Rattle.pawk_resolve_law.specs.Names.{AreTables};
ghost use Rattle.pawk_resolve_law.specs.Spelled.{spelled};
ghost use Rattle.pawk_resolve_law.specs.Fits.{Fits};
ghost use Rattle.pawk_resolve_law.specs.Proper.{IsProper};

/// The code of an expression is another writing of it.
pub fn code_spells()
    ensures { (s : Scope) (t : Tree) → IsProper s t → spelled s (resolved s t) ≡ t }
{}

/// The code of an expression is in normal form.
pub fn code_fits()
    ensures { (s : Scope) (t : Tree) → IsProper s t → Fits s (resolved s t) }
{}

/// There is one code in normal form that is another writing of an expression.
pub fn code_is_unique()
    ensures { (s : Scope) (c d : Expr) → AreTables s → Fits s c → Fits s d →
        spelled s c ≡ spelled s d → c ≡ d }
{}
