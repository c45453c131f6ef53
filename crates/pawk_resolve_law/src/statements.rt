//! The laws of bodies, which are lists of statements. Each is the contract of a function that does
//! nothing.

ghost use Rattle.std.specs.Prelude.{◌≡◌};
ghost use Rattle.pawk_syntax_tree.specs.Statement.{Stmts as TreeStmts};
ghost use Rattle.pawk_code.specs.Statements.{Stmts};
ghost use Rattle.pawk_resolve.specs.Scopes.{Scope};
ghost use Rattle.pawk_resolve.specs.ResolvedStatements.{resolved_body};
ghost use Rattle.pawk_resolve_law.specs.Names.{AreTables};
ghost use Rattle.pawk_resolve_law.specs.SpelledStatements.{spelled_body};
ghost use Rattle.pawk_resolve_law.specs.FitsStatements.{FitsBody};
ghost use Rattle.pawk_resolve_law.specs.ProperStatements.{IsProperBody};

/// The code of a body is another writing of it.
pub fn code_spells()
    ensures { (s : Scope) (xs : TreeStmts) → IsProperBody s xs →
        spelled_body s (resolved_body s xs) ≡ xs }
{}

/// The code of a body is in normal form.
pub fn code_fits()
    ensures { (s : Scope) (xs : TreeStmts) → IsProperBody s xs → FitsBody s (resolved_body s xs) }
{}

/// There is one code in normal form that is another writing of a body.
pub fn code_is_unique()
    ensures { (s : Scope) (c d : Stmts) → AreTables s → FitsBody s c → FitsBody s d →
        spelled_body s c ≡ spelled_body s d → c ≡ d }
{}
