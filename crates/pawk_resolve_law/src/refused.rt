//! What is in no normal form. Each is the contract of a function that does nothing.

ghost use Rattle.std.specs.Prelude.{◌≡◌, ◌≤◌, ℕ, length, Some};
ghost use Rattle.pawk_value.specs.declared.arithmetic.Op.TheVariants as op;
ghost use Rattle.pawk_code.specs.Expressions.{Expr, Place, leaf, global, numeric, change};
ghost use Rattle.pawk_code.specs.Statements.{simple, drop};
ghost use Rattle.pawk_resolve.specs.Slots.{place};
ghost use Rattle.pawk_resolve.specs.Scopes.{Scope};
ghost use Rattle.pawk_resolve_law.specs.Names.{name_at};
ghost use Rattle.pawk_resolve_law.specs.Fits.{Fits};
ghost use Rattle.pawk_resolve_law.specs.FitsStatements.{FitsStatement};

/// A global scalar whose name is a parameter's.
pub fn hidden_scalar()
    ensures { (s : Scope) (n i : ℕ) → place s.parameters (name_at s.globals.scalars n) ≡ Some i →
        Fits s (leaf (global n)) → ⊥ }
{}

/// A slot past the end of its table.
pub fn slot_past_its_table()
    ensures { (s : Scope) (n : ℕ) → length s.globals.scalars ≤ n → Fits s (leaf (global n)) → ⊥ }
{}

/// An addition whose value is dropped, as an expression.
pub fn dropped_addition()
    ensures { (s : Scope) (p : Place) (e : Expr) →
        FitsStatement s (simple (drop (numeric (change op.Add p e)))) → ⊥ }
{}
