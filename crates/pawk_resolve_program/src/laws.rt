//! The laws of resolved programs. Each is the contract of a function that does nothing.

ghost use Rattle.std.specs.Prelude.{List};
ghost use Rattle.pawk_syntax_tree.specs.Item.{Part};
ghost use Rattle.pawk_syntax_check.specs.Demands.{Kinds};
ghost use Rattle.pawk_resolve.specs.ResolvedPrograms.{scalar_names};
ghost use Rattle.pawk_resolve_program.specs.FirstSlots.{AreFirst};

/// The variables of the language that a program may assign have the same slots in every program.
pub fn first_slots_are_fixed()
    ensures { (k : Kinds) (ps : List Part) → AreFirst (scalar_names k ps) }
{}
