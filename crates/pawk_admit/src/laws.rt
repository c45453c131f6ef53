//! Laws of programs that may run in chunks.

ghost use Rattle.pawk_admit.specs.Admission.{KeepToRoles, SeparatorsAreFixed};

/// What the records do with a global suits its role.
pub fn records_keep_to_roles()
    ensures { KeepToRoles }
{}

/// The variables at which the run itself looks while it reads, prints and subscripts are never
/// changed.
pub fn separators_are_fixed()
    ensures { SeparatorsAreFixed }
{}
