//! The limit on fields.

ghost use Rattle.std.specs.Prelude.{◌≡◌};
ghost use Rattle.pawk_record.specs.Limits.{greatest_field};

/// The greatest index of a field.
pub const GREATEST_FIELD: usize = 32_767;

/// The limit of the program is the one of the definitions.
pub fn limits_law()
    ensures { GREATEST_FIELD ≡ greatest_field }
{}
