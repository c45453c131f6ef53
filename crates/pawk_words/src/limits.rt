//! The limits on words.

ghost use Rattle.std.specs.Prelude.{◌≡◌};
ghost use Rattle.pawk_words.specs.Words.{size_limit, name_limit};

/// The greatest size of a number, and the most bytes of a text.
pub const SIZE_LIMIT: u128 = 18_446_744_073_709_551_616;

/// The most letters of a name.
pub const NAME_LIMIT: usize = 16;

/// The constants are the limits of the definitions.
pub fn limits_law()
    ensures size { SIZE_LIMIT ≡ size_limit }
    ensures name { NAME_LIMIT ≡ name_limit }
{}
