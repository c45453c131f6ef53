//! The limits on texts and numbers.

ghost use Rattle.std.specs.Prelude.{◌≡◌};
ghost use Rattle.pawk_value.specs.Limits.{length_limit, number_limit};

/// The greatest length of a text that is made, in bytes.
pub const LENGTH_LIMIT: usize = 16_777_216;

/// The size of the least number, which is one more than the greatest number.
pub const NUMBER_LIMIT: u64 = 9_223_372_036_854_775_808;

/// The constants are the limits of the definitions.
pub fn limits_law()
    ensures length { LENGTH_LIMIT ≡ length_limit }
    ensures number { NUMBER_LIMIT ≡ number_limit }
{}
