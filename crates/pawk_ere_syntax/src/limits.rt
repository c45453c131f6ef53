// The limits of expressions.

/// The greatest bound of a repetition.
pub const GREATEST_BOUND: u8 = 255;

/// The greatest size of an expression, with its bounds written out.
pub const GREATEST_SIZE: u32 = 4096;
