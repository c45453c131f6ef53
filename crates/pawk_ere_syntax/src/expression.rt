// Expressions as they are written.

ghost use Rattle.pawk_ere_syntax.specs.Grammar.{repeated_size, size};
ghost use Rattle.pawk_ere_syntax.specs.Limits.{greatest_size};
ghost use Rattle.pawk_ere_syntax.specs.Tree.{pattern_of};
ghost use Rattle.std.specs.Prelude.{◌≡◌, ◌<◌, ◌≤◌, MatchOption};

use crate::byte_set::ByteSet;
use crate::limits::GREATEST_SIZE;

/// An expression as it is written.
#[derive(Drop)]
pub enum Expression {
    Empty,
    Start,
    End,
    Bytes(Box<ByteSet>),
    Group(Box<Expression>),
    Repeat(Box<Expression>, u8, Option<u8>),
    Sequence(Box<Expression>, Box<Expression>),
    Either(Box<Expression>, Box<Expression>),
}

/// The size of a repetition of an expression of that size.
pub fn repeated_size_of(size: u32, least: u8, most: Option<u8>) -> u32
    requires { size ≤ greatest_size }
    ensures { result ≡ repeated_size size least most }
{
    match most {
        None => size * u32::from(least.max(1)) + 1,
        Some(most) => size * u32::from(most.max(1)) + u32::from(most.saturating_sub(least)),
    }
}

/// The size, with the bounds written out, where it is at most the greatest.
pub fn size_of(e: &Expression) -> Option<u32>
    ensures { let whole = size (pattern_of e.now) in
        MatchOption result (greatest_size < whole) (λ n. (n ≡ whole) × (n ≤ greatest_size)) }
{
    let size = match e {
        Expression::Empty => 0,
        Expression::Start | Expression::End | Expression::Bytes(_) => 1,
        Expression::Group(a) => size_of(a)? + 1,
        Expression::Repeat(a, least, most) => repeated_size_of(size_of(a)?, *least, *most),
        Expression::Sequence(a, b) => size_of(a)? + size_of(b)?,
        Expression::Either(a, b) => size_of(a)? + size_of(b)? + 1,
    };
    if size > GREATEST_SIZE {
        return None;
    }
    Some(size)
}
