//! What operators and built-in functions do, as words.

/// The sign of an operand or of an amount.
#[derive(Clone, Copy, PartialEq, Eq)]
pub enum Sign {
    Plus,
    Minus,
}

/// A change of a place by 1, and whether it comes before or after its value is read.
#[derive(Clone, Copy, PartialEq, Eq)]
pub enum Step {
    /// `++x`
    IncrementBefore,
    /// `--x`
    DecrementBefore,
    /// `x++`
    IncrementAfter,
    /// `x--`
    DecrementAfter,
}

/// A comparison.
#[derive(Clone, Copy, PartialEq, Eq)]
pub enum Relation {
    Less,
    LessEqual,
    Equal,
    NotEqual,
    Greater,
    GreaterEqual,
}

/// Which matches are replaced: the first, as `sub` does, or all, as `gsub` does.
#[derive(Clone, Copy, PartialEq, Eq)]
pub enum ReplacedMatches {
    First,
    All,
}

/// The letters that `tolower` and `toupper` give.
#[derive(Clone, Copy, PartialEq, Eq)]
pub enum Case {
    Lower,
    Upper,
}
