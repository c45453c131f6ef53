//! The operands of a replacement.

use pawk_code::expression::{Expr, Lvalue, Pattern};
use pawk_code::word::ReplacedMatches;

/// The operands of `sub` and `gsub`.
#[derive(Clone, Copy)]
pub struct Replacement<'e> {
    pub count: ReplacedMatches,
    pub pattern: &'e Pattern,
    /// What stands for a match.
    pub text: &'e Expr,
    /// The place of the text in which matches are replaced.
    pub place: &'e Lvalue,
}
