//! Regular expressions of a running program.

ghost use Rattle.std.specs.Prelude.{◌≡◌, Err, MatchOption};
ghost use Rattle.pawk_store.specs.Builtins.{fixed_at, pattern_of_text};
ghost use Rattle.pawk_builtins.specs.ExpressionViews.{expression_of, texts_of};
ghost use Rattle.pawk_value.specs.declared.faults.Fault.TheVariants as faults;

use pawk_code::expression::Pattern;

/// A regular expression of a running program.
#[derive(Clone, Copy)]
pub struct EreReference<'e> {
    /// What is between the slashes of the program, by numbers.
    pub eres: &'e [Vec<u8>],
    /// Where the expression comes from.
    pub pattern: &'e Pattern,
    /// What it is, where it is a value.
    pub text: &'e [u8],
}

/// The text between slashes of this number, if there is one.
pub(crate) fn fixed_text(eres: &[Vec<u8>], number: usize) -> Option<&[u8]>
    ensures { MatchOption result (fixed_at (texts_of eres.now) number ≡ Err faults.Ere)
        (λ text. fixed_at (texts_of eres.now) number ≡ pattern_of_text text.now) }
{
    Some(eres.get(number)?.as_slice())
}

/// The text that is to be read as the expression, if there is one.
pub(crate) fn spelled_text<'e>(expression: EreReference<'e>) -> Option<&'e [u8]>
    ensures { MatchOption result (expression_of expression.entry ≡ Err faults.Ere)
        (λ text. expression_of expression.entry ≡ pattern_of_text text.now) }
{
    match expression.pattern {
        Pattern::Fixed(number) => fixed_text(expression.eres, *number),
        Pattern::Value(_) => Some(expression.text),
    }
}
