//! The values that the directives of a format take, one after another.

ghost use Rattle.std.specs.Prelude.{◌≡◌, [], ◌∷◌, drop, MatchOption};
ghost use Rattle.pawk_value.specs.Value.{lent_value};
ghost use Rattle.pawk_value.specs.FormatViews.{shown_values, values_after};

use crate::pieces::Piece;
use crate::{Value, ValueRef, lend};

/// The values that no directive took yet.
#[derive(Clone, Copy)]
pub enum Arguments<'a> {
    /// Values.
    Owned(&'a [Value]),
    /// Values whose texts are lent.
    Lent(&'a [ValueRef<'a>]),
}

/// The first of the values, if there is one.
pub fn first_argument(arguments: Arguments<'_>) -> Option<ValueRef<'_>>
    ensures { MatchOption result (shown_values arguments.entry ≡ [])
        (λ value. shown_values arguments.entry
        ≡ lent_value value ∷ drop 1 (shown_values arguments.entry)) }
{
    match arguments {
        Arguments::Owned(values) => match values {
            [] => None,
            [value, ..] => Some(lend(value)),
        },
        Arguments::Lent(values) => match values {
            [] => None,
            [value, ..] => Some(*value),
        },
    }
}

/// The values after the first.
fn past_first(arguments: Arguments<'_>) -> Arguments<'_>
    ensures { shown_values result ≡ drop 1 (shown_values arguments.entry) }
{
    match arguments {
        Arguments::Owned(values) => match values {
            [] => arguments,
            [_, rest @ ..] => Arguments::Owned(rest),
        },
        Arguments::Lent(values) => match values {
            [] => arguments,
            [_, rest @ ..] => Arguments::Lent(rest),
        },
    }
}

/// The values that a piece leaves.
pub fn arguments_after<'a>(piece: Piece<'_>, arguments: Arguments<'a>) -> Arguments<'a>
    ensures { shown_values result
        ≡ values_after piece.entry (shown_values arguments.entry) }
{
    match piece {
        Piece::Place(_) => past_first(arguments),
        _ => arguments,
    }
}
