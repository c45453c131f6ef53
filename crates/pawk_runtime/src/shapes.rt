//! Places that are seen at once to be of some form.
//!
//! POSIX.1-2017, awk, "Variables and Special Variables".

ghost use Rattle.std.specs.Prelude.{◌≡◌, IfSome};
ghost use Rattle.pawk_code.specs.Expressions.{exprs, field, leaf, more, none, numeric, to_element};
ghost use Rattle.pawk_code.specs.ExpressionViews.{leaf_view, numeric_view, place_view, views};

use pawk_code::expression::{Expr, Lvalue, Numeric};
use pawk_code::leaf::Leaf;
use pawk_code::name::Array;

/// The only subscript, if there is one alone and it is a leaf.
#[inline(always)]
fn only_leaf(keys: &[Expr]) -> Option<&Leaf>
    ensures { IfSome result (λ only.
        exprs (views keys.now) ≡ more (leaf (leaf_view only.now)) none) }
{
    match keys {
        [Expr::Leaf(only)] => Some(only),
        _ => None,
    }
}

/// The array and the subscript of a place that is an element with one subscript, a leaf.
#[inline(always)]
pub fn leaf_element(place: &Lvalue) -> Option<(Array, &Leaf)>
    ensures { IfSome result (λ parts.
        place_view place.now ≡ to_element parts.0 (more (leaf (leaf_view parts.1.now)) none)) }
{
    let Lvalue::Element(array, keys) = place else {
        return None;
    };
    let only = only_leaf(keys)?;
    Some((*array, only))
}

/// The array and the number of the field whose text is the key of a place that is an element.
#[inline(always)]
pub fn field_element(place: &Lvalue) -> Option<(Array, usize)>
    ensures { IfSome result (λ parts.
        place_view place.now ≡ to_element parts.0 (more (leaf (field parts.1)) none)) }
{
    match leaf_element(place)? {
        (array, Leaf::Field(n)) => Some((array, *n)),
        _ => None,
    }
}

/// The only subscript, if there is one alone and it gives a number.
#[inline(always)]
fn only_numeric(keys: &[Expr]) -> Option<&Numeric>
    ensures { IfSome result (λ only.
        exprs (views keys.now) ≡ more (numeric (numeric_view only.now)) none) }
{
    match keys {
        [Expr::Numeric(only)] => Some(only),
        _ => None,
    }
}

/// The array and the subscript of a place that is an element with one subscript, which gives a number.
#[inline(always)]
pub fn numeric_element(place: &Lvalue) -> Option<(Array, &Numeric)>
    ensures { IfSome result (λ parts. place_view place.now
        ≡ to_element parts.0 (more (numeric (numeric_view parts.1.now)) none)) }
{
    let Lvalue::Element(array, keys) = place else {
        return None;
    };
    let only = only_numeric(keys)?;
    Some((*array, only))
}
