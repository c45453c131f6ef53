//! Expressions of code that hold lists.

ghost use Rattle.std.specs.Prelude.{◌≡◌};
ghost use Rattle.pawk_code.specs.Expressions as code;
ghost use Rattle.pawk_code.specs.ExpressionViews.{view, views, argument_views, format_view};

use pawk_code::expression::{Argument, Expr, Format, Lvalue, Test, Textual};
use pawk_code::name::Array;

/// An element that is read.
pub fn element(array: Array, keys: Vec<Expr>) -> Expr
    ensures { view result ≡ code.read (code.to_element array (code.exprs (views keys.items))) }
{
    Expr::Read(Lvalue::Element(array, keys))
}

/// Whether an array has an element.
pub fn member(array: Array, keys: Vec<Expr>) -> Expr
    ensures { view result ≡ code.test (code.member array (code.exprs (views keys.items))) }
{
    Expr::Test(Test::In(array, keys))
}

/// `sprintf` of a format and what it shows.
pub fn formatted(format: Format, values: Vec<Expr>) -> Expr
    ensures { view result ≡
        code.textual (code.formatted (format_view format) (code.exprs (views values.items))) }
{
    Expr::Textual(Textual::Format(format, values))
}

/// A call of the function of this slot.
pub fn call(slot: usize, arguments: Vec<Argument>) -> Expr
    ensures { view result ≡ code.call slot (code.arguments (argument_views arguments.items)) }
{
    Expr::Call(slot, arguments)
}
