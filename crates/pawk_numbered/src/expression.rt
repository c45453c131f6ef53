//! Whether expressions read `NR`.

ghost use Rattle.std.specs.Prelude.{◌≡◌};
ghost use Rattle.pawk_code.specs.Expressions.{exprs, arguments as passed};
ghost use Rattle.pawk_code.specs.ExpressionViews as code;
ghost use Rattle.pawk_numbered.specs.Mentions as spec;

use pawk_code::expression::{
    Argument, Expr, FieldsBy, Format, Lvalue, Numeric, NumericFunction, Pattern, Test, Textual,
};
use pawk_code::leaf::{Leaf, Special};

/// Whether an expression that has no other inside is `NR`.
fn in_leaf(e: &Leaf) -> bool
    ensures { result ≡ spec.in_leaf (code.leaf_view e.now) }
{
    matches!(e, Leaf::Special(Special::Nr))
}

/// Whether an expression reads `NR`.
#[cycle(expression)]
pub fn in_expression(e: &Expr) -> bool
    ensures { result ≡ spec.in_expression (code.view e.now) }
{
    match e {
        Expr::Leaf(a) => in_leaf(a),
        Expr::Numeric(n) => in_numeric(n),
        Expr::Test(t) => in_test(t),
        Expr::Textual(t) => in_textual(t),
        Expr::Read(p) => in_place(p),
        Expr::Choice(c, a, b) => in_expression(c) || in_expression(a) || in_expression(b),
        Expr::Assign(p, a) => in_place(p) || in_expression(a),
        Expr::Call(_, values) => in_arguments(values),
    }
}

/// Whether one of these reads `NR`.
#[cycle(expression)]
pub fn in_expressions(es: &[Expr]) -> bool
    ensures { result ≡ spec.in_expressions (exprs (code.views es.now)) }
{
    for e in es {
        if in_expression(e) {
            return true;
        }
    }
    false
}

/// Whether the subscripts or the number of a place read `NR`.
#[cycle(expression)]
pub fn in_place(p: &Lvalue) -> bool
    ensures { result ≡ spec.in_place (code.place_view p.now) }
{
    match p {
        Lvalue::Global(_) | Lvalue::Local(_) => false,
        Lvalue::Element(_, keys) => in_expressions(keys),
        Lvalue::Field(e) => in_expression(e),
    }
}

/// Whether a number reads `NR`.
#[cycle(expression)]
fn in_numeric(n: &Numeric) -> bool
    ensures { result ≡ spec.in_numeric (code.numeric_view n.now) }
{
    match n {
        Numeric::Arithmetic(_, a, b) => in_expression(a) || in_expression(b),
        Numeric::Sign(_, a) => in_expression(a),
        Numeric::Change(_, p, e) => in_place(p) || in_expression(e),
        Numeric::Step(_, p) => in_place(p),
        Numeric::Function(f) => in_function(f),
        Numeric::Split(e, _, by) => in_expression(e) || in_fields_by(by),
        Numeric::Replace(_, p, replacement, to) => in_pattern(p)
            || in_expression(replacement)
            || in_place(to),
        Numeric::Find(e, p) => in_expression(e) || in_pattern(p),
    }
}

/// Whether a built-in function that gives a number reads `NR`.
#[cycle(expression)]
fn in_function(f: &NumericFunction) -> bool
    ensures { result ≡ spec.in_function_of_number (code.function_view f.now) }
{
    match f {
        NumericFunction::Length(a) | NumericFunction::Whole(a) => in_expression(a),
        NumericFunction::Index(a, b) => in_expression(a) || in_expression(b),
    }
}

/// Whether a truth reads `NR`.
#[cycle(expression)]
fn in_test(t: &Test) -> bool
    ensures { result ≡ spec.in_test (code.test_view t.now) }
{
    match t {
        Test::Compare(_, a, b) | Test::And(a, b) | Test::Or(a, b) => in_expression(a)
            || in_expression(b),
        Test::Not(a) => in_expression(a),
        Test::Match(_, a, p) => in_expression(a) || in_pattern(p),
        Test::In(_, keys) => in_expressions(keys),
    }
}

/// Whether a text reads `NR`.
#[cycle(expression)]
fn in_textual(t: &Textual) -> bool
    ensures { result ≡ spec.in_textual (code.textual_view t.now) }
{
    match t {
        Textual::Join(parts) => in_expressions(parts),
        Textual::Suffix(a, b) => in_expression(a) || in_expression(b),
        Textual::Substring(a, b, c) => in_expression(a) || in_expression(b) || in_expression(c),
        Textual::Case(_, a) => in_expression(a),
        Textual::Format(f, values) => in_format(f) || in_expressions(values),
    }
}

/// Whether a regular expression reads `NR`.
#[cycle(expression)]
fn in_pattern(p: &Pattern) -> bool
    ensures { result ≡ spec.in_pattern (code.pattern_view p.now) }
{
    match p {
        Pattern::Fixed(_) => false,
        Pattern::Value(a) => in_expression(a),
    }
}

/// Whether what `split` separates by reads `NR`.
#[cycle(expression)]
fn in_fields_by(by: &FieldsBy) -> bool
    ensures { result ≡ spec.in_fields_by (code.fields_view by.now) }
{
    match by {
        FieldsBy::Fs | FieldsBy::Fixed(_) => false,
        FieldsBy::Value(a) => in_expression(a),
    }
}

/// Whether a format reads `NR`.
#[cycle(expression)]
pub fn in_format(f: &Format) -> bool
    ensures { result ≡ spec.in_format (code.format_view f.now) }
{
    match f {
        Format::Fixed(_) => false,
        Format::Value(a) => in_expression(a),
    }
}

/// Whether an argument of a call reads `NR`.
#[cycle(expression)]
fn in_argument(a: &Argument) -> bool
    ensures { result ≡ spec.in_argument (code.argument_view a.now) }
{
    match a {
        Argument::Value(e) => in_expression(e),
        Argument::Array(_) => false,
    }
}

/// Whether an argument of these reads `NR`.
#[cycle(expression)]
fn in_arguments(values: &[Argument]) -> bool
    ensures { result ≡ spec.in_arguments (passed (code.argument_views values.now)) }
{
    for value in values {
        if in_argument(value) {
            return true;
        }
    }
    false
}
