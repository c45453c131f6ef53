//! Whether code is calm: its evaluation changes no variable and prints nothing.

ghost use Rattle.std.specs.Prelude.{◌≡◌};
ghost use Rattle.pawk_code.specs.Calm as spec;
ghost use Rattle.pawk_code.specs.Expressions.{exprs};
ghost use Rattle.pawk_code.specs.ExpressionViews as code;

use pawk_code::expression::{
    Expr, Format, Lvalue, Numeric, NumericFunction, Pattern, Test, Textual,
};

/// Whether an expression is calm.
#[cycle(calm)]
fn is_calm(e: &Expr) -> bool
    ensures { result ≡ spec.is_calm (code.view e.now) }
{
    match e {
        Expr::Leaf(_) => true,
        Expr::Numeric(n) => is_calm_numeric(n),
        Expr::Test(t) => is_calm_test(t),
        Expr::Textual(t) => is_calm_textual(t),
        Expr::Read(p) => is_calm_place(p),
        Expr::Choice(c, a, b) => is_calm(c) && (is_calm(a) && is_calm(b)),
        Expr::Assign(_, _) | Expr::Call(_, _) => false,
    }
}

/// Whether all of these are calm.
#[cycle(calm)]
pub fn are_calm(es: &[Expr]) -> bool
    ensures { result ≡ spec.are_calm (exprs (code.views es.now)) }
{
    for e in es {
        if !is_calm(e) {
            return false;
        }
    }
    true
}

/// Whether the reading of a place is calm.
#[cycle(calm)]
fn is_calm_place(p: &Lvalue) -> bool
    ensures { result ≡ spec.is_calm_place (code.place_view p.now) }
{
    match p {
        Lvalue::Global(_) | Lvalue::Local(_) => true,
        Lvalue::Element(_, keys) => are_calm(keys),
        Lvalue::Field(e) => is_calm(e),
    }
}

/// Whether a number is calm.
#[cycle(calm)]
fn is_calm_numeric(n: &Numeric) -> bool
    ensures { result ≡ spec.is_calm_numeric (code.numeric_view n.now) }
{
    match n {
        Numeric::Arithmetic(_, a, b) | Numeric::Function(NumericFunction::Index(a, b)) => {
            is_calm(a) && is_calm(b)
        }
        Numeric::Sign(_, a)
        | Numeric::Function(NumericFunction::Length(a) | NumericFunction::Whole(a)) => is_calm(a),
        Numeric::Change(_, _, _)
        | Numeric::Step(_, _)
        | Numeric::Split(_, _, _)
        | Numeric::Replace(_, _, _, _)
        | Numeric::Find(_, _) => false,
    }
}

/// Whether a truth is calm.
#[cycle(calm)]
fn is_calm_test(t: &Test) -> bool
    ensures { result ≡ spec.is_calm_test (code.test_view t.now) }
{
    match t {
        Test::Compare(_, a, b)
        | Test::And(a, b)
        | Test::Or(a, b)
        | Test::Match(_, a, Pattern::Value(b)) => is_calm(a) && is_calm(b),
        Test::Not(a) | Test::Match(_, a, Pattern::Fixed(_)) => is_calm(a),
        Test::In(_, keys) => are_calm(keys),
    }
}

/// Whether a text is calm.
#[cycle(calm)]
fn is_calm_textual(t: &Textual) -> bool
    ensures { result ≡ spec.is_calm_textual (code.textual_view t.now) }
{
    match t {
        Textual::Join(parts) => are_calm(parts),
        Textual::Suffix(a, b) => is_calm(a) && is_calm(b),
        Textual::Substring(a, b, c) => is_calm(a) && (is_calm(b) && is_calm(c)),
        Textual::Case(_, a) => is_calm(a),
        Textual::Format(f, values) => is_calm_format(f) && are_calm(values),
    }
}

/// Whether a format is calm.
#[cycle(calm)]
fn is_calm_format(f: &Format) -> bool
    ensures { result ≡ spec.is_calm_format (code.format_view f.now) }
{
    match f {
        Format::Fixed(_) => true,
        Format::Value(a) => is_calm(a),
    }
}
