//! Expressions of code put together, each in the sort of what it gives.

ghost use Rattle.std.specs.Prelude.{◌≡◌, [], ◌∷◌, IfOk};
ghost use Rattle.pawk_code.specs.Expressions as code;
ghost use Rattle.pawk_code.specs.ExpressionViews.{view, views, place_view, format_view, textual_view};
ghost use Rattle.pawk_resolve.specs.Sorted as spec;

use pawk_code::expression::{Expr, Format, Lvalue, Numeric, Test, Textual};
use pawk_code::format::FixedFormat;
use pawk_code::leaf::Leaf;
use pawk_code::word::{Sign, Step};
use pawk_syntax_tree::tree::Single;
use pawk_value::NUMBER_LIMIT;
use std::alloc::{AllocError, Global};
use std::mem::replace;

/// The number of a numeral.
pub fn numeral(number: u64) -> i64
    ensures { result ≡ spec.numeral number }
{
    if number < NUMBER_LIMIT {
        number as i64
    } else {
        0
    }
}

/// What is used where a checked program has nothing.
pub fn nothing() -> Expr
    ensures { view result ≡ spec.nothing }
{
    Expr::Leaf(Leaf::Number(0))
}

/// A field by its number.
fn field(e: Box<Expr>) -> Expr
    ensures { view result ≡ spec.field_of (view e.value) }
{
    match &*e {
        Expr::Leaf(Leaf::Number(n)) if *n >= 0 => Expr::Leaf(Leaf::Field(*n as usize)),
        _ => Expr::Read(Lvalue::Field(e)),
    }
}

/// What is assigned: what was read there.
pub fn place(mut e: Box<Expr>) -> Lvalue
    ensures { place_view result ≡ spec.place_of (view e.value) }
{
    match replace(&mut *e, nothing()) {
        Expr::Read(place) => place,
        Expr::Leaf(Leaf::Global(slot)) => Lvalue::Global(slot),
        Expr::Leaf(Leaf::Local(number)) => Lvalue::Local(number),
        Expr::Leaf(Leaf::Field(number)) => {
            *e = Expr::Leaf(Leaf::Number(numeral(number as u64)));
            Lvalue::Field(e)
        }
        _ => Lvalue::Field(e),
    }
}

/// One part.
fn single(alloc: Global, a: Expr) -> Result<Vec<Expr>, AllocError>
    ensures { IfOk result (λ parts. parts.items ≡ a ∷ []) }
{
    let mut parts = Vec::new(alloc);
    parts.push(a)?;
    Ok(parts)
}

/// The parts of a text on the left of a concatenation.
fn text_parts(alloc: Global, a: Textual) -> Result<Vec<Expr>, AllocError>
    ensures { IfOk result (λ parts. code.exprs (views parts.items) ≡
        spec.parts_of (code.textual (textual_view a))) }
{
    match a {
        Textual::Join(parts) => Ok(parts),
        a => single(alloc, Expr::Textual(a)),
    }
}

/// The parts of what is on the left of a concatenation.
fn parts(alloc: Global, a: Expr) -> Result<Vec<Expr>, AllocError>
    ensures { IfOk result (λ parts. code.exprs (views parts.items) ≡ spec.parts_of (view a)) }
{
    match a {
        Expr::Textual(a) => text_parts(alloc, a),
        a => single(alloc, a),
    }
}

/// The concatenation of two expressions, of which the first may be one itself.
pub fn join(alloc: Global, a: Expr, b: Expr) -> Result<Expr, AllocError>
    ensures { IfOk result (λ both. view both ≡ spec.join_of (view a) (view b)) }
{
    let mut parts = parts(alloc, a)?;
    parts.push(b)?;
    Ok(Expr::Textual(Textual::Join(parts)))
}

/// A format: a constant one is read once.
pub fn format(alloc: Global, e: Box<Expr>) -> Result<Format, AllocError>
    ensures { IfOk result (λ format. format_view format ≡ spec.format_by (view e.value)) }
{
    match &*e {
        Expr::Leaf(Leaf::Text(text)) => {
            Ok(Format::Fixed(FixedFormat::read(alloc, text.as_slice())?))
        }
        _ => Ok(Format::Value(e)),
    }
}

/// A change of a place by 1.
fn step(step: Step, e: Box<Expr>) -> Expr
    ensures { view result ≡ code.numeric (code.step step (spec.place_of (view e.value))) }
{
    Expr::Numeric(Numeric::Step(step, place(e)))
}

/// An operator with one operand.
pub fn unary(op: Single, e: Box<Expr>) -> Expr
    ensures { view result ≡ spec.unary_of op (view e.value) }
{
    match op {
        Single::Field => field(e),
        Single::Not => Expr::Test(Test::Not(e)),
        Single::Plus => Expr::Numeric(Numeric::Sign(Sign::Plus, e)),
        Single::Minus => Expr::Numeric(Numeric::Sign(Sign::Minus, e)),
        Single::IncrementBefore => step(Step::IncrementBefore, e),
        Single::DecrementBefore => step(Step::DecrementBefore, e),
        Single::IncrementAfter => step(Step::IncrementAfter, e),
        Single::DecrementAfter => step(Step::DecrementAfter, e),
    }
}
