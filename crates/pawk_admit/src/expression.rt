//! What occurs in expressions.

ghost use Rattle.std.specs.Prelude.{◌≡◌, ◌++◌, OnOk};
ghost use Rattle.pawk_code.specs.Expressions.{exprs, arguments as passed};
ghost use Rattle.pawk_code.specs.ExpressionViews as code;
ghost use Rattle.pawk_admit.specs.Occurrences as spec;

use crate::occurrence::{GlobalName, Occurrence, Touch};
use pawk_code::expression::{
    Argument, Expr, FieldsBy, Format, Lvalue, Numeric, NumericFunction, Pattern, Test, Textual,
};
use pawk_code::leaf::Leaf;
use pawk_code::name::{Array, Variable};
use pawk_value::Op;
use std::alloc::AllocError;

/// Adds a global scalar, of which this is done.
pub fn scalar(list: &mut Vec<Occurrence>, touch: Touch, slot: usize) -> Result<(), AllocError>
    ensures { OnOk result (list.new.items ≡ list.old.items ++ spec.of_scalar touch slot) }
{
    list.push(Occurrence::Touch(touch, GlobalName::Scalar(slot)))?;
    Ok(())
}

/// Adds an array, with which this is done; a parameter is none.
pub fn array(list: &mut Vec<Occurrence>, touch: Touch, array: Array) -> Result<(), AllocError>
    ensures { OnOk result (list.new.items ≡ list.old.items ++ spec.of_array touch array) }
{
    if let Array::Global(slot) = array {
        list.push(Occurrence::Touch(touch, GlobalName::Array(slot)))?;
    }
    Ok(())
}

/// Adds a scalar that a walk sets, with which this is done; a parameter is none.
pub fn variable(
    list: &mut Vec<Occurrence>,
    touch: Touch,
    variable: Variable,
) -> Result<(), AllocError>
    ensures { OnOk result (list.new.items ≡ list.old.items ++ spec.of_variable touch variable) }
{
    match variable {
        Variable::Global(slot) => scalar(list, touch, slot),
        Variable::Local(_) => Ok(()),
    }
}

/// Adds what occurs in an expression that has no other inside.
fn leaf(list: &mut Vec<Occurrence>, e: &Leaf) -> Result<(), AllocError>
    ensures { OnOk result (list.new.items ≡ list.old.items ++ spec.of_leaf (code.leaf_view e.now)) }
{
    match e {
        Leaf::Global(slot) => scalar(list, Touch::Look, *slot),
        Leaf::Number(_) | Leaf::Text(_) | Leaf::Local(_) | Leaf::Special(_) | Leaf::Field(_) => {
            Ok(())
        }
    }
}

/// What `a op= b` does with `a`, where its value is used.
fn touch_by(op: Op) -> Touch
    ensures { result ≡ spec.touch_by op }
{
    match op {
        Op::Add | Op::Subtract => Touch::AddAndLook,
        Op::Multiply | Op::Divide | Op::Remainder | Op::Power => Touch::Assign,
    }
}

/// Adds what occurs in an expression.
#[cycle(expression)]
pub fn expression(list: &mut Vec<Occurrence>, e: &Expr) -> Result<(), AllocError>
    ensures { OnOk result (list.new.items ≡ list.old.items ++
        spec.of_expression (code.view e.now)) }
{
    match e {
        Expr::Leaf(a) => leaf(list, a),
        Expr::Numeric(n) => numeric(list, n),
        Expr::Test(t) => test(list, t),
        Expr::Textual(t) => textual(list, t),
        Expr::Read(p) => place(list, Touch::Look, p),
        Expr::Choice(c, a, b) => {
            expression(list, c)?;
            expression(list, a)?;
            expression(list, b)
        }
        Expr::Assign(p, a) => {
            place(list, Touch::Assign, p)?;
            expression(list, a)
        }
        Expr::Call(f, values) => {
            list.push(Occurrence::Call(*f))?;
            arguments(list, values)
        }
    }
}

/// Adds what occurs in each of these.
#[cycle(expression)]
pub fn expressions(list: &mut Vec<Occurrence>, es: &[Expr]) -> Result<(), AllocError>
    ensures { OnOk result (list.new.items ≡ list.old.items ++
        spec.of_expressions (exprs (code.views es.now))) }
{
    for e in es {
        expression(list, e)?;
    }
    Ok(())
}

/// Adds what occurs in a place, with which this is done.
#[cycle(expression)]
pub fn place(list: &mut Vec<Occurrence>, touch: Touch, p: &Lvalue) -> Result<(), AllocError>
    ensures { OnOk result (list.new.items ≡ list.old.items ++
        spec.of_place touch (code.place_view p.now)) }
{
    match p {
        Lvalue::Global(slot) => scalar(list, touch, *slot),
        Lvalue::Local(_) => Ok(()),
        Lvalue::Element(name, keys) => {
            array(list, touch, *name)?;
            expressions(list, keys)
        }
        Lvalue::Field(e) => expression(list, e),
    }
}

/// Adds what occurs in a number.
#[cycle(expression)]
fn numeric(list: &mut Vec<Occurrence>, n: &Numeric) -> Result<(), AllocError>
    ensures { OnOk result (list.new.items ≡ list.old.items ++
        spec.of_numeric (code.numeric_view n.now)) }
{
    match n {
        Numeric::Arithmetic(_, a, b) => {
            expression(list, a)?;
            expression(list, b)
        }
        Numeric::Sign(_, a) => expression(list, a),
        Numeric::Change(op, p, e) => {
            place(list, touch_by(*op), p)?;
            expression(list, e)
        }
        Numeric::Step(_, p) => place(list, Touch::AddAndLook, p),
        Numeric::Function(f) => function(list, f),
        Numeric::Split(e, name, by) => {
            expression(list, e)?;
            array(list, Touch::Split, *name)?;
            fields_by(list, by)
        }
        Numeric::Replace(_, p, replacement, to) => {
            pattern(list, p)?;
            expression(list, replacement)?;
            place(list, Touch::Assign, to)
        }
        Numeric::Find(e, p) => {
            list.push(Occurrence::Match)?;
            expression(list, e)?;
            pattern(list, p)
        }
    }
}

/// Adds what occurs in a built-in function that gives a number.
#[cycle(expression)]
fn function(list: &mut Vec<Occurrence>, f: &NumericFunction) -> Result<(), AllocError>
    ensures { OnOk result (list.new.items ≡ list.old.items ++
        spec.of_function_of_number (code.function_view f.now)) }
{
    match f {
        NumericFunction::Length(a) | NumericFunction::Whole(a) => expression(list, a),
        NumericFunction::Index(a, b) => {
            expression(list, a)?;
            expression(list, b)
        }
    }
}

/// Adds what occurs in a truth.
#[cycle(expression)]
fn test(list: &mut Vec<Occurrence>, t: &Test) -> Result<(), AllocError>
    ensures { OnOk result (list.new.items ≡ list.old.items ++ spec.of_test (code.test_view t.now)) }
{
    match t {
        Test::Compare(_, a, b) | Test::And(a, b) | Test::Or(a, b) => {
            expression(list, a)?;
            expression(list, b)
        }
        Test::Not(a) => expression(list, a),
        Test::Match(_, a, p) => {
            expression(list, a)?;
            pattern(list, p)
        }
        Test::In(name, keys) => {
            array(list, Touch::Test, *name)?;
            expressions(list, keys)
        }
    }
}

/// Adds what occurs in a text.
#[cycle(expression)]
fn textual(list: &mut Vec<Occurrence>, t: &Textual) -> Result<(), AllocError>
    ensures { OnOk result (list.new.items ≡ list.old.items ++
        spec.of_textual (code.textual_view t.now)) }
{
    match t {
        Textual::Join(parts) => expressions(list, parts),
        Textual::Suffix(a, b) => {
            expression(list, a)?;
            expression(list, b)
        }
        Textual::Substring(a, b, c) => {
            expression(list, a)?;
            expression(list, b)?;
            expression(list, c)
        }
        Textual::Case(_, a) => expression(list, a),
        Textual::Format(f, values) => {
            format(list, f)?;
            expressions(list, values)
        }
    }
}

/// Adds what occurs in a regular expression.
#[cycle(expression)]
fn pattern(list: &mut Vec<Occurrence>, p: &Pattern) -> Result<(), AllocError>
    ensures { OnOk result (list.new.items ≡ list.old.items ++
        spec.of_pattern (code.pattern_view p.now)) }
{
    match p {
        Pattern::Fixed(_) => Ok(()),
        Pattern::Value(a) => expression(list, a),
    }
}

/// Adds what occurs in what `split` separates by.
#[cycle(expression)]
fn fields_by(list: &mut Vec<Occurrence>, by: &FieldsBy) -> Result<(), AllocError>
    ensures { OnOk result (list.new.items ≡ list.old.items ++
        spec.of_fields_by (code.fields_view by.now)) }
{
    match by {
        FieldsBy::Fs | FieldsBy::Fixed(_) => Ok(()),
        FieldsBy::Value(a) => expression(list, a),
    }
}

/// Adds what occurs in a format.
#[cycle(expression)]
pub fn format(list: &mut Vec<Occurrence>, f: &Format) -> Result<(), AllocError>
    ensures { OnOk result (list.new.items ≡ list.old.items ++
        spec.of_format (code.format_view f.now)) }
{
    match f {
        Format::Fixed(_) => Ok(()),
        Format::Value(a) => expression(list, a),
    }
}

/// Adds what occurs in an argument of a call.
#[cycle(expression)]
fn argument(list: &mut Vec<Occurrence>, a: &Argument) -> Result<(), AllocError>
    ensures { OnOk result (list.new.items ≡ list.old.items ++
        spec.of_argument (code.argument_view a.now)) }
{
    match a {
        Argument::Value(e) => expression(list, e),
        Argument::Array(name) => array(list, Touch::Pass, *name),
    }
}

/// Adds what occurs in the arguments of a call.
#[cycle(expression)]
fn arguments(list: &mut Vec<Occurrence>, values: &[Argument]) -> Result<(), AllocError>
    ensures { OnOk result (list.new.items ≡ list.old.items ++
        spec.of_arguments (passed (code.argument_views values.now))) }
{
    for value in values {
        argument(list, value)?;
    }
    Ok(())
}
