//! What occurs in statements.

ghost use Rattle.std.specs.Prelude.{◌≡◌, ◌++◌, OnOk, map};
ghost use Rattle.std.specs.Option.{option_map};
ghost use Rattle.pawk_code.specs.ExpressionViews.{view};
ghost use Rattle.pawk_code.specs.StatementViews.{simple_view, leave_view, head_view, stmt_view, seen};
ghost use Rattle.pawk_code.specs.ProgramViews.{selector_view, rule_view, function_view};
ghost use Rattle.pawk_admit.specs.Occurrences as spec;

use crate::expression::{array, expression, expressions, format, place, variable};
use crate::occurrence::{Occurrence, Touch};
use pawk_code::expression::Expr;
use pawk_code::program::{Function, Rule, Selector};
use pawk_code::statement::{Head, Leave, Simple, Statement};
use std::alloc::AllocError;

/// Adds what occurs in a statement with no body that leaves nothing.
fn simple(list: &mut Vec<Occurrence>, s: &Simple) -> Result<(), AllocError>
    ensures { OnOk result (list.new.items ≡ list.old.items ++ spec.of_simple (simple_view s.now)) }
{
    match s {
        Simple::Drop(e) => expression(list, e),
        Simple::Set(p, e) => {
            place(list, Touch::Set, p)?;
            expression(list, e)
        }
        Simple::Add(_, p, e) => {
            place(list, Touch::Add, p)?;
            expression(list, e)
        }
        Simple::Count(_, p) => place(list, Touch::Add, p),
        Simple::Print(operands) => expressions(list, &operands.values),
        Simple::Printf(f, operands) => {
            format(list, f)?;
            expressions(list, &operands.values)
        }
        Simple::Delete(name, keys) => {
            array(list, Touch::Delete, *name)?;
            expressions(list, keys)
        }
        Simple::Clear(name) => array(list, Touch::Delete, *name),
    }
}

/// Adds what occurs in an expression that may be missing.
fn expression_if_any(list: &mut Vec<Occurrence>, e: &Option<Expr>) -> Result<(), AllocError>
    ensures { OnOk result (list.new.items ≡ list.old.items ++
        spec.of_expression_if_any (option_map view e.now)) }
{
    match e {
        None => Ok(()),
        Some(e) => expression(list, e),
    }
}

/// Adds what occurs in a part of the head of a `for` that may be missing.
fn simple_if_any(list: &mut Vec<Occurrence>, s: &Option<Simple>) -> Result<(), AllocError>
    ensures { OnOk result (list.new.items ≡ list.old.items ++
        spec.of_simple_if_any (option_map simple_view s.now)) }
{
    match s {
        None => Ok(()),
        Some(s) => simple(list, s),
    }
}

/// Adds what occurs in a statement that leaves what surrounds it.
fn leave(list: &mut Vec<Occurrence>, l: &Leave) -> Result<(), AllocError>
    ensures { OnOk result (list.new.items ≡ list.old.items ++ spec.of_leave (leave_view l.now)) }
{
    match l {
        Leave::Break | Leave::Continue | Leave::Next => Ok(()),
        Leave::NextFile => {
            list.push(Occurrence::NextFile)?;
            Ok(())
        }
        Leave::Exit(e) | Leave::Return(e) => expression_if_any(list, e),
    }
}

/// Adds what occurs in the head of a `for`.
fn head(list: &mut Vec<Occurrence>, h: &Head) -> Result<(), AllocError>
    ensures { OnOk result (list.new.items ≡ list.old.items ++ spec.of_head (head_view h.now)) }
{
    simple_if_any(list, &h.first)?;
    expression_if_any(list, &h.test)?;
    simple_if_any(list, &h.last)
}

/// Adds what occurs in a condition and in a body.
#[cycle(statement)]
fn guarded(
    list: &mut Vec<Occurrence>,
    statements: &[Statement],
    condition: &Expr,
) -> Result<(), AllocError>
    ensures { OnOk result (list.new.items ≡ list.old.items ++
        (spec.of_expression (view condition.now) ++ spec.of_body (seen statements.now))) }
{
    expression(list, condition)?;
    body(list, statements)
}

/// Adds what occurs in a statement.
#[cycle(statement)]
fn statement(list: &mut Vec<Occurrence>, x: &Statement) -> Result<(), AllocError>
    ensures { OnOk result (list.new.items ≡ list.old.items ++ spec.of_statement (stmt_view x.now)) }
{
    match x {
        Statement::Simple(s) => simple(list, s),
        Statement::Leave(l) => leave(list, l),
        Statement::If(c, a) | Statement::While(c, a) | Statement::Do(a, c) => guarded(list, a, c),
        Statement::Choose(c, a, b) => {
            guarded(list, a, c)?;
            body(list, b)
        }
        Statement::For(h, a) => {
            head(list, h)?;
            body(list, a)
        }
        Statement::ForIn(key, name, a) => {
            variable(list, Touch::Assign, *key)?;
            array(list, Touch::Walk, *name)?;
            body(list, a)
        }
    }
}

/// Adds what occurs in a body.
#[cycle(statement)]
fn body(list: &mut Vec<Occurrence>, statements: &[Statement]) -> Result<(), AllocError>
    ensures { OnOk result (list.new.items ≡ list.old.items ++ spec.of_body (seen statements.now)) }
{
    for x in statements {
        statement(list, x)?;
    }
    Ok(())
}

/// Adds what occurs where a rule says which records it runs on.
fn selector(list: &mut Vec<Occurrence>, s: &Selector) -> Result<(), AllocError>
    ensures { OnOk result (list.new.items ≡ list.old.items ++
        spec.of_selector (selector_view s.now)) }
{
    match s {
        Selector::Always => Ok(()),
        Selector::When(e) => expression(list, e),
        Selector::Range(e, f) => {
            list.push(Occurrence::Range)?;
            expression(list, e)?;
            expression(list, f)
        }
    }
}

/// Adds what occurs in rules.
pub fn rules(list: &mut Vec<Occurrence>, rules: &[Rule]) -> Result<(), AllocError>
    ensures { OnOk result (list.new.items ≡ list.old.items ++
        spec.of_rules (map rule_view rules.now)) }
{
    for rule in rules {
        selector(list, &rule.selector)?;
        body(list, &rule.body)?;
    }
    Ok(())
}

/// Adds what occurs in the function of this slot, if there is one.
pub fn function(
    list: &mut Vec<Occurrence>,
    functions: &[Function],
    slot: usize,
) -> Result<(), AllocError>
    ensures { OnOk result (list.new.items ≡ list.old.items ++
        spec.of_function (map function_view functions.now) slot) }
{
    match functions.get(slot) {
        None => Ok(()),
        Some(function) => body(list, &function.body),
    }
}
