//! Whether statements read `NR`.

ghost use Rattle.std.specs.Prelude.{◌≡◌};
ghost use Rattle.std.specs.Option.{option_map};
ghost use Rattle.pawk_code.specs.ExpressionViews.{view};
ghost use Rattle.pawk_code.specs.StatementViews as code;
ghost use Rattle.pawk_numbered.specs.Mentions as spec;

use crate::expression::{in_expression, in_expressions, in_format, in_place};
use pawk_code::expression::Expr;
use pawk_code::statement::{Head, Leave, Simple, Statement};

/// Whether a statement with no body that leaves nothing reads `NR`.
fn in_simple(s: &Simple) -> bool
    ensures { result ≡ spec.in_simple (code.simple_view s.now) }
{
    match s {
        Simple::Drop(e) => in_expression(e),
        Simple::Set(p, e) | Simple::Add(_, p, e) => in_place(p) || in_expression(e),
        Simple::Count(_, p) => in_place(p),
        Simple::Print(operands) => in_expressions(&operands.values),
        Simple::Printf(f, operands) => in_format(f) || in_expressions(&operands.values),
        Simple::Delete(_, keys) => in_expressions(keys),
        Simple::Clear(_) => false,
    }
}

/// Whether an expression that may be missing reads `NR`.
fn in_expression_if_any(e: &Option<Expr>) -> bool
    ensures { result ≡ spec.in_expression_if_any (option_map view e.now) }
{
    match e {
        None => false,
        Some(e) => in_expression(e),
    }
}

/// Whether a part of the head of a `for` that may be missing reads `NR`.
fn in_simple_if_any(s: &Option<Simple>) -> bool
    ensures { result ≡ spec.in_simple_if_any (option_map code.simple_view s.now) }
{
    match s {
        None => false,
        Some(s) => in_simple(s),
    }
}

/// Whether a statement that leaves what surrounds it reads `NR`.
fn in_leave(l: &Leave) -> bool
    ensures { result ≡ spec.in_leave (code.leave_view l.now) }
{
    match l {
        Leave::Break | Leave::Continue | Leave::Next | Leave::NextFile => false,
        Leave::Exit(e) | Leave::Return(e) => in_expression_if_any(e),
    }
}

/// Whether the head of a `for` reads `NR`.
fn in_head(h: &Head) -> bool
    ensures { result ≡ spec.in_head (code.head_view h.now) }
{
    in_simple_if_any(&h.first) || in_expression_if_any(&h.test) || in_simple_if_any(&h.last)
}

/// Whether a statement reads `NR`.
#[cycle(statement)]
fn in_statement(x: &Statement) -> bool
    ensures { result ≡ spec.in_statement (code.stmt_view x.now) }
{
    match x {
        Statement::Simple(s) => in_simple(s),
        Statement::Leave(l) => in_leave(l),
        Statement::If(c, a) | Statement::While(c, a) | Statement::Do(a, c) => in_expression(c)
            || in_body(a),
        Statement::Choose(c, a, b) => in_expression(c) || in_body(a) || in_body(b),
        Statement::For(h, a) => in_head(h) || in_body(a),
        Statement::ForIn(_, _, a) => in_body(a),
    }
}

/// Whether a statement of a body reads `NR`.
#[cycle(statement)]
pub fn in_body(statements: &[Statement]) -> bool
    ensures { result ≡ spec.in_body (code.seen statements.now) }
{
    for x in statements {
        if in_statement(x) {
            return true;
        }
    }
    false
}
