//! The code of statements with no body.

ghost use Rattle.std.specs.Prelude.{◌≡◌, IfOk, IsOkAnd};
ghost use Rattle.std.specs.Option.{option_map};
ghost use Rattle.pawk_code.specs.Expressions as code;
ghost use Rattle.pawk_code.specs.ExpressionViews.{view, views, numeric_view};
ghost use Rattle.pawk_code.specs.Calm as calm;
ghost use Rattle.pawk_code.specs.StatementViews.{simple_view, head_view, stmt_view, leave_view};
ghost use Rattle.pawk_syntax_tree.specs.Tree.{trees, view as tree_view, views as tree_views};
ghost use Rattle.pawk_syntax_tree.specs.Statement.{stmt_view as tree_stmt_view, option_view};
ghost use Rattle.pawk_code.specs.Statements as statements;
ghost use Rattle.pawk_resolve.specs.Scopes.{array_of};
ghost use Rattle.pawk_resolve.specs.ScopeViews.{scope_view};
ghost use Rattle.pawk_resolve.specs.Resolved.{resolved, resolved_all};
ghost use Rattle.pawk_resolve.specs.ResolvedStatements as spec;

use crate::calm::are_calm;
use crate::expression::{expression, format_of, list};
use pawk_code::expression::{Expr, Numeric};
use pawk_code::statement::{Head, Leave, Operands, Simple, Statement};
use pawk_code::word::Sign;
use pawk_resolve::scope::Scope;
use pawk_resolve::sorted::nothing;
use pawk_syntax_parse::build::both;
use pawk_syntax_tree::statement::{Jump as Word, StatementTree as TreeStatement};
use pawk_syntax_tree::tree::{ExpressionTree as Tree, Name};
use pawk_value::Op;
use std::alloc::{AllocError, Global};

/// A number whose value is dropped.
fn dropped_number(n: Numeric) -> Simple
    ensures { simple_view result ≡ spec.dropped (code.numeric (numeric_view n)) }
{
    match n {
        Numeric::Change(Op::Add, to, e) => Simple::Add(Sign::Plus, to, Box::into_inner(e)),
        Numeric::Change(Op::Subtract, to, e) => Simple::Add(Sign::Minus, to, Box::into_inner(e)),
        Numeric::Step(step, to) => Simple::Count(step, to),
        n => Simple::Drop(Expr::Numeric(n)),
    }
}

/// An expression whose value is dropped.
fn dropped(e: Expr) -> Simple
    ensures { simple_view result ≡ spec.dropped (view e) }
{
    match e {
        Expr::Assign(to, e) => Simple::Set(to, Box::into_inner(e)),
        Expr::Numeric(n) => dropped_number(n),
        e => Simple::Drop(e),
    }
}

/// What is printed.
fn operands(values: Vec<Expr>) -> Operands
    ensures calm { result.calm ≡ calm.are_calm (code.exprs (views values.items)) }
    ensures values { result.values ≡ values }
{
    let calm = are_calm(values.as_slice());
    Operands { calm, values }
}

/// The code of an expression that may be missing.
pub fn option<'t>(
    scope: &Scope<'_, 't>,
    alloc: Global,
    tree: &'t Option<Tree>,
) -> Result<Option<Expr>, AllocError>
    ensures { IfOk result (λ o. option_map view o ≡
        option_map (resolved (scope_view scope.now)) (option_view tree.now)) }
{
    match tree {
        None => Ok(None),
        Some(tree) => Ok(Some(expression(scope, alloc, tree)?)),
    }
}

/// The code of an expression that is a statement.
fn simple<'t>(scope: &Scope<'_, 't>, alloc: Global, tree: &'t Tree) -> Result<Simple, AllocError>
    ensures { IfOk result (λ x. simple_view x ≡
        spec.simple_of (scope_view scope.now) (tree_view tree.now)) }
{
    Ok(dropped(expression(scope, alloc, tree)?))
}

/// The code of an expression that is a statement, where there is one.
fn simple_option<'t>(
    scope: &Scope<'_, 't>,
    alloc: Global,
    tree: &'t Option<Tree>,
) -> Result<Option<Simple>, AllocError>
    ensures { IfOk result (λ o. option_map simple_view o ≡
        option_map (spec.simple_of (scope_view scope.now)) (option_view tree.now)) }
{
    match tree {
        None => Ok(None),
        Some(tree) => Ok(Some(simple(scope, alloc, tree)?)),
    }
}

/// The head of `for (a; b; c)`.
pub fn head<'t>(
    scope: &Scope<'_, 't>,
    alloc: Global,
    a: &'t Option<Tree>,
    b: &'t Option<Tree>,
    c: &'t Option<Tree>,
) -> Result<Head, AllocError>
    ensures { IfOk result (λ h. head_view h ≡ spec.head_of (scope_view scope.now)
        (option_view a.now) (option_view b.now) (option_view c.now)) }
{
    let first = simple_option(scope, alloc, a);
    let test = option(scope, alloc, b);
    let last = simple_option(scope, alloc, c);
    let (first, (test, last)) = both(first, both(test, last))?;
    Ok(Head { first, test, last })
}

/// `print` of these.
fn print<'t>(scope: &Scope<'_, 't>, alloc: Global, es: &'t [Tree]) -> Result<Simple, AllocError>
    ensures { IfOk result (λ x. simple_view x ≡ spec.print_of
        (resolved_all (scope_view scope.now) (trees (tree_views es.now)))) }
{
    Ok(Simple::Print(operands(list(scope, alloc, es)?)))
}

/// `printf` of these, of which the first is the format.
fn printf<'t>(scope: &Scope<'_, 't>, alloc: Global, es: &'t [Tree]) -> Result<Simple, AllocError>
    ensures { IfOk result (λ x. simple_view x ≡
        spec.printf_of (scope_view scope.now) (trees (tree_views es.now))) }
{
    match es {
        [] => Ok(Simple::Drop(nothing())),
        [first, others @ ..] => {
            let format = format_of(scope, alloc, first);
            let (format, values) = both(format, list(scope, alloc, others))?;
            Ok(Simple::Printf(format, operands(values)))
        }
    }
}

/// `delete a[k, l]`
fn delete<'t>(
    scope: &Scope<'_, 't>,
    alloc: Global,
    name: &'t Name,
    keys: &'t [Tree],
) -> Result<Simple, AllocError>
    ensures { IfOk result (λ x. simple_view x ≡ statements.delete
        (array_of (scope_view scope.now) name.now.text.items)
        (resolved_all (scope_view scope.now) (trees (tree_views keys.now)))) }
{
    let keys = list(scope, alloc, keys)?;
    Ok(Simple::Delete(scope.array(name.text.as_slice()), keys))
}

/// `delete a`
fn clear(scope: &Scope<'_, '_>, name: &Name) -> Simple
    ensures { simple_view result ≡
        statements.clear (array_of (scope_view scope.now) name.now.text.items) }
{
    Simple::Clear(scope.array(name.text.as_slice()))
}

/// A word that leaves.
fn left_by(word: Word) -> Leave
    ensures { leave_view result ≡ spec.left_by word }
{
    match word {
        Word::Next => Leave::Next,
        Word::NextFile => Leave::NextFile,
        Word::Break => Leave::Break,
        Word::Continue => Leave::Continue,
    }
}

/// The code of a statement that leaves what surrounds it; of another one the number 0.
fn leave<'t>(
    scope: &Scope<'_, 't>,
    alloc: Global,
    x: &'t TreeStatement,
) -> Result<Statement, AllocError>
    ensures { IfOk result (λ y. stmt_view y ≡
        spec.resolved_leave (scope_view scope.now) (tree_stmt_view x.now)) }
{
    match x {
        TreeStatement::Leave(word, _) => Ok(Statement::Leave(left_by(*word))),
        TreeStatement::Exit(e) => Ok(Statement::Leave(Leave::Exit(option(scope, alloc, e)?))),
        TreeStatement::Return(e, _) => {
            Ok(Statement::Leave(Leave::Return(option(scope, alloc, e)?)))
        }
        _ => Ok(Statement::Simple(Simple::Drop(nothing()))),
    }
}

/// A statement with no body that leaves nothing.
fn simple_statement(code: Result<Simple, AllocError>) -> Result<Statement, AllocError>
    ensures { IfOk result (λ y. IsOkAnd code (λ x.
        stmt_view y ≡ statements.simple (simple_view x))) }
{
    Ok(Statement::Simple(code?))
}

/// The code of a statement with no body; of another one the number 0.
pub fn plain<'t>(
    scope: &Scope<'_, 't>,
    alloc: Global,
    x: &'t TreeStatement,
) -> Result<Statement, AllocError>
    ensures { IfOk result (λ y. stmt_view y ≡
        spec.resolved_plain (scope_view scope.now) (tree_stmt_view x.now)) }
{
    match x {
        TreeStatement::Expression(e) => simple_statement(simple(scope, alloc, e)),
        TreeStatement::Print(es) => simple_statement(print(scope, alloc, es)),
        TreeStatement::Printf(es) => simple_statement(printf(scope, alloc, es)),
        TreeStatement::Delete(name, keys) => simple_statement(delete(scope, alloc, name, keys)),
        TreeStatement::DeleteArray(name) => Ok(Statement::Simple(clear(scope, name))),
        _ => leave(scope, alloc, x),
    }
}
