//! The code of statements.

ghost use Rattle.std.specs.Prelude.{◌≡◌, IfOk};
ghost use Rattle.pawk_code.specs.StatementViews.{stmt_view, seen};
ghost use Rattle.pawk_syntax_tree.specs.Statement.{stmt_view as tree_stmt_view};
ghost use Rattle.pawk_syntax_tree.specs.Item.{seen as tree_seen};
ghost use Rattle.pawk_resolve.specs.ScopeViews.{scope_view};
ghost use Rattle.pawk_resolve.specs.ResolvedStatements as spec;

use crate::expression::expression;
use crate::simple::{head, plain};
use crate::vectors::push_result;
use pawk_code::statement::Statement;
use pawk_resolve::scope::Scope;
use pawk_syntax_parse::build::both;
use pawk_syntax_tree::statement::StatementTree as TreeStatement;
use std::alloc::{AllocError, Global};

/// The code of a statement.
#[cycle(statement)]
fn statement<'t>(
    scope: &Scope<'_, 't>,
    alloc: Global,
    x: &'t TreeStatement,
) -> Result<Statement, AllocError>
    ensures { IfOk result (λ y. stmt_view y ≡
        spec.resolved_statement (scope_view scope.now) (tree_stmt_view x.now)) }
{
    match x {
        TreeStatement::If(test, turn) => {
            let (test, turn) = both(expression(scope, alloc, test), body(scope, alloc, turn))?;
            Ok(Statement::If(test, turn))
        }
        TreeStatement::IfElse(test, turn, other) => {
            let turns = both(body(scope, alloc, turn), body(scope, alloc, other));
            let (test, (turn, other)) = both(expression(scope, alloc, test), turns)?;
            Ok(Statement::Choose(test, turn, other))
        }
        TreeStatement::While(test, turn) => {
            let (test, turn) = both(expression(scope, alloc, test), body(scope, alloc, turn))?;
            Ok(Statement::While(test, turn))
        }
        TreeStatement::DoWhile(turn, test) => {
            let (turn, test) = both(body(scope, alloc, turn), expression(scope, alloc, test))?;
            Ok(Statement::Do(turn, test))
        }
        TreeStatement::For(a, b, c, turn) => {
            let (head, turn) = both(head(scope, alloc, a, b, c), body(scope, alloc, turn))?;
            Ok(Statement::For(head, turn))
        }
        TreeStatement::ForIn(key, array, turn) => {
            let turn = body(scope, alloc, turn)?;
            let key = scope.variable(key.text.as_slice());
            Ok(Statement::ForIn(key, scope.array(array.text.as_slice()), turn))
        }
        TreeStatement::Expression(_)
        | TreeStatement::Print(_)
        | TreeStatement::Printf(_)
        | TreeStatement::Leave(_, _)
        | TreeStatement::Exit(_)
        | TreeStatement::Return(_, _)
        | TreeStatement::Delete(_, _)
        | TreeStatement::DeleteArray(_) => plain(scope, alloc, x),
    }
}

/// The code of a body.
#[cycle(statement)]
pub fn body<'t>(
    scope: &Scope<'_, 't>,
    alloc: Global,
    statements: &'t [TreeStatement],
) -> Result<Vec<Statement>, AllocError>
    ensures { IfOk result (λ codes. seen codes.items ≡
        spec.resolved_body (scope_view scope.now) (tree_seen statements.now)) }
{
    let mut codes = Vec::with_capacity(alloc, statements.len())?;
    for x in statements {
        push_result(&mut codes, statement(scope, alloc, x))?;
    }
    Ok(codes)
}
