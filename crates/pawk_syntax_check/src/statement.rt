//! What statements mention.

ghost use Rattle.std.specs.Prelude.{◌≡◌, ◌++◌, ◌∷◌, [], OnOk};
ghost use Rattle.pawk_syntax_tree.specs.Tree.{view, views, trees};
ghost use Rattle.pawk_syntax_tree.specs.Statement.{stmt_view, option_view, stmts};
ghost use Rattle.pawk_syntax_tree.specs.Item.{seen as statements_seen};
ghost use Rattle.pawk_syntax_check.specs.Mentions as spec;
ghost use Rattle.pawk_syntax_check.specs.Views.{seen};

use crate::expression::{expression, list, mention};
use crate::mention::Mention;
use crate::role::{NameRole, Setting};
use pawk_syntax_tree::statement::StatementTree;
use pawk_syntax_tree::tree::ExpressionTree;
use std::alloc::AllocError;

/// Adds what an expression mentions whose value is read.
pub fn value<'t>(mentions: &mut Vec<Mention<'t>>, e: &'t ExpressionTree) -> Result<(), AllocError>
    ensures { OnOk result (seen mentions.new ≡ seen mentions.old ++ spec.of_value (view e.now)) }
{
    expression(mentions, NameRole::Value, e)
}

/// Adds what the expressions of a list mention whose values are read.
fn values<'t>(mentions: &mut Vec<Mention<'t>>, es: &'t [ExpressionTree]) -> Result<(), AllocError>
    ensures { OnOk result (seen mentions.new ≡ seen mentions.old ++
        spec.of_values (trees (views es.now))) }
{
    list(mentions, Setting::Plain, es)
}

/// Adds what an expression mentions that may be missing.
fn option<'t>(
    mentions: &mut Vec<Mention<'t>>,
    e: &'t Option<ExpressionTree>,
) -> Result<(), AllocError>
    ensures { OnOk result (seen mentions.new ≡ seen mentions.old ++
        spec.of_option (option_view e.now)) }
{
    match e {
        None => Ok(()),
        Some(e) => value(mentions, e),
    }
}

/// Adds what a condition and then a body mention.
#[cycle(statement)]
fn guarded<'t>(
    mentions: &mut Vec<Mention<'t>>,
    in_loop: bool,
    statements: &'t [StatementTree],
    e: &'t ExpressionTree,
) -> Result<(), AllocError>
    ensures { OnOk result (seen mentions.new ≡ seen mentions.old ++ (spec.of_value (view e.now) ++
        spec.of_body in_loop (statements_seen statements.now))) }
{
    value(mentions, e)?;
    body(mentions, in_loop, statements)
}

/// Adds what a statement mentions that is in a loop or not.
#[cycle(statement)]
fn statement<'t>(
    mentions: &mut Vec<Mention<'t>>,
    in_loop: bool,
    x: &'t StatementTree,
) -> Result<(), AllocError>
    ensures { OnOk result (seen mentions.new ≡ seen mentions.old ++
        spec.of_statement in_loop (stmt_view x.now)) }
{
    match x {
        StatementTree::Expression(e) => value(mentions, e),
        StatementTree::Print(es) | StatementTree::Printf(es) => values(mentions, es),
        StatementTree::If(e, a) => guarded(mentions, in_loop, a, e),
        StatementTree::IfElse(e, a, b) => {
            guarded(mentions, in_loop, a, e)?;
            body(mentions, in_loop, b)
        }
        StatementTree::While(e, a) | StatementTree::DoWhile(a, e) => guarded(mentions, true, a, e),
        StatementTree::For(a, b, c, turn) => {
            option(mentions, a)?;
            option(mentions, b)?;
            option(mentions, c)?;
            body(mentions, true, turn)
        }
        StatementTree::ForIn(key, array, turn) => {
            mention(mentions, Mention::Target(key))?;
            mention(mentions, Mention::Array(array))?;
            body(mentions, true, turn)
        }
        StatementTree::Leave(word, start) => mention(
            mentions,
            Mention::Leave(*word, *start, in_loop),
        ),
        StatementTree::Exit(e) => option(mentions, e),
        StatementTree::Return(e, start) => {
            mention(mentions, Mention::Return(*start))?;
            option(mentions, e)
        }
        StatementTree::Delete(array, keys) => {
            mention(mentions, Mention::Array(array))?;
            values(mentions, keys)
        }
        StatementTree::DeleteArray(array) => mention(mentions, Mention::Array(array)),
    }
}

/// Adds what statements mention that are in a loop or not.
#[cycle(statement)]
pub fn body<'t>(
    mentions: &mut Vec<Mention<'t>>,
    in_loop: bool,
    statements: &'t [StatementTree],
) -> Result<(), AllocError>
    ensures { OnOk result (seen mentions.new ≡ seen mentions.old ++
        spec.of_body in_loop (statements_seen statements.now)) }
{
    for x in statements {
        statement(mentions, in_loop, x)?;
    }
    Ok(())
}
