//! What expressions mention.

ghost use Rattle.std.specs.Prelude.{◌≡◌, ◌++◌, ◌∷◌, [], OnOk, length, None, Some};
ghost use Rattle.pawk_syntax_tree.specs.Tree.{view, views, trees};
ghost use Rattle.pawk_syntax_check.specs.Mentions as spec;
ghost use Rattle.pawk_syntax_check.specs.Views.{mention_view, seen, role_view, setting_view};

use crate::mention::Mention;
use crate::role::{NameRole, Setting, role_left, role_under};
use pawk_syntax_tree::tree::ExpressionTree;
use std::alloc::AllocError;

/// Adds one more mention at the end.
pub fn mention<'t>(mentions: &mut Vec<Mention<'t>>, new: Mention<'t>) -> Result<(), AllocError>
    ensures { OnOk result (seen mentions.new ≡ seen mentions.old ++ mention_view new.entry ∷ []) }
{
    mentions.push(new)?;
    Ok(())
}

/// What an expression that is no name alone is in this role.
fn beside<'t>(mentions: &mut Vec<Mention<'t>>, role: NameRole<'t>) -> Result<(), AllocError>
    ensures { OnOk result (seen mentions.new ≡ seen mentions.old ++
        spec.beside (role_view role.entry)) }
{
    match role {
        NameRole::Argument(function, place) => mention(mentions, Mention::Value(function, place)),
        _ => Ok(()),
    }
}

/// Adds what an expression in this role mentions.
#[cycle(expression)]
pub fn expression<'t>(
    mentions: &mut Vec<Mention<'t>>,
    role: NameRole<'t>,
    e: &'t ExpressionTree,
) -> Result<(), AllocError>
    ensures { OnOk result (seen mentions.new ≡ seen mentions.old ++
        spec.mentions (role_view role.entry) (view e.now)) }
{
    match e {
        ExpressionTree::Variable(name) => mention(mentions, role.mention(name)),
        _ => {
            beside(mentions, role)?;
            inside(mentions, e)
        }
    }
}

/// Adds what is inside an expression.
#[cycle(expression)]
fn inside<'t>(mentions: &mut Vec<Mention<'t>>, e: &'t ExpressionTree) -> Result<(), AllocError>
    ensures { OnOk result (seen mentions.new ≡ seen mentions.old ++ spec.inside (view e.now)) }
{
    match e {
        ExpressionTree::Number(_)
        | ExpressionTree::String(_)
        | ExpressionTree::Ere(_)
        | ExpressionTree::Variable(_) => Ok(()),
        ExpressionTree::Element(name, keys) => {
            mention(mentions, Mention::Array(name))?;
            list(mentions, Setting::Plain, keys)
        }
        ExpressionTree::Member(keys, name) => {
            mention(mentions, Mention::Array(name))?;
            list(mentions, Setting::Plain, keys)
        }
        ExpressionTree::Unary(op, a) => expression(mentions, role_under(*op), a),
        ExpressionTree::Binary(op, a, b) => {
            expression(mentions, role_left(*op), a)?;
            expression(mentions, NameRole::Value, b)
        }
        ExpressionTree::Choice(a, b, c) => {
            expression(mentions, NameRole::Value, a)?;
            expression(mentions, NameRole::Value, b)?;
            expression(mentions, NameRole::Value, c)
        }
        ExpressionTree::Call(name, arguments) => {
            mention(mentions, Mention::Call(name, arguments.len()))?;
            list(mentions, Setting::Call(name), arguments)
        }
        ExpressionTree::Builtin(function, start, arguments) => {
            mention(mentions, Mention::Builtin(*function, *start, arguments))?;
            list(mentions, Setting::Builtin(*function), arguments)
        }
    }
}

/// Adds what the expressions of a list mention.
#[cycle(expression)]
pub fn list<'t>(
    mentions: &mut Vec<Mention<'t>>,
    setting: Setting<'t>,
    list: &'t [ExpressionTree],
) -> Result<(), AllocError>
    ensures { OnOk result (seen mentions.new ≡ seen mentions.old ++
        spec.inside_all (setting_view setting.entry) 0 (trees (views list.now))) }
{
    for (place, e) in list.iter().enumerate() {
        expression(mentions, setting.role_at(place), e)?;
    }
    Ok(())
}
