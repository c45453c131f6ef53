//! The canonical text of statements.

ghost use Rattle.std.specs.Prelude.{◌++◌, OnOk, map};
ghost use Rattle.pawk_syntax_tree.specs.Tree.{view};
ghost use Rattle.pawk_syntax_tree.specs.Statement.{option_view, stmt_view, word_of};
ghost use Rattle.pawk_syntax_tree.specs.Item.{seen};
ghost use Rattle.pawk_syntax_show.specs.Lengthening.{IsTextOf, Lengthens};
ghost use Rattle.pawk_syntax_show.specs.TreeText.{closing_text, tree_text, with_mark, with_name};
ghost use Rattle.pawk_syntax_show.specs.TreeText.{with_space};
ghost use Rattle.pawk_syntax_show.specs.ProgramText.{body_text, maybe_text, operand_text};
ghost use Rattle.pawk_syntax_show.specs.ProgramText.{stmt_text, lines_text};

use crate::expression::{append_after, append_around, append_between, append_expr, append_name};
use crate::writing::append;
use pawk_syntax_tree::statement::{Jump, StatementTree};
use pawk_syntax_tree::tree::{ExpressionTree, Name};
use std::alloc::AllocError;

/// The word of a statement that leaves.
fn word(leave: Jump) -> &'static [u8]
    ensures { IsTextOf (with_mark (word_of leave)) result.now }
{
    match leave {
        Jump::Next => b"next",
        Jump::NextFile => b"nextfile",
        Jump::Break => b"break",
        Jump::Continue => b"continue",
    }
}

/// Appends a text, and a name after it.
pub fn append_name_after(out: &mut Vec<u8>, before: &[u8], name: &Name) -> Result<(), AllocError>
    ensures { OnOk result (Lengthens out.old.items out.new.items
        (λ rest. before.now ++ with_name name.now.text.items rest)) }
{
    append(out, before)?;
    append_name(out, name)
}

/// Appends a text, and a part of a `for` after it, which may be missing.
fn append_part(
    out: &mut Vec<u8>,
    before: &[u8],
    part: &Option<ExpressionTree>,
) -> Result<(), AllocError>
    ensures { OnOk result (Lengthens out.old.items out.new.items
        (λ rest. before.now ++ maybe_text (option_view part.now) rest)) }
{
    match part {
        None => append(out, before),
        Some(expr) => append_after(out, before, expr),
    }
}

/// Appends a word, and its expression after a space, which may be missing.
fn append_operand(
    out: &mut Vec<u8>,
    word: &[u8],
    operand: &Option<ExpressionTree>,
) -> Result<(), AllocError>
    ensures { OnOk result (Lengthens out.old.items out.new.items
        (λ rest. word.now ++ operand_text (option_view operand.now) rest)) }
{
    append(out, word)?;
    match operand {
        None => Ok(()),
        Some(expr) => append_after(out, b" ", expr),
    }
}

/// Appends the canonical text of a statement.
#[cycle(statement)]
pub fn append_statement(out: &mut Vec<u8>, statement: &StatementTree) -> Result<(), AllocError>
    ensures { OnOk result
        (Lengthens out.old.items out.new.items (stmt_text (stmt_view statement.now))) }
{
    match statement {
        StatementTree::Expression(expr) => append_expr(out, expr),
        StatementTree::Print(list) => append_between(out, b"print ", list, b""),
        StatementTree::Printf(list) => append_between(out, b"printf ", list, b""),
        StatementTree::If(condition, yes) => append_body_under(out, yes, b"if (", condition),
        StatementTree::IfElse(condition, yes, no) => {
            append_body_under(out, yes, b"if (", condition)?;
            append_body(out, b" else ", no)
        }
        StatementTree::While(condition, body) => append_body_under(
            out, body, b"while (", condition,
        ),
        StatementTree::DoWhile(body, condition) => {
            append_body(out, b"do ", body)?;
            append_around(out, b" while (", condition, b")")
        }
        StatementTree::For(first, condition, step, body) => {
            append_part(out, b"for (", first)?;
            append_part(out, b"; ", condition)?;
            append_part(out, b"; ", step)?;
            append_body(out, b") ", body)
        }
        StatementTree::ForIn(key, array, body) => {
            append_name_after(out, b"for (", key)?;
            append_name_after(out, b" in ", array)?;
            append_body(out, b") ", body)
        }
        StatementTree::Leave(leave, _) => append(out, word(*leave)),
        StatementTree::Exit(status) => append_operand(out, b"exit", status),
        StatementTree::Return(value, _) => append_operand(out, b"return", value),
        StatementTree::Delete(array, keys) => {
            append_name_after(out, b"delete ", array)?;
            append_between(out, b"[", keys, b"]")
        }
        StatementTree::DeleteArray(array) => append_name_after(out, b"delete ", array),
    }
}

/// Appends a body under a condition: a word with an opening bracket, the condition, and the body.
#[cycle(statement)]
fn append_body_under(
    out: &mut Vec<u8>,
    body: &[StatementTree],
    word: &[u8],
    condition: &ExpressionTree,
) -> Result<(), AllocError>
    ensures { OnOk result (Lengthens out.old.items out.new.items
        (λ rest. word.now ++ tree_text (view condition.now)
        (closing_text (with_space (body_text (lines_text (seen body.now)) rest))))) }
{
    append_after(out, word, condition)?;
    append_body(out, b") ", body)
}

/// Appends a text, and a body after it: its statements, each with a newline, in braces.
#[cycle(statement)]
pub fn append_body(
    out: &mut Vec<u8>,
    before: &[u8],
    body: &[StatementTree],
) -> Result<(), AllocError>
    ensures { OnOk result (Lengthens out.old.items out.new.items
        (λ rest. before.now ++ body_text (lines_text (seen body.now)) rest)) }
{
    append(out, before)?;
    append(out, b"{\n")?;
    append_lines(out, body)?;
    append(out, b"}")
}

/// Appends statements, each with a newline.
#[cycle(statement)]
fn append_lines(out: &mut Vec<u8>, statements: &[StatementTree]) -> Result<(), AllocError>
    ensures { OnOk result
        (Lengthens out.old.items out.new.items (lines_text (seen statements.now))) }
{
    for statement in statements {
        append_statement(out, statement)?;
        append(out, b"\n")?;
    }
    Ok(())
}
