//! The canonical text of expressions.

ghost use Rattle.std.specs.Prelude.{◌++◌, OnOk};
ghost use Rattle.pawk_syntax_tree.specs.Tree.{view, views, trees};
ghost use Rattle.pawk_syntax_tree.specs.Levels.{sign_of};
ghost use Rattle.pawk_syntax_show.specs.Lengthening.{IsTextOf, Lengthens};
ghost use Rattle.pawk_syntax_show.specs.TreeText.{before_text, after_text, between_text, tree_text};
ghost use Rattle.pawk_syntax_show.specs.TreeText.{keys_text, list_text, opening_text, with_name};

use crate::writing::{append, append_ere, append_number, append_string};
use pawk_syntax_tree::tree::{Double, ExpressionTree, Name, Single};
use std::alloc::AllocError;

/// What is between the two operands of an operator.
fn sign(op: Double) -> &'static [u8]
    ensures { IsTextOf (between_text (sign_of op)) result.now }
{
    match op {
        Double::Or => b" || ",
        Double::And => b" && ",
        Double::Match => b" ~ ",
        Double::NotMatch => b" !~ ",
        Double::Less => b" < ",
        Double::LessEqual => b" <= ",
        Double::Equal => b" == ",
        Double::NotEqual => b" != ",
        Double::Greater => b" > ",
        Double::GreaterEqual => b" >= ",
        Double::Concatenate => b" ",
        Double::Add => b" + ",
        Double::Subtract => b" - ",
        Double::Multiply => b" * ",
        Double::Divide => b" / ",
        Double::Remainder => b" % ",
        Double::Power => b" ^ ",
        Double::Assign => b" = ",
        Double::AddAssign => b" += ",
        Double::SubtractAssign => b" -= ",
        Double::MultiplyAssign => b" *= ",
        Double::DivideAssign => b" /= ",
        Double::RemainderAssign => b" %= ",
        Double::PowerAssign => b" ^= ",
    }
}

/// What is before the operand of an operator with one.
fn prefix(op: Single) -> &'static [u8]
    ensures { IsTextOf (before_text op) result.now }
{
    match op {
        Single::Field => b"$(",
        Single::Not => b"(!",
        Single::Plus => b"(+",
        Single::Minus => b"(-",
        Single::IncrementBefore => b"(++",
        Single::DecrementBefore => b"(--",
        Single::IncrementAfter | Single::DecrementAfter => b"(",
    }
}

/// What is after the operand of an operator with one.
fn suffix(op: Single) -> &'static [u8]
    ensures { IsTextOf (after_text op) result.now }
{
    match op {
        Single::IncrementAfter => b"++)",
        Single::DecrementAfter => b"--)",
        _ => b")",
    }
}

/// Appends the bytes of a name.
pub fn append_name(out: &mut Vec<u8>, name: &Name) -> Result<(), AllocError>
    ensures { OnOk result
        (Lengthens out.old.items out.new.items (with_name name.now.text.items)) }
{
    append(out, &name.text)
}

/// Appends the canonical text of an expression.
#[cycle(expr)]
pub fn append_expr(out: &mut Vec<u8>, expr: &ExpressionTree) -> Result<(), AllocError>
    ensures { OnOk result
        (Lengthens out.old.items out.new.items (tree_text (view expr.now))) }
{
    match expr {
        ExpressionTree::Number(number) => append_number(out, *number),
        ExpressionTree::String(bytes) => append_string(out, bytes),
        ExpressionTree::Ere(bytes) => append_ere(out, bytes),
        ExpressionTree::Variable(name) => append_name(out, name),
        ExpressionTree::Element(name, keys) => {
            append_name(out, name)?;
            append_between(out, b"[", keys, b"]")
        }
        ExpressionTree::Unary(op, operand) => append_around(out, prefix(*op), operand, suffix(*op)),
        ExpressionTree::Binary(op, left, right) => {
            append_after(out, b"(", left)?;
            append_around(out, sign(*op), right, b")")
        }
        ExpressionTree::Choice(condition, yes, no) => {
            append_after(out, b"(", condition)?;
            append_after(out, b" ? ", yes)?;
            append_around(out, b" : ", no, b")")
        }
        ExpressionTree::Member(keys, name) => {
            append_keys(out, keys)?;
            append(out, b" in ")?;
            append_name(out, name)?;
            append(out, b")")
        }
        ExpressionTree::Call(name, arguments) => {
            append_name(out, name)?;
            append_between(out, b"(", arguments, b")")
        }
        ExpressionTree::Builtin(function, _, arguments) => {
            append(out, function.name())?;
            append_between(out, b"(", arguments, b")")
        }
    }
}

/// Appends a text, and an expression after it.
#[cycle(expr)]
pub fn append_after(
    out: &mut Vec<u8>,
    before: &[u8],
    expr: &ExpressionTree,
) -> Result<(), AllocError>
    ensures { OnOk result (Lengthens out.old.items out.new.items
        (λ rest. before.now ++ tree_text (view expr.now) rest)) }
{
    append(out, before)?;
    append_expr(out, expr)
}

/// Appends an expression, and a text on each side of it.
#[cycle(expr)]
pub fn append_around(
    out: &mut Vec<u8>,
    before: &[u8],
    expr: &ExpressionTree,
    after: &[u8],
) -> Result<(), AllocError>
    ensures { OnOk result (Lengthens out.old.items out.new.items
        (λ rest. before.now ++ tree_text (view expr.now) (after.now ++ rest))) }
{
    append_after(out, before, expr)?;
    append(out, after)
}

/// Appends an opening bracket and the keys of `in`: several are written in brackets of their own.
#[cycle(expr)]
fn append_keys(out: &mut Vec<u8>, keys: &[ExpressionTree]) -> Result<(), AllocError>
    ensures { OnOk result (Lengthens out.old.items out.new.items
        (λ rest. opening_text (keys_text (trees (views keys.now)) rest))) }
{
    if keys.len() < 2 {
        append_between(out, b"(", keys, b"")
    } else {
        append_between(out, b"((", keys, b")")
    }
}

/// Appends expressions with a comma and a space between, and a text on each side.
#[cycle(expr)]
pub fn append_between(
    out: &mut Vec<u8>,
    before: &[u8],
    list: &[ExpressionTree],
    after: &[u8],
) -> Result<(), AllocError>
    ensures { OnOk result (Lengthens out.old.items out.new.items
        (λ rest. before.now ++ list_text (trees (views list.now)) (after.now ++ rest))) }
{
    append(out, before)?;
    append_list(out, list)?;
    append(out, after)
}

/// Appends expressions with a comma and a space between.
#[cycle(expr)]
pub fn append_list(out: &mut Vec<u8>, list: &[ExpressionTree]) -> Result<(), AllocError>
    ensures { OnOk result (Lengthens out.old.items out.new.items
        (list_text (trees (views list.now)))) }
{
    let [first, others @ ..] = list else {
        return Ok(());
    };
    append_expr(out, first)?;
    for other in others {
        append_after(out, b", ", other)?;
    }
    Ok(())
}
