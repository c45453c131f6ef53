//! The code of expressions.

ghost use Rattle.std.specs.Prelude.{◌≡◌, IfOk, IsOkAnd, Ok};
ghost use Rattle.pawk_code.specs.Expressions.{exprs, more, arguments as codes_of};
ghost use Rattle.pawk_code.specs.ExpressionViews.{view, views, argument_view, argument_views, format_view};
ghost use Rattle.pawk_syntax_tree.specs.Tree.{trees, view as tree_view, views as tree_views};
ghost use Rattle.pawk_resolve.specs.ScopeViews.{scope_view};
ghost use Rattle.pawk_resolve.specs.Sorted as spec;
ghost use Rattle.pawk_resolve.specs.Resolved.{resolved, resolved_all, resolved_arguments};

use crate::small::small;
use crate::vectors::push_result;
use pawk_code::expression::{Argument, Expr, Format};
use pawk_lex::token::Builtin;
use pawk_resolve::builtin::{
    Operand, argument, binary, builtin_of_one, builtin_of_three, builtin_of_two,
};
use pawk_resolve::lists::{call, element, formatted, member};
use pawk_resolve::operation::operation_of;
use pawk_resolve::scope::Scope;
use pawk_resolve::sorted::{format, nothing, unary};
use pawk_syntax_parse::build::both;
use pawk_syntax_tree::tree::ExpressionTree as Tree;
use std::alloc::{AllocError, Global};

/// A code in a box, unless memory was refused to it.
fn boxed(alloc: Global, code: Result<Expr, AllocError>) -> Result<Box<Expr>, AllocError>
    ensures { IfOk result (λ e. code ≡ Ok e.value) }
{
    Ok(Box::new(alloc, code?)?)
}

/// An argument of a call, unless memory was refused to its code.
fn passed<'t>(
    scope: &Scope<'_, 't>,
    tree: &'t Tree,
    code: Result<Expr, AllocError>,
) -> Result<Argument, AllocError>
    ensures { IfOk result (λ a. IsOkAnd code (λ e. argument_view a ≡
        spec.argument_of (scope_view scope.now) (tree_view tree.now) (view e))) }
{
    Ok(argument(scope, tree, code?))
}

/// `sprintf` of a format and what it shows, unless memory was refused to them.
fn sprintf_of(
    alloc: Global,
    first: Result<Box<Expr>, AllocError>,
    values: Result<Vec<Expr>, AllocError>,
) -> Result<Expr, AllocError>
    ensures { IfOk result (λ e. IsOkAnd first (λ f. IsOkAnd values (λ v.
        view e ≡ spec.sprintf_of (more (view f.value) (exprs (views v.items)))))) }
{
    let (first, values) = both(first, values)?;
    let (format, values) = both(format(alloc, first), Ok(values))?;
    Ok(formatted(format, values))
}

/// The code of an expression.
#[cycle(expression)]
pub fn expression<'t>(
    scope: &Scope<'_, 't>,
    alloc: Global,
    tree: &'t Tree,
) -> Result<Expr, AllocError>
    ensures { IfOk result (λ e. view e ≡ resolved (scope_view scope.now) (tree_view tree.now)) }
{
    match tree {
        Tree::Number(_) | Tree::String(_) | Tree::Ere(_) | Tree::Variable(_) => {
            small(scope, alloc, tree)
        }
        Tree::Element(name, keys) => {
            let keys = list(scope, alloc, keys)?;
            Ok(element(scope.array(name.text.as_slice()), keys))
        }
        Tree::Unary(op, a) => Ok(unary(*op, operand(scope, alloc, a)?)),
        Tree::Binary(op, a, b) => {
            let (left, code) = both(operand(scope, alloc, a), operand(scope, alloc, b))?;
            let right = Operand { tree: b, code };
            binary(scope, alloc, operation_of(*op), left, right)
        }
        Tree::Choice(c, a, b) => {
            let answers = both(operand(scope, alloc, a), operand(scope, alloc, b));
            let (c, (a, b)) = both(operand(scope, alloc, c), answers)?;
            Ok(Expr::Choice(c, a, b))
        }
        Tree::Member(keys, name) => {
            let keys = list(scope, alloc, keys)?;
            Ok(member(scope.array(name.text.as_slice()), keys))
        }
        Tree::Call(name, list) => {
            let list = arguments(scope, alloc, list)?;
            Ok(call(scope.globals.functions.slot(name.text.as_slice()), list))
        }
        Tree::Builtin(Builtin::Sprintf, _, arguments) => sprintf(scope, alloc, arguments),
        Tree::Builtin(function, _, arguments) => builtin(scope, alloc, *function, arguments),
    }
}

/// The code of an operand, in a box.
#[cycle(expression)]
fn operand<'t>(
    scope: &Scope<'_, 't>,
    alloc: Global,
    tree: &'t Tree,
) -> Result<Box<Expr>, AllocError>
    ensures { IfOk result (λ e. view e.value ≡
        resolved (scope_view scope.now) (tree_view tree.now)) }
{
    boxed(alloc, expression(scope, alloc, tree))
}

/// `sprintf` of these, of which the first is the format.
#[cycle(expression)]
fn sprintf<'t>(
    scope: &Scope<'_, 't>,
    alloc: Global,
    arguments: &'t [Tree],
) -> Result<Expr, AllocError>
    ensures { IfOk result (λ e. view e ≡
        spec.sprintf_of (resolved_all (scope_view scope.now) (trees (tree_views arguments.now)))) }
{
    match arguments {
        [] => Ok(nothing()),
        [first, others @ ..] => {
            let first = operand(scope, alloc, first);
            sprintf_of(alloc, first, list(scope, alloc, others))
        }
    }
}

/// A call of a built-in function, by how many arguments are there.
#[cycle(expression)]
fn builtin<'t>(
    scope: &Scope<'_, 't>,
    alloc: Global,
    function: Builtin,
    arguments: &'t [Tree],
) -> Result<Expr, AllocError>
    ensures { IfOk result (λ e. view e ≡ spec.builtin_of_some (scope_view scope.now) function
        (trees (tree_views arguments.now))
        (resolved_all (scope_view scope.now) (trees (tree_views arguments.now)))) }
{
    match arguments {
        [] => Ok(nothing()),
        [a] => Ok(builtin_of_one(function, operand(scope, alloc, a)?)),
        [a, b] => {
            let (first, code) = both(operand(scope, alloc, a), operand(scope, alloc, b))?;
            Ok(builtin_of_two(scope, function, first, Operand { tree: b, code }))
        }
        [a, b, c] => {
            let others = both(operand(scope, alloc, b), operand(scope, alloc, c));
            let (first, (second, third)) = both(operand(scope, alloc, a), others)?;
            let first = Operand {
                tree: a,
                code: first,
            };
            let second = Operand {
                tree: b,
                code: second,
            };
            Ok(builtin_of_three(
                scope,
                function,
                first,
                second,
                Operand {
                    tree: c,
                    code: third,
                },
            ))
        }
        _ => Ok(nothing()),
    }
}

/// The codes of the expressions of a list.
#[cycle(expression)]
pub fn list<'t>(
    scope: &Scope<'_, 't>,
    alloc: Global,
    list: &'t [Tree],
) -> Result<Vec<Expr>, AllocError>
    ensures { IfOk result (λ codes. exprs (views codes.items) ≡
        resolved_all (scope_view scope.now) (trees (tree_views list.now))) }
{
    let mut codes = Vec::with_capacity(alloc, list.len())?;
    for tree in list {
        push_result(&mut codes, expression(scope, alloc, tree))?;
    }
    Ok(codes)
}

/// The codes of the arguments of a call.
#[cycle(expression)]
fn arguments<'t>(
    scope: &Scope<'_, 't>,
    alloc: Global,
    list: &'t [Tree],
) -> Result<Vec<Argument>, AllocError>
    ensures { IfOk result (λ codes. codes_of (argument_views codes.items) ≡
        resolved_arguments (scope_view scope.now) (trees (tree_views list.now))) }
{
    let mut codes = Vec::with_capacity(alloc, list.len())?;
    for tree in list {
        let argument = passed(scope, tree, expression(scope, alloc, tree));
        push_result(&mut codes, argument)?;
    }
    Ok(codes)
}

/// The format that an expression is.
pub fn format_of<'t>(
    scope: &Scope<'_, 't>,
    alloc: Global,
    tree: &'t Tree,
) -> Result<Format, AllocError>
    ensures { IfOk result (λ f. format_view f ≡
        spec.format_by (resolved (scope_view scope.now) (tree_view tree.now))) }
{
    format(alloc, operand(scope, alloc, tree)?)
}
