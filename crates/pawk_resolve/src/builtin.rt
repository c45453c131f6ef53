//! Operators with two operands, and built-in functions.

ghost use Rattle.std.specs.Prelude.{◌≡◌, IfOk};
ghost use Rattle.pawk_code.specs.Expressions as code;
ghost use Rattle.pawk_code.specs.ExpressionViews.{view, pattern_view, fields_view, argument_view};
ghost use Rattle.pawk_syntax_tree.specs.Tree.{view as tree_view};
ghost use Rattle.pawk_resolve.specs.ScopeViews.{scope_view};
ghost use Rattle.pawk_resolve.specs.Sorted as spec;

use crate::operation::Operation;
use crate::scope::Scope;
use crate::sorted::{join, nothing, place};
use pawk_code::expression::{
    Argument, Expr, FieldsBy, Numeric, NumericFunction, Pattern, Test, Textual,
};
use pawk_code::name::Array;
use pawk_code::word::{Case, ReplacedMatches};
use pawk_lex::token::Builtin;
use pawk_syntax_tree::tree::ExpressionTree as Tree;
use std::alloc::{AllocError, Global};

/// An operand: its tree and its code.
#[derive(Drop)]
pub struct Operand<'a> {
    pub tree: &'a Tree,
    pub code: Box<Expr>,
}

/// A regular expression, which may be written between slashes.
fn pattern(scope: &Scope<'_, '_>, e: Operand<'_>) -> Pattern
    ensures { pattern_view result ≡ spec.pattern_of (scope_view scope.now)
        (tree_view e.entry.tree.now) (view e.entry.code.value) }
{
    match e.tree {
        Tree::Ere(text) => Pattern::Fixed(scope.globals.expressions.slot(text.as_slice())),
        _ => Pattern::Value(e.code),
    }
}

/// What `split` separates by.
fn fields_by(scope: &Scope<'_, '_>, e: Operand<'_>) -> FieldsBy
    ensures { fields_view result ≡ spec.fields_of (scope_view scope.now)
        (tree_view e.entry.tree.now) (view e.entry.code.value) }
{
    match e.tree {
        Tree::Ere(text) => FieldsBy::Fixed(scope.globals.expressions.slot(text.as_slice())),
        _ => FieldsBy::Value(e.code),
    }
}

/// The array that a tree names.
fn array_named(scope: &Scope<'_, '_>, tree: &Tree) -> Array
    ensures { result ≡ spec.array_named (scope_view scope.now) (tree_view tree.now) }
{
    match tree {
        Tree::Variable(name) => scope.array(name.text.as_slice()),
        _ => Array::Global(0),
    }
}

/// An argument of a call, whose tree and code are given.
pub fn argument<'t>(scope: &Scope<'_, 't>, tree: &'t Tree, e: Expr) -> Argument
    ensures { argument_view result ≡
        spec.argument_of (scope_view scope.now) (tree_view tree.now) (view e) }
{
    match tree {
        Tree::Variable(name) => {
            let array = scope.array(name.text.as_slice());
            if scope.is_array(name.text.as_slice()) {
                Argument::Array(array)
            } else {
                Argument::Value(e)
            }
        }
        _ => Argument::Value(e),
    }
}

/// An operation on a code and an operand.
pub fn binary(
    scope: &Scope<'_, '_>,
    alloc: Global,
    operation: Operation,
    a: Box<Expr>,
    b: Operand<'_>,
) -> Result<Expr, AllocError>
    ensures { IfOk result (λ all. view all ≡ spec.binary_of (scope_view scope.now) operation
        (view a.value) (tree_view b.entry.tree.now) (view b.entry.code.value)) }
{
    match operation {
        Operation::Or => Ok(Expr::Test(Test::Or(a, b.code))),
        Operation::And => Ok(Expr::Test(Test::And(a, b.code))),
        Operation::Match(holds) => Ok(Expr::Test(Test::Match(holds, a, pattern(scope, b)))),
        Operation::Compare(relation) => Ok(Expr::Test(Test::Compare(relation, a, b.code))),
        Operation::Join => join(alloc, Box::into_inner(a), Box::into_inner(b.code)),
        Operation::Arithmetic(op) => Ok(Expr::Numeric(Numeric::Arithmetic(op, a, b.code))),
        Operation::Assign => Ok(Expr::Assign(place(a), b.code)),
        Operation::Change(op) => Ok(Expr::Numeric(Numeric::Change(op, place(a), b.code))),
    }
}

/// A built-in function of one argument.
pub fn builtin_of_one(function: Builtin, a: Box<Expr>) -> Expr
    ensures { view result ≡ spec.builtin_of_one function (view a.value) }
{
    match function {
        Builtin::Length => Expr::Numeric(Numeric::Function(NumericFunction::Length(a))),
        Builtin::Int => Expr::Numeric(Numeric::Function(NumericFunction::Whole(a))),
        Builtin::Tolower => Expr::Textual(Textual::Case(Case::Lower, a)),
        Builtin::Toupper => Expr::Textual(Textual::Case(Case::Upper, a)),
        _ => nothing(),
    }
}

/// A built-in function of two arguments.
pub fn builtin_of_two(
    scope: &Scope<'_, '_>,
    function: Builtin,
    a: Box<Expr>,
    b: Operand<'_>,
) -> Expr
    ensures { view result ≡ spec.builtin_of_two (scope_view scope.now) function (view a.value)
        (tree_view b.entry.tree.now) (view b.entry.code.value) }
{
    match function {
        Builtin::Index => { Expr::Numeric(Numeric::Function(NumericFunction::Index(a, b.code))) }
        Builtin::Substr => Expr::Textual(Textual::Suffix(a, b.code)),
        Builtin::Split => {
            Expr::Numeric(Numeric::Split(a, array_named(scope, b.tree), FieldsBy::Fs))
        }
        Builtin::Match => Expr::Numeric(Numeric::Find(a, pattern(scope, b))),
        _ => nothing(),
    }
}

/// `sub` or `gsub`: the pattern, the replacement, and the place of the text.
fn replacement(
    scope: &Scope<'_, '_>,
    count: ReplacedMatches,
    first: Operand<'_>,
    text: Box<Expr>,
    to: Box<Expr>,
) -> Expr
    ensures { view result ≡ code.numeric (code.replace count (spec.pattern_of
        (scope_view scope.now) (tree_view first.entry.tree.now) (view first.entry.code.value))
        (view text.value) (spec.place_of (view to.value))) }
{
    Expr::Numeric(Numeric::Replace(count, pattern(scope, first), text, place(to)))
}

/// `split` of a text into an array, by what the third argument says.
fn split_by(scope: &Scope<'_, '_>, text: Box<Expr>, array: Array, by: Operand<'_>) -> Expr
    ensures { view result ≡ code.numeric (code.split (view text.value) array (spec.fields_of
        (scope_view scope.now) (tree_view by.entry.tree.now) (view by.entry.code.value))) }
{
    Expr::Numeric(Numeric::Split(text, array, fields_by(scope, by)))
}

/// A built-in function of three arguments.
pub fn builtin_of_three(
    scope: &Scope<'_, '_>,
    function: Builtin,
    first: Operand<'_>,
    second: Operand<'_>,
    third: Operand<'_>,
) -> Expr
    ensures { view result ≡ spec.builtin_of_three (scope_view scope.now) function
        (tree_view first.entry.tree.now) (view first.entry.code.value)
        (tree_view second.entry.tree.now) (view second.entry.code.value)
        (tree_view third.entry.tree.now) (view third.entry.code.value) }
{
    match function {
        Builtin::Substr => {
            Expr::Textual(Textual::Substring(first.code, second.code, third.code))
        }
        Builtin::Split => { split_by(scope, first.code, array_named(scope, second.tree), third) }
        Builtin::Sub => replacement(
            scope,
            ReplacedMatches::First,
            first,
            second.code,
            third.code,
        ),
        Builtin::Gsub => replacement(scope, ReplacedMatches::All, first, second.code, third.code),
        _ => nothing(),
    }
}
