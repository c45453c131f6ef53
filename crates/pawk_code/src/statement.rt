//! Statements.

ghost use Rattle.std.specs.Prelude.{◌≡◌, true};
ghost use Rattle.pawk_code.specs.Expressions.{exprs};
ghost use Rattle.pawk_code.specs.ExpressionViews.{views};
ghost use Rattle.pawk_code.specs.Calm.{are_calm};

use crate::expression::{Expr, Format, Lvalue};
use crate::name::{Array, Variable};
use crate::word::{Sign, Step};

/// What is printed, and whether it is known that no value changes a variable or prints while it is
/// evaluated, so that the values may be written one after the other.
#[derive(Drop)]
pub struct Operands {
    pub calm: bool,
    pub values: Vec<Expr>,
    ghost quiet: { calm ≡ true → are_calm (exprs (views values.items)) ≡ true },
}

/// A statement that leaves nothing and has no body.
#[derive(Drop)]
pub enum Simple {
    /// An expression whose value is dropped.
    Drop(Expr),
    /// `a = b;`
    Set(Lvalue, Expr),
    /// `a += b;` and `a -= b;`
    Add(Sign, Lvalue, Expr),
    /// `a++;` and the like.
    Count(Step, Lvalue),
    Print(Operands),
    Printf(Format, Operands),
    /// `delete a[k, l]`
    Delete(Array, Vec<Expr>),
    /// `delete a`
    Clear(Array),
}

/// A statement that leaves what surrounds it.
#[derive(Drop)]
pub enum Leave {
    Break,
    Continue,
    Next,
    NextFile,
    Exit(Option<Expr>),
    Return(Option<Expr>),
}

/// The head of `for (a; b; c)`, of which each may be missing.
#[derive(Drop)]
pub struct Head {
    pub first: Option<Simple>,
    pub test: Option<Expr>,
    pub last: Option<Simple>,
}

/// A statement.
#[derive(Drop)]
pub enum Statement {
    Simple(Simple),
    Leave(Leave),
    If(Expr, Vec<Statement>),
    Choose(Expr, Vec<Statement>, Vec<Statement>),
    While(Expr, Vec<Statement>),
    Do(Vec<Statement>, Expr),
    For(Head, Vec<Statement>),
    ForIn(Variable, Array, Vec<Statement>),
}
