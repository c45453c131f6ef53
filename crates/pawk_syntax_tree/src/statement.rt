//! Statements and items.

use crate::tree::{ExpressionTree, Name};

/// A statement that leaves what surrounds it.
#[derive(Clone, Copy, PartialEq, Eq)]
pub enum Jump {
    Next,
    NextFile,
    Break,
    Continue,
}

/// A statement. A block stands for its statements, and `;` alone for none.
#[derive(Drop)]
pub enum StatementTree {
    Expression(ExpressionTree),
    Print(Vec<ExpressionTree>),
    Printf(Vec<ExpressionTree>),
    If(ExpressionTree, Vec<StatementTree>),
    IfElse(ExpressionTree, Vec<StatementTree>, Vec<StatementTree>),
    While(ExpressionTree, Vec<StatementTree>),
    DoWhile(Vec<StatementTree>, ExpressionTree),
    /// `for (a; b; c)`, of which each may be missing.
    For(Option<ExpressionTree>, Option<ExpressionTree>, Option<ExpressionTree>, Vec<StatementTree>),
    /// `for (k in a)`
    ForIn(Name, Name, Vec<StatementTree>),
    /// `next`, `nextfile`, `break` and `continue`, and where the word begins.
    Leave(Jump, usize),
    Exit(Option<ExpressionTree>),
    /// `return`, and where the word begins.
    Return(Option<ExpressionTree>, usize),
    /// `delete a[k, l]`
    Delete(Name, Vec<ExpressionTree>),
    /// `delete a`
    DeleteArray(Name),
}
