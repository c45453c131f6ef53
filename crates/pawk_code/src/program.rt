//! Programs that are ready to run.

use crate::expression::Expr;
use crate::statement::Statement;

/// What a parameter is.
#[derive(Clone, Copy, PartialEq, Eq)]
pub enum ParameterKind {
    Scalar,
    Array,
}

/// A function: the kind of each parameter, and the body.
#[derive(Drop)]
pub struct Function {
    pub kinds: Vec<ParameterKind>,
    pub body: Vec<Statement>,
}

/// Which records a rule runs on.
#[derive(Drop)]
pub enum Selector {
    Always,
    When(Expr),
    Range(Expr, Expr),
}

/// A rule.
#[derive(Drop)]
pub struct Rule {
    pub selector: Selector,
    pub body: Vec<Statement>,
}

/// A program that is ready to run.
#[derive(Drop)]
pub struct Code {
    /// The actions of `BEGIN`, in order.
    pub begins: Vec<Vec<Statement>>,
    pub rules: Vec<Rule>,
    /// The actions of `END`, in order.
    pub ends: Vec<Vec<Statement>>,
    /// The functions, by their slots.
    pub functions: Vec<Function>,
    /// The names of global scalars, by their slots.
    pub scalars: Vec<Vec<u8>>,
    /// The names of global arrays, by their slots.
    pub arrays: Vec<Vec<u8>>,
    /// What is between the slashes of the program, each text once, by the numbers that the code
    /// has for it.
    pub expressions: Vec<Vec<u8>>,
}
