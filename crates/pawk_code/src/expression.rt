//! Expressions, sorted by what they give.

use crate::format::FixedFormat;
use crate::leaf::Leaf;
use crate::name::Array;
use crate::word::{Case, Relation, ReplacedMatches, Sign, Step};
use pawk_value::Op;

/// What can be assigned.
#[cycle(code)]
#[derive(Drop)]
pub enum Lvalue {
    /// The global scalar of this slot.
    Global(usize),
    /// The parameter of this number.
    Local(usize),
    /// An element of an array, by its subscripts.
    Element(Array, Vec<Expr>),
    /// The field whose number the expression gives.
    Field(Box<Expr>),
}

/// A regular expression.
#[cycle(code)]
#[derive(Drop)]
pub enum Pattern {
    /// The expression between slashes of this number.
    Fixed(usize),
    /// The expression that a value spells.
    Value(Box<Expr>),
}

/// What `split` separates by.
#[cycle(code)]
#[derive(Drop)]
pub enum FieldsBy {
    /// What `FS` says.
    Fs,
    /// The expression between slashes of this number.
    Fixed(usize),
    /// What a value says, as `FS` would.
    Value(Box<Expr>),
}

/// A format.
#[cycle(code)]
#[derive(Drop)]
pub enum Format {
    Fixed(FixedFormat),
    Value(Box<Expr>),
}

/// A built-in function of values that gives a number.
#[cycle(code)]
#[derive(Drop)]
pub enum NumericFunction {
    Length(Box<Expr>),
    Index(Box<Expr>, Box<Expr>),
    /// `int`
    Whole(Box<Expr>),
}

/// What gives a number.
#[cycle(code)]
#[derive(Drop)]
pub enum Numeric {
    Arithmetic(Op, Box<Expr>, Box<Expr>),
    Sign(Sign, Box<Expr>),
    /// `a += b` and the like.
    Change(Op, Lvalue, Box<Expr>),
    /// `a++` and the like.
    Step(Step, Lvalue),
    Function(NumericFunction),
    /// `split`: the text, the array that is filled, and what separates.
    Split(Box<Expr>, Array, FieldsBy),
    /// `sub` and `gsub`: the pattern, the replacement, and the place of the text.
    Replace(ReplacedMatches, Pattern, Box<Expr>, Lvalue),
    /// `match`
    Find(Box<Expr>, Pattern),
}

/// What gives 1 or 0.
#[cycle(code)]
#[derive(Drop)]
pub enum Test {
    Compare(Relation, Box<Expr>, Box<Expr>),
    And(Box<Expr>, Box<Expr>),
    Or(Box<Expr>, Box<Expr>),
    Not(Box<Expr>),
    /// Whether the value matches, or, with `false`, does not match.
    Match(bool, Box<Expr>, Pattern),
    /// Whether the array has an element of these subscripts.
    In(Array, Vec<Expr>),
}

/// What gives a text.
#[cycle(code)]
#[derive(Drop)]
pub enum Textual {
    /// Concatenation of two or more; none but the first is again a concatenation without brackets.
    Join(Vec<Expr>),
    /// `substr(s, m)`
    Suffix(Box<Expr>, Box<Expr>),
    /// `substr(s, m, n)`
    Substring(Box<Expr>, Box<Expr>, Box<Expr>),
    Case(Case, Box<Expr>),
    /// `sprintf`
    Format(Format, Vec<Expr>),
}

/// An expression.
#[cycle(code)]
#[derive(Drop)]
pub enum Expr {
    Leaf(Leaf),
    Numeric(Numeric),
    Test(Test),
    Textual(Textual),
    Read(Lvalue),
    /// `c ? a : b`
    Choice(Box<Expr>, Box<Expr>, Box<Expr>),
    Assign(Lvalue, Box<Expr>),
    /// A call of the function of this slot.
    Call(usize, Vec<Argument>),
}

/// An argument of a call.
#[cycle(code)]
#[derive(Drop)]
pub enum Argument {
    Value(Expr),
    /// An array, which is passed by reference.
    Array(Array),
}
