//! Syntax trees.

use pawk_lex::token::Builtin;

/// A name, and the place of its first byte in the text, counted from 0.
#[derive(Drop)]
pub struct Name {
    pub text: Vec<u8>,
    pub start: usize,
}

/// An operator with one operand.
#[derive(Clone, Copy, PartialEq, Eq)]
pub enum Single {
    /// `$`
    Field,
    Not,
    Plus,
    Minus,
    /// `++` and `--` before an lvalue, and after one
    IncrementBefore,
    DecrementBefore,
    IncrementAfter,
    DecrementAfter,
}

/// An operator with two operands.
#[derive(Clone, Copy, PartialEq, Eq)]
pub enum Double {
    Or,
    And,
    Match,
    NotMatch,
    Less,
    LessEqual,
    Equal,
    NotEqual,
    Greater,
    GreaterEqual,
    /// Two expressions side by side.
    Concatenate,
    Add,
    Subtract,
    Multiply,
    Divide,
    Remainder,
    Power,
    Assign,
    AddAssign,
    SubtractAssign,
    MultiplyAssign,
    DivideAssign,
    RemainderAssign,
    PowerAssign,
}

/// An expression.
#[derive(Drop)]
pub enum ExpressionTree {
    /// A numeral.
    Number(u64),
    /// The bytes of a string.
    String(Vec<u8>),
    /// The bytes between two slashes: an operand of `~` or `!~`, or an argument that is taken as a
    /// regular expression. Everywhere else `/e/` stands for `$0 ~ /e/`.
    Ere(Vec<u8>),
    /// A variable, or an array by its bare name.
    Variable(Name),
    /// `a[k, l]`
    Element(Name, Vec<ExpressionTree>),
    Unary(Single, Box<ExpressionTree>),
    Binary(Double, Box<ExpressionTree>, Box<ExpressionTree>),
    /// `c ? a : b`
    Choice(Box<ExpressionTree>, Box<ExpressionTree>, Box<ExpressionTree>),
    /// `k in a` and `(k, l) in a`
    Member(Vec<ExpressionTree>, Name),
    /// `f(a, b)`
    Call(Name, Vec<ExpressionTree>),
    /// A call of a built-in function, and where it begins.
    Builtin(Builtin, usize, Vec<ExpressionTree>),
}
