//! Mentions.

use pawk_lex::token::Builtin;
use pawk_syntax_tree::statement::Jump;
use pawk_syntax_tree::tree::{ExpressionTree, Name};

/// What an item mentions, lent from its tree. Places are counted from 0.
#[derive(Clone, Copy)]
pub enum Mention<'t> {
    /// A name as an array: with a subscript, after `in`, walked, deleted, or filled by `split`.
    Array(&'t Name),
    /// A name whose value is read.
    Scalar(&'t Name),
    /// A name alone that is assigned, by `++`, `--`, `sub`, `gsub` and the head of a walk, too.
    Target(&'t Name),
    /// A name alone as an argument: the name, the function that is called, and the argument's
    /// place.
    Argument(&'t Name, &'t Name, usize),
    /// An argument that is no name alone: the function that is called, and the argument's place.
    Value(&'t Name, usize),
    /// A call of a function of the program, with the number of its arguments.
    Call(&'t Name, usize),
    /// A call of a built-in function, the byte where it begins, and its arguments.
    Builtin(Builtin, usize, &'t [ExpressionTree]),
    /// A word that leaves, the byte where it begins, and whether it is in a loop.
    Leave(Jump, usize, bool),
    /// `return`, and the byte where it begins.
    Return(usize),
}
