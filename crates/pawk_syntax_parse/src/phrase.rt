//! Trees with their heights.

ghost use Rattle.std.specs.Prelude.{◌≡◌, ◌≤◌, ◌∷◌, ◌++◌, [], length, IfOk, Option};
ghost use Rattle.pawk_syntax_tree.specs.Tree as tree;
ghost use Rattle.pawk_syntax_tree.specs.Tree.{view, views, trees};
ghost use Rattle.pawk_syntax_tree.specs.Parse as spec;
ghost use Rattle.pawk_syntax_parse.specs.Heights.{height_of, highest_of};

use pawk_lex::token::Builtin;
use pawk_syntax_tree::tree::{Double, ExpressionTree, Name, Single};
use std::alloc::{AllocError, Global};

/// An expression and its height.
#[derive(Drop)]
pub struct Phrase {
    pub expr: ExpressionTree,
    pub height: usize,
    ghost known: { height ≡ height_of expr },
    ghost low: { height ≤ 200 },
}

/// A list of expressions, and the height of the highest.
#[derive(Drop)]
pub struct Phrases {
    pub list: Vec<ExpressionTree>,
    pub highest: usize,
    ghost known: { highest ≡ highest_of list.items },
    ghost low: { highest ≤ 200 },
}
