//! Lists of statements with their heights.

ghost use Rattle.std.specs.Prelude.{◌≡◌, ◌≤◌};
ghost use Rattle.pawk_syntax_grammar.specs.Views.{height_in, highest_in};

use pawk_syntax_tree::statement::StatementTree;

/// A list of statements, and the height of the highest.
#[derive(Drop)]
pub struct Body {
    pub list: Vec<StatementTree>,
    pub highest: usize,
    ghost known: { highest ≡ highest_in list.items },
    ghost low: { highest ≤ 200 },
}

/// One statement and its height.
#[derive(Drop)]
pub struct BodyStatement {
    pub statement: Box<StatementTree>,
    pub height: usize,
    ghost known: { height ≡ height_in statement.value },
    ghost small: { height ≤ 201 },
}
