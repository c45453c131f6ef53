//! Programs that were read.

ghost use Rattle.std.specs.Prelude.{◌≡◌, map};
ghost use Rattle.pawk_syntax_tree.specs.Item.{part};
ghost use Rattle.pawk_syntax_grammar.specs.Expressions.{eres_of_program};
ghost use Rattle.pawk_syntax_grammar.specs.ExpressionReads.{AreExpressions};
ghost use Rattle.pawk_syntax.specs.Spells.{IsSpelled};

use pawk_syntax_tree::item::ProgramItem;

/// A program that a text spells, with the texts between its slashes. Only `parse` makes one.
#[derive(Drop)]
pub struct Program {
    pub(crate) items: Vec<ProgramItem>,
    pub(crate) expressions: Vec<Vec<u8>>,
    ghost spelled: { ∥ IsSpelled (map part items.items) ∥₁ },
    ghost texts: { map (λ t. t.items) expressions.items ≡ eres_of_program (map part items.items) },
}

impl Program {
    ghost use Rattle.pawk_syntax.specs.Programs.{parts};

    /// The items of the program, in the order of its text.
    pub fn tree(&self) -> &[ProgramItem]
        ensures items { map part result.now ≡ parts self.now }
        ensures spelled { ∥ IsSpelled (map part result.now) ∥₁ }
    {
        &self.items
    }

    /// The texts of the regular expressions between slashes, in the order of the program's text.
    pub fn expressions(&self) -> &[Vec<u8>]
        ensures texts { map (λ t. t.items) result.now ≡ eres_of_program (parts self.now) }
        ensures spelled { ∥ AreExpressions (map (λ t. t.items) result.now) ∥₁ }
    {
        &self.expressions
    }
}
