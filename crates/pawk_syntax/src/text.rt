//! Reads a program text.

ghost use Rattle.std.specs.Prelude.{List, IfOk};
ghost use Rattle.pawk_lex.specs.Bytes.{Text};
ghost use Rattle.pawk_lex.specs.Cut.{Cut};
ghost use Rattle.pawk_syntax_tree.specs.Item.{Part};
ghost use Rattle.pawk_syntax_tree.specs.ItemCanonical.{canon_program};
ghost use Rattle.pawk_syntax.specs.Programs.{parts};
ghost use Rattle.pawk_syntax.specs.Spells.{Spells};
ghost use Rattle.pawk_syntax.specs.Reads.{ReadsAs};

use crate::program::Program;
use crate::reading::{first_refusal, read_items};
use pawk_lex::refusal::SyntaxRefusal;
use pawk_lex::token_list::TokenList;
use pawk_syntax_check::check::check;
use pawk_syntax_grammar::expressions::read_expressions;
use std::alloc::Global;

/// Reads the text of a program: its items, or why it is refused.
pub fn parse(alloc: Global, text: &[u8]) -> Result<Program, SyntaxRefusal>
    // The program that is answered is one that the text spells.
    ensures found { IfOk result (λ p. Spells text.now (parts p)) }
    // A text that has the tokens of the canonical text of a program that some text spells is read as
    // that program.
    ensures canonical { (other : Text) (xs : List Part) →
        Spells other xs → Cut text.now (canon_program xs) → ReadsAs xs result }
{
    let list = TokenList::read(alloc, text)?;
    match read_items(alloc, &list, text.len()) {
        Ok(items) => {
            let expressions = read_expressions(alloc, &list.tokens)?;
            drop(list);
            check(alloc, &items)?;
            Ok(Program { items, expressions })
        }
        Err(why) => Err(first_refusal(alloc, &list.tokens, why)),
    }
}
