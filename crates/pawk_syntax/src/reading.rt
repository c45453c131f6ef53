//! Reads the tokens of a text as the items of a program.

ghost use Rattle.std.specs.Prelude.{◌≡◌, ◌≤◌, List, IfOk, IfErr, length, map, true};
ghost use Rattle.pawk_lex.specs.declared.refusal.SyntaxRefusal.TheVariants as refusal;
ghost use Rattle.pawk_lex.specs.TokenLists.{values};
ghost use Rattle.pawk_syntax_tree.specs.Item.{Part, part};
ghost use Rattle.pawk_syntax_grammar.specs.ExpressionReads.{Denies};
ghost use Rattle.pawk_syntax_grammar.specs.Brackets.{are_few};
ghost use Rattle.pawk_syntax.specs.Items.{AreRead};

use pawk_lex::refusal::{Cause, SyntaxRefusal};
use pawk_lex::token::Token;
use pawk_lex::token_list::TokenList;
use pawk_syntax_grammar::brackets::excess;
use pawk_syntax_grammar::expressions::read_expressions;
use pawk_syntax_grammar::item::program;
use pawk_syntax_parse::cursor::Cursor;
use pawk_syntax_tree::item::ProgramItem;
use std::alloc::Global;

/// Why a text of `size` bytes is refused of which these tokens come before a bracket too many.
fn too_many_brackets(alloc: Global, tokens: &[Token], size: usize) -> SyntaxRefusal {
    let mut cursor = Cursor {
        rest: tokens,
        size,
        refusal: Some(SyntaxRefusal::At {
            cause: Cause::Nesting,
            place: 1,
        }),
        item: 0,
    };
    match program(alloc, &mut cursor) {
        Ok(_) => cursor.too_deep(),
        Err(
            SyntaxRefusal::At {
                cause: Cause::Nesting,
                ..
            },
        ) => cursor.too_deep(),
        Err(refusal) => refusal,
    }
}

/// Reads the tokens of a text of `size` bytes, of which few brackets are open at once.
#[tactic(auto, using(crate::proofs::Readings::whole_program))]
fn read_few(alloc: Global, list: &TokenList, size: usize) -> Result<Vec<ProgramItem>, SyntaxRefusal>
    requires { are_few 0 (values list.now.tokens.items) ≡ true }
    ensures found { IfOk result (λ v.
        AreRead (values list.now.tokens.items) list.now.refusal (map part v.items)) }
    ensures refused { IfErr result (λ why. (xs : List Part) →
        Denies why (AreRead (values list.now.tokens.items) list.now.refusal xs)) }
{
    let mut cursor = Cursor {
        rest: &list.tokens,
        size,
        refusal: list.refusal,
        item: 0,
    };
    let items = program(alloc, &mut cursor)?;
    match list.refusal {
        None => Ok(items),
        Some(refusal) => Err(refusal),
    }
}

/// Reads the tokens of a text of `size` bytes as the items of a program.
pub fn read_items(
    alloc: Global,
    list: &TokenList,
    size: usize,
) -> Result<Vec<ProgramItem>, SyntaxRefusal>
    ensures found { IfOk result (λ v.
        AreRead (values list.now.tokens.items) list.now.refusal (map part v.items)) }
    ensures refused { IfErr result (λ why. (xs : List Part) →
        Denies why (AreRead (values list.now.tokens.items) list.now.refusal xs)) }
{
    match excess(&list.tokens) {
        Some(place) => Err(too_many_brackets(alloc, &list.tokens[..place], size)),
        None => read_few(alloc, list, size),
    }
}

/// How many of the tokens begin before a place, counted from 1.
fn count_before(tokens: &[Token], place: usize) -> usize
    ensures { result ≤ length tokens.now }
{
    for (count, token) in tokens.iter().enumerate() {
        if token.span.start.saturating_add(1) >= place {
            return count;
        }
    }
    tokens.len()
}

/// What is refused first: this, or an expression among the tokens before it that cannot be read.
pub fn first_refusal(alloc: Global, tokens: &[Token], why: SyntaxRefusal) -> SyntaxRefusal
    ensures { why ≡ refusal.Memory → result ≡ refusal.Memory }
{
    match why {
        SyntaxRefusal::Memory => SyntaxRefusal::Memory,
        SyntaxRefusal::At { place, .. } => {
            match read_expressions(alloc, &tokens[..count_before(tokens, place)]) {
                Ok(_) => why,
                Err(earlier) => earlier,
            }
        }
    }
}
