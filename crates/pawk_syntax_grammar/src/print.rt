//! The lists of `print` and `printf`.

ghost use Rattle.std.specs.Prelude.{◌≡◌, ◌+◌, [], length};
ghost use Rattle.pawk_syntax_tree.specs.StatementParse as spec;
ghost use Rattle.pawk_syntax_parse.specs.Reads.{input, Gives, tree_of, trees_of};

use pawk_lex::refusal::SyntaxRefusal;
use pawk_lex::token::Mark;
use pawk_syntax_parse::build;
use pawk_syntax_parse::cursor::Cursor;
use pawk_syntax_parse::expression::{after_operand, list, list_up_to};
use pawk_syntax_parse::lookahead::expect_name;
use pawk_syntax_parse::phrase::{Phrase, Phrases};
use pawk_syntax_tree::levels::{OF_MEMBER, OF_VALUE};
use std::alloc::Global;

/// What comes after the first expression of a list.
#[tactic(auto, unfolding(pawk_syntax_tree::specs::StatementParse::list_on))]
fn list_on(alloc: Global, ts: &mut Cursor<'_>, first: Phrase) -> Result<Phrases, SyntaxRefusal>
    ensures { Gives trees_of (spec.list_on (tree_of first) (input ts.old)) result (input ts.new) }
{
    let argument = build::argument(alloc, None, 0, first)?;
    let front = build::push(build::no_phrases(alloc), argument)?;
    if ts.eat(Mark::Comma) {
        ts.skip_lines();
        return list(alloc, ts, false, front);
    }
    Ok(front)
}

/// A list that begins with an operand of this level.
#[tactic(auto, unfolding(pawk_syntax_tree::specs::StatementParse::list_after))]
fn list_after(
    alloc: Global,
    ts: &mut Cursor<'_>,
    first: Phrase,
    level: u8,
) -> Result<Phrases, SyntaxRefusal>
    ensures { Gives trees_of (spec.list_after (tree_of first) level (input ts.old)) result
        (input ts.new) }
{
    let whole = after_operand(alloc, ts, first, level)?;
    list_on(alloc, ts, whole)
}

/// After a list in brackets: one expression is the first operand of a list, several are the keys of
/// `in` or the whole list.
fn bracketed_by(
    alloc: Global,
    ts: &mut Cursor<'_>,
    inner: Phrases,
) -> Result<Phrases, SyntaxRefusal>
    ensures { Gives trees_of (spec.bracketed_by (trees_of inner) (input ts.old)) result
        (input ts.new) }
{
    if inner.list.is_empty() {
        return Err(ts.refuse(false));
    }
    if inner.list.len() == 1 {
        return list_after(alloc, ts, build::only(inner), OF_VALUE);
    }
    if !ts.eat(Mark::In) {
        return Ok(inner);
    }
    let name = expect_name(alloc, ts, false)?;
    let member = build::member(ts, inner, name)?;
    list_after(alloc, ts, member, OF_MEMBER)
}

#[tactic(auto, unfolding(pawk_syntax_tree::specs::StatementParse::bracketed))]
fn bracketed(alloc: Global, ts: &mut Cursor<'_>) -> Result<Phrases, SyntaxRefusal>
    ensures { Gives trees_of (spec.bracketed (input ts.old)) result (input ts.new) }
{
    let inner = list_up_to(alloc, ts, Mark::RightParenthesis)?;
    bracketed_by(alloc, ts, inner)
}

/// A list of `print` or `printf`.
#[tactic(auto, unfolding(pawk_syntax_tree::specs::StatementParse::printed))]
pub fn printed(alloc: Global, ts: &mut Cursor<'_>) -> Result<Phrases, SyntaxRefusal>
    ensures { Gives trees_of (spec.printed (input ts.old)) result (input ts.new) }
{
    if ts.eat(Mark::LeftParenthesis) {
        return bracketed(alloc, ts);
    }
    list(alloc, ts, false, build::no_phrases(alloc))
}
