//! Items.

ghost use Rattle.std.specs.Prelude.{◌≡◌, ◌≤◌, ◌∷◌, ◌++◌, ◌+◌, [], length, IfOk};
ghost use Rattle.pawk_syntax_tree.specs.Item as shape;
ghost use Rattle.pawk_syntax_tree.specs.Item.{part};
ghost use Rattle.pawk_syntax_tree.specs.ItemParse as spec;
ghost use Rattle.pawk_syntax_tree.specs.StatementParse as statement_spec;
ghost use Rattle.pawk_syntax_parse.specs.Reads.{input, Gives, nothing, tree_of};
ghost use Rattle.pawk_syntax_grammar.specs.Reads.{body_of};
ghost use Rattle.pawk_syntax_grammar.specs.Heights.{height_in};
ghost use Rattle.pawk_syntax_grammar.specs.ItemReads.{action_of, part_of, names_of, items_of, tree_in};

use crate::body::Body;
use crate::build;
use crate::part::ProgramPart;
use crate::statement::{block, whole};
use pawk_lex::refusal::SyntaxRefusal;
use pawk_lex::token::{Mark, TokenValue};
use pawk_syntax_parse::build as trees;
use pawk_syntax_parse::cursor::Cursor;
use pawk_syntax_parse::expression::GREATEST_DEPTH;
use pawk_syntax_parse::lookahead::expect_name;
use pawk_syntax_parse::phrase::Phrase;
use pawk_syntax_tree::item::ProgramItem;
use pawk_syntax_tree::tree::Name;
use std::alloc::{AllocError, Global};

/// The statements of an action.
#[tactic(auto, unfolding(pawk_syntax_tree::specs::ItemParse::action))]
fn action(alloc: Global, ts: &mut Cursor<'_>) -> Result<Body, SyntaxRefusal>
    ensures { Gives action_of (spec.action (input ts.old)) result (input ts.new) }
{
    ts.expect(Mark::LeftBrace, true)?;
    block(alloc, ts, GREATEST_DEPTH)
}

/// An item of this height, if that is not too high.
#[tactic(auto, using(crate::proofs::ItemBuilding::low_is, crate::proofs::ItemBuilding::low_none))]
fn low(
    ts: &Cursor<'_>,
    item: ProgramItem,
    height: usize,
    closes: bool,
) -> Result<ProgramPart, SyntaxRefusal>
    requires { height ≡ height_in item }
    ensures { Gives part_of (spec.low_part closes (part item) (input ts.now)) result
        (input ts.now) }
{
    let item = trees::keep_if(item, ts.low(height))?;
    Ok(ProgramPart { item, closes })
}

#[tactic(auto, unfolding(pawk_syntax_tree::specs::ItemParse::with_action))]
fn begin(alloc: Global, ts: &mut Cursor<'_>) -> Result<ProgramPart, SyntaxRefusal>
    ensures { Gives part_of (spec.with_action shape.begin (input ts.old)) result (input ts.new) }
{
    let body = action(alloc, ts)?;
    let height = body.highest + 1;
    low(ts, ProgramItem::Begin(body.list), height, true)
}

#[tactic(auto, unfolding(pawk_syntax_tree::specs::ItemParse::with_action))]
fn end(alloc: Global, ts: &mut Cursor<'_>) -> Result<ProgramPart, SyntaxRefusal>
    ensures { Gives part_of (spec.with_action shape.end (input ts.old)) result (input ts.new) }
{
    let body = action(alloc, ts)?;
    let height = body.highest + 1;
    low(ts, ProgramItem::End(body.list), height, true)
}

#[tactic(auto, unfolding(pawk_syntax_tree::specs::ItemParse::with_action))]
fn always(alloc: Global, ts: &mut Cursor<'_>) -> Result<ProgramPart, SyntaxRefusal>
    ensures { Gives part_of (spec.with_action shape.always (input ts.old)) result (input ts.new) }
{
    let body = action(alloc, ts)?;
    let height = body.highest + 1;
    low(ts, ProgramItem::Always(body.list), height, true)
}

/// The action of a rule that has none: `print $0`.
fn print_record(alloc: Global) -> Result<Body, AllocError>
    ensures { IfOk result (λ b. action_of b ≡ shape.print_record) }
{
    let list = trees::push(trees::no_phrases(alloc), trees::record(alloc)?)?;
    let statement = build::print(list.list);
    build::single(alloc, statement, 3)
}

/// A rule with a pattern.
fn when(ts: &Cursor<'_>, p: Phrase, body: Body, closes: bool) -> Result<ProgramPart, SyntaxRefusal>
    ensures { Gives part_of (spec.low_part closes (shape.matching (tree_of p) (action_of body))
        (input ts.now)) result (input ts.now) }
{
    let height = p.height.max(body.highest) + 1;
    low(ts, ProgramItem::When(p.expr, body.list), height, closes)
}

/// A rule with a range.
fn range(
    ts: &Cursor<'_>,
    p: Phrase,
    q: Phrase,
    body: Body,
    closes: bool,
) -> Result<ProgramPart, SyntaxRefusal>
    ensures { Gives part_of (spec.low_part closes (shape.between (tree_of p)
        (tree_of q) (action_of body)) (input ts.now)) result (input ts.now) }
{
    let height = p.height.max(q.height.max(body.highest)) + 1;
    low(
        ts,
        ProgramItem::Range(p.expr, q.expr, body.list),
        height,
        closes,
    )
}

/// An expression whose value counts, in a box.
fn boxed_whole(alloc: Global, ts: &mut Cursor<'_>) -> Result<Box<Phrase>, SyntaxRefusal>
    ensures { Gives tree_in (statement_spec.whole (input ts.old)) result (input ts.new) }
{
    let phrase = whole(alloc, ts)?;
    Ok(Box::new(alloc, phrase)?)
}

/// A rule whose pattern was read.
#[tactic(auto, unfolding(pawk_syntax_tree::specs::ItemParse::action_or_none, pawk_syntax_tree::specs::ItemParse::with_action))]
fn matching(
    alloc: Global,
    ts: &mut Cursor<'_>,
    p: Box<Phrase>,
) -> Result<ProgramPart, SyntaxRefusal>
    ensures { Gives part_of (spec.action_or_none (shape.matching (tree_in p)) (input ts.old))
        result (input ts.new) }
{
    if ts.sees(Mark::LeftBrace) {
        let body = action(alloc, ts)?;
        return when(ts, Box::into_inner(p), body, true);
    }
    let body = print_record(alloc)?;
    when(ts, Box::into_inner(p), body, false)
}

/// A rule whose range was read.
#[tactic(auto, unfolding(pawk_syntax_tree::specs::ItemParse::action_or_none, pawk_syntax_tree::specs::ItemParse::with_action))]
fn between(
    alloc: Global,
    ts: &mut Cursor<'_>,
    p: Box<Phrase>,
    q: Box<Phrase>,
) -> Result<ProgramPart, SyntaxRefusal>
    ensures { Gives part_of (spec.action_or_none
        (shape.between (tree_in p) (tree_in q)) (input ts.old)) result (input ts.new) }
{
    if ts.sees(Mark::LeftBrace) {
        let body = action(alloc, ts)?;
        return range(ts, Box::into_inner(p), Box::into_inner(q), body, true);
    }
    let body = print_record(alloc)?;
    range(ts, Box::into_inner(p), Box::into_inner(q), body, false)
}

/// A rule with a range, after the comma.
fn range_from(
    alloc: Global,
    ts: &mut Cursor<'_>,
    p: Box<Phrase>,
) -> Result<ProgramPart, SyntaxRefusal>
    ensures { Gives part_of (spec.range_from (tree_in p) (input ts.old)) result
        (input ts.new) }
{
    ts.skip_lines();
    let q = boxed_whole(alloc, ts)?;
    between(alloc, ts, p, q)
}

#[tactic(auto, unfolding(pawk_syntax_tree::specs::ItemParse::pattern))]
fn pattern(alloc: Global, ts: &mut Cursor<'_>) -> Result<ProgramPart, SyntaxRefusal>
    ensures { Gives part_of (spec.pattern (input ts.old)) result (input ts.new) }
{
    let p = boxed_whole(alloc, ts)?;
    if ts.eat(Mark::Comma) {
        return range_from(alloc, ts, p);
    }
    matching(alloc, ts, p)
}

/// Parameters, up to and with the closing bracket.
fn parameters_from(alloc: Global, ts: &mut Cursor<'_>) -> Result<Vec<Name>, SyntaxRefusal>
    ensures { Gives names_of (spec.parameters_from (length (input ts.old)) [] (input ts.old))
        result (input ts.new) }
{
    let mut all = Vec::new(alloc);
    for _turn in 0..ts.left() {
        all.push(expect_name(alloc, ts, true)?)?;
        if !ts.eat(Mark::Comma) {
            ts.expect(Mark::RightParenthesis, true)?;
            return Ok(all);
        }
        ts.skip_lines();
    }
    Err(ts.refuse(true))
}

#[tactic(auto, unfolding(pawk_syntax_tree::specs::ItemParse::parameters))]
fn parameters(alloc: Global, ts: &mut Cursor<'_>) -> Result<Vec<Name>, SyntaxRefusal>
    ensures { Gives names_of (spec.parameters (input ts.old)) result (input ts.new) }
{
    if ts.eat(Mark::RightParenthesis) {
        return Ok(Vec::new(alloc));
    }
    parameters_from(alloc, ts)
}

#[tactic(auto, unfolding(pawk_syntax_tree::specs::ItemParse::function_name))]
fn function_name(alloc: Global, ts: &mut Cursor<'_>) -> Result<Name, SyntaxRefusal>
    ensures { Gives (λ x. x.text.items) (spec.function_name (input ts.old)) result (input ts.new) }
{
    match ts.rest {
        [] => Err(ts.refuse(true)),
        [next, ..] => match &next.value {
            TokenValue::Name(text) => {
                ts.pass();
                Ok(trees::name(alloc, text, next.span.start)?)
            }
            TokenValue::FunctionName(text) => {
                ts.pass();
                Ok(trees::name(alloc, text, next.span.start)?)
            }
            _ => Err(ts.refuse(true)),
        },
    }
}

#[tactic(auto, unfolding(pawk_syntax_tree::specs::ItemParse::function_on, pawk_syntax_tree::specs::ItemParse::with_action))]
fn function_on(alloc: Global, ts: &mut Cursor<'_>) -> Result<ProgramPart, SyntaxRefusal>
    ensures { Gives part_of (spec.function_on (input ts.old)) result (input ts.new) }
{
    let name = function_name(alloc, ts)?;
    ts.expect(Mark::LeftParenthesis, true)?;
    let parameters = parameters(alloc, ts)?;
    ts.skip_lines();
    let body = action(alloc, ts)?;
    let height = body.highest + 1;
    low(
        ts,
        ProgramItem::Function(name, parameters, body.list),
        height,
        true,
    )
}

fn item_by(alloc: Global, ts: &mut Cursor<'_>, sign: Mark) -> Result<ProgramPart, SyntaxRefusal>
    ensures { Gives part_of (spec.item_by sign (input ts.old)) result (input ts.new) }
{
    match sign {
        Mark::Begin => {
            ts.pass();
            begin(alloc, ts)
        }
        Mark::End => {
            ts.pass();
            end(alloc, ts)
        }
        Mark::LeftBrace => always(alloc, ts),
        Mark::Function => {
            ts.pass();
            function_on(alloc, ts)
        }
        _ => pattern(alloc, ts),
    }
}

/// An item, and whether it ends with an action.
#[tactic(auto, unfolding(pawk_syntax_tree::specs::ItemParse::item))]
pub fn item(alloc: Global, ts: &mut Cursor<'_>) -> Result<ProgramPart, SyntaxRefusal>
    ensures { Gives part_of (spec.item (input ts.old)) result (input ts.new) }
{
    ts.item = ts.place();
    match ts.rest {
        [] => Err(ts.refuse(true)),
        [next, ..] => match &next.value {
            TokenValue::Mark(sign) => item_by(alloc, ts, *sign),
            _ => pattern(alloc, ts),
        },
    }
}

#[tactic(auto, unfolding(pawk_syntax_tree::specs::ItemParse::separates))]
fn separates(ts: &Cursor<'_>) -> bool
    ensures { result ≡ spec.separates (input ts.now) }
{
    ts.sees(Mark::Semicolon) || ts.sees(Mark::Newline)
}

/// Passes over `;` and newlines.
#[tactic(auto, using(crate::proofs::ItemBuilding::one_separator, crate::proofs::ItemBuilding::shorter, crate::proofs::ItemBuilding::no_separator))]
fn skip_separators(ts: &mut Cursor<'_>)
    ensures { input ts.new ≡ spec.skip_separators (input ts.old) }
{
    while separates(ts) {
        ts.pass();
    }
}

fn at_end(ts: &Cursor<'_>) -> bool
    ensures { result ≡ spec.at_end (input ts.now) }
{
    match ts.rest {
        [] => true,
        [_, ..] => false,
    }
}

/// What follows an item.
#[tactic(auto, unfolding(pawk_syntax_tree::specs::ItemParse::separated))]
fn separated(ts: &mut Cursor<'_>, closes: bool) -> Result<(), SyntaxRefusal>
    ensures { Gives nothing (spec.separated closes (input ts.old)) result (input ts.new) }
{
    if closes || (at_end(ts) || separates(ts)) {
        skip_separators(ts);
        Ok(())
    } else {
        Err(ts.refuse(true))
    }
}

/// All items, up to the end of the tokens.
fn items(alloc: Global, ts: &mut Cursor<'_>) -> Result<Vec<ProgramItem>, SyntaxRefusal>
    ensures { Gives items_of (spec.items_from (length (input ts.old) + 1) [] (input ts.old))
        result (input ts.new) }
{
    let mut all = Vec::new(alloc);
    for _turn in 0..ts.left() + 1 {
        if at_end(ts) {
            return Ok(all);
        }
        let part = item(alloc, ts)?;
        all.push(part.item)?;
        separated(ts, part.closes)?;
    }
    Err(ts.refuse(true))
}

/// A program: its items, up to the end of the tokens, with newlines before the first.
#[tactic(auto, unfolding(pawk_syntax_tree::specs::ItemParse::program))]
pub fn program(alloc: Global, ts: &mut Cursor<'_>) -> Result<Vec<ProgramItem>, SyntaxRefusal>
    ensures { Gives items_of (spec.program (input ts.old)) result (input ts.new) }
{
    ts.skip_lines();
    items(alloc, ts)
}
