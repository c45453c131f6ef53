//! The making of statements, one function for each variant.

ghost use Rattle.std.specs.Prelude.{◌≡◌, ◌≤◌, ◌∷◌, ◌++◌, [], IfOk, Option};
ghost use Rattle.pawk_syntax_tree.specs.Tree.{view, views, trees};
ghost use Rattle.pawk_syntax_tree.specs.Statement as stmt;
ghost use Rattle.pawk_syntax_tree.specs.Statement.{stmts, stmt_view, option_view, option_height, height_of};
ghost use Rattle.pawk_syntax_tree.specs.StatementParse as spec;
ghost use Rattle.pawk_syntax_parse.specs.Reads.{input, Gives, tree_of, trees_of};
ghost use Rattle.pawk_syntax_grammar.specs.Views.{stmt_views};
ghost use Rattle.pawk_syntax_grammar.specs.Reads.{body_of, option_of, stmt_of};

use crate::body::{Body, BodyStatement};
use pawk_lex::refusal::SyntaxRefusal;
use pawk_syntax_parse::build::{fitted, keep_if};
use pawk_syntax_parse::cursor::Cursor;
use pawk_syntax_parse::phrase::{Phrase, Phrases};
use pawk_syntax_tree::statement::{Jump, StatementTree};
use pawk_syntax_tree::tree::{ExpressionTree, Name};
use std::alloc::{AllocError, Global};

/// A list of one value, of any type, so that the way out drops the value by one call.
fn list_of<T: Drop>(alloc: Global, value: T) -> Result<Vec<T>, AllocError>
    ensures { IfOk result (λ list. list.items ≡ value ∷ []) }
{
    let mut list = Vec::with_capacity(alloc, 1)?;
    list.push(value)?;
    Ok(list)
}

/// A statement of this height, if that is not too high.
#[tactic(auto, using(crate::proofs::Building::low_is, crate::proofs::Building::low_none, crate::proofs::Building::single_height))]
pub fn low(
    alloc: Global,
    ts: &Cursor<'_>,
    statement: StatementTree,
    height: usize,
) -> Result<Body, SyntaxRefusal>
    requires { height ≡ height_of (stmt_view statement) }
    ensures { Gives body_of (spec.low_stmt (stmt_view statement) (input ts.now)) result
        (input ts.now) }
{
    let list = keep_if(list_of(alloc, statement)?, ts.low(height))?;
    Ok(Body {
        list,
        highest: height,
    })
}

/// One statement of this height.
#[tactic(auto, using(crate::proofs::Building::single_height))]
pub fn single(alloc: Global, statement: StatementTree, height: usize) -> Result<Body, AllocError>
    requires known { height ≡ height_of (stmt_view statement) }
    requires small { height ≤ 200 }
    ensures { IfOk result (λ b. body_of b ≡ stmt_view statement ∷ []) }
{
    Ok(Body {
        list: list_of(alloc, statement)?,
        highest: height,
    })
}

/// A statement of this height, not yet in a list.
pub fn line(
    alloc: Global,
    statement: StatementTree,
    height: usize,
) -> Result<BodyStatement, AllocError>
    requires known { height ≡ height_of (stmt_view statement) }
    requires small { height ≤ 201 }
    ensures { IfOk result (λ l. stmt_of l ≡ stmt_view statement) }
{
    Ok(BodyStatement {
        statement: Box::new(alloc, statement)?,
        height,
    })
}

/// A body of no statements.
pub fn no_statements(alloc: Global) -> Body
    ensures { body_of result ≡ [] }
{
    Body {
        list: Vec::new(alloc),
        highest: 0,
    }
}

/// The statements of one list and then those of another.
#[tactic(auto, using(crate::proofs::Building::highest_append))]
pub fn append(front: Body, more: Body) -> Result<Body, AllocError>
    ensures { IfOk result (λ b. body_of b ≡ body_of front ++ body_of more) }
{
    if front.list.is_empty() {
        return Ok(more);
    }
    let highest = front.highest.max(more.highest);
    let mut list = front.list;
    let mut others = more.list;
    list.append(&mut others)?;
    Ok(Body { list, highest })
}

/// The statements of a list that is complete, without the room that is left in it.
pub fn complete(body: Body) -> Body
    ensures { body_of result ≡ body_of body }
{
    let highest = body.highest;
    let list = fitted(body.list);
    Body { list, highest }
}

/// An expression as a statement.
pub fn expression(e: ExpressionTree) -> StatementTree
    ensures { stmt_view result ≡ stmt.eval (view e) }
{
    StatementTree::Expression(e)
}

/// The statement `print a, b` of these expressions.
pub fn print(list: Vec<ExpressionTree>) -> StatementTree
    ensures { stmt_view result ≡ stmt.print (trees (views list.items)) }
{
    StatementTree::Print(fitted(list))
}

/// The statement `printf a, b` of these expressions.
pub fn printf(list: Vec<ExpressionTree>) -> StatementTree
    ensures { stmt_view result ≡ stmt.printf (trees (views list.items)) }
{
    StatementTree::Printf(fitted(list))
}

/// The statement `if (e) a` without `else`.
pub fn when(e: ExpressionTree, a: Vec<StatementTree>) -> StatementTree
    ensures { stmt_view result ≡ stmt.when (view e) (stmts (stmt_views a.items)) }
{
    StatementTree::If(e, a)
}

/// `if (e) a else b`
pub fn choose(e: ExpressionTree, a: Vec<StatementTree>, b: Vec<StatementTree>) -> StatementTree
    ensures { stmt_view result ≡ stmt.choose (view e) (stmts (stmt_views a.items))
        (stmts (stmt_views b.items)) }
{
    StatementTree::IfElse(e, a, b)
}

/// The statement `while (e) a` of this test and body.
pub fn repeat(e: ExpressionTree, a: Vec<StatementTree>) -> StatementTree
    ensures { stmt_view result ≡ stmt.repeat (view e) (stmts (stmt_views a.items)) }
{
    StatementTree::While(e, a)
}

/// The statement `do a while (e)` of this body and test.
pub fn do_while(a: Vec<StatementTree>, e: ExpressionTree) -> StatementTree
    ensures { stmt_view result ≡ stmt.do_while (stmts (stmt_views a.items)) (view e) }
{
    StatementTree::DoWhile(a, e)
}

/// `for (a; b; c) body`
pub fn count(
    a: Option<ExpressionTree>,
    b: Option<ExpressionTree>,
    c: Option<ExpressionTree>,
    body: Vec<StatementTree>,
) -> StatementTree
    ensures { stmt_view result ≡ stmt.loop (option_view a) (option_view b) (option_view c)
        (stmts (stmt_views body.items)) }
{
    StatementTree::For(a, b, c, body)
}

/// `for (key in array) body`
pub fn walk(key: Name, array: Name, body: Vec<StatementTree>) -> StatementTree
    ensures { stmt_view result ≡ stmt.walk key.text.items array.text.items (stmts
        (stmt_views body.items)) }
{
    StatementTree::ForIn(key, array, body)
}

/// `next`, `nextfile`, `break` or `continue`, which begins at this byte.
pub fn leave(leave: Jump, start: usize) -> StatementTree
    ensures { stmt_view result ≡ stmt.go_out leave }
{
    StatementTree::Leave(leave, start)
}

/// The statement `exit`, with its status or without one.
pub fn exit(e: Option<ExpressionTree>) -> StatementTree
    ensures { stmt_view result ≡ stmt.exit_with (option_view e) }
{
    StatementTree::Exit(e)
}

/// `return`, which begins at this byte.
pub fn give_back(e: Option<ExpressionTree>, start: usize) -> StatementTree
    ensures { stmt_view result ≡ stmt.return_with (option_view e) }
{
    StatementTree::Return(e, start)
}

/// The statement `delete a[k, l]` of this array and these keys.
pub fn delete(array: Name, keys: Vec<ExpressionTree>) -> StatementTree
    ensures { stmt_view result ≡ stmt.delete array.text.items (trees (views keys.items)) }
{
    StatementTree::Delete(array, fitted(keys))
}

/// The statement `delete a`, which takes all elements away.
pub fn clear(array: Name) -> StatementTree
    ensures { stmt_view result ≡ stmt.clear array.text.items }
{
    StatementTree::DeleteArray(array)
}

/// An expression that may be missing, and its height, or 0.
pub fn split(phrase: Option<Box<Phrase>>) -> (Option<ExpressionTree>, usize)
    ensures seen { option_view result.0 ≡ option_of phrase }
    ensures height { result.1 ≡ option_height (option_of phrase) }
    ensures low { result.1 ≤ 200 }
{
    match phrase {
        None => (None, 0),
        Some(phrase) => {
            let phrase = Box::into_inner(phrase);
            (Some(phrase.expr), phrase.height)
        }
    }
}

/// `if (e) a`, if that is not too high.
pub fn low_when(alloc: Global, ts: &Cursor<'_>, e: Phrase, a: Body) -> Result<Body, SyntaxRefusal>
    ensures { Gives body_of (spec.low_stmt (stmt.when (tree_of e) (stmts (body_of a)))
        (input ts.now)) result (input ts.now) }
{
    let height = e.height.max(a.highest) + 1;
    let statement = when(e.expr, a.list);
    low(alloc, ts, statement, height)
}

/// `if (e) a else b`, if that is not too high.
pub fn low_choose(
    alloc: Global,
    ts: &Cursor<'_>,
    e: Phrase,
    a: Body,
    b: Body,
) -> Result<Body, SyntaxRefusal>
    ensures { Gives body_of (spec.low_stmt (stmt.choose
        (tree_of e) (stmts (body_of a)) (stmts (body_of b))) (input ts.now)) result (input ts.now) }
{
    let height = e.height.max(a.highest.max(b.highest)) + 1;
    let statement = choose(e.expr, a.list, b.list);
    low(alloc, ts, statement, height)
}

/// `while (e) a`, if that is not too high.
pub fn low_repeat(alloc: Global, ts: &Cursor<'_>, e: Phrase, a: Body) -> Result<Body, SyntaxRefusal>
    ensures { Gives body_of (spec.low_stmt (stmt.repeat (tree_of e) (stmts (body_of a)))
        (input ts.now)) result (input ts.now) }
{
    let height = e.height.max(a.highest) + 1;
    let statement = repeat(e.expr, a.list);
    low(alloc, ts, statement, height)
}

/// `do a while (e)`, if that is not too high.
pub fn low_do(alloc: Global, ts: &Cursor<'_>, a: Body, e: Phrase) -> Result<Body, SyntaxRefusal>
    ensures { Gives body_of (spec.low_stmt (stmt.do_while (stmts (body_of a)) (tree_of e))
        (input ts.now)) result (input ts.now) }
{
    let height = a.highest.max(e.height) + 1;
    let statement = do_while(a.list, e.expr);
    low(alloc, ts, statement, height)
}

/// `for (a; b; c) body`, if that is not too high.
pub fn low_count(
    alloc: Global,
    ts: &Cursor<'_>,
    head: (
        Option<Box<Phrase>>,
        Option<Box<Phrase>>,
        Option<Box<Phrase>>,
    ),
    body: Body,
) -> Result<Body, SyntaxRefusal>
    ensures { Gives body_of (spec.low_stmt (stmt.loop (option_of head.0) (option_of head.1)
        (option_of head.2) (stmts (body_of body))) (input ts.now)) result (input ts.now) }
{
    let (a, first) = split(head.0);
    let (b, second) = split(head.1);
    let (c, third) = split(head.2);
    let height = first.max(second.max(third)).max(body.highest) + 1;
    let statement = count(a, b, c, body.list);
    low(alloc, ts, statement, height)
}

/// `for (key in array) body`, if that is not too high.
pub fn low_walk(
    alloc: Global,
    ts: &Cursor<'_>,
    names: (Name, Name),
    body: Body,
) -> Result<Body, SyntaxRefusal>
    ensures { Gives body_of (spec.low_stmt (stmt.walk names.0.text.items names.1.text.items
        (stmts (body_of body))) (input ts.now)) result (input ts.now) }
{
    let height = body.highest + 1;
    let statement = walk(names.0, names.1, body.list);
    low(alloc, ts, statement, height)
}
