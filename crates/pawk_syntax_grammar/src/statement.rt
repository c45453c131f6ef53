//! Statements. Each function takes the reader of nested statements as a parameter, so that each is
//! proved by itself.

ghost use Rattle.std.specs.Prelude.{◌≡◌, ◌+◌, ◌≤◌, ◌∷◌, ◌++◌, [], length, drop, IfOk, Option, Some};
ghost use Rattle.pawk_lex.specs.declared.token.Mark.{Mark};
ghost use Rattle.pawk_syntax_tree.specs.Statement as stmt;
ghost use Rattle.pawk_syntax_tree.specs.StatementParse as spec;
ghost use Rattle.pawk_syntax_parse.specs.Reads.{input, Gives, nothing, tree_of, trees_of};
ghost use Rattle.pawk_syntax_grammar.specs.Reads.{body_of, option_of, stmt_of, names_of};
ghost use Rattle.pawk_syntax_grammar.specs.StatementReads.{Nests};
ghost use Rattle.pawk_syntax_grammar.specs.StatementReads as reads;

use crate::body::{Body, BodyStatement};
use crate::build;
use crate::print::printed;
use pawk_lex::refusal::SyntaxRefusal;
use pawk_lex::token::{Mark, TokenValue};
use pawk_syntax_parse::build as trees;
use pawk_syntax_parse::build::{both, keep_if};
use pawk_syntax_parse::cursor::Cursor;
use pawk_syntax_parse::expression::{GREATEST_DEPTH, expr, list_up_to};
use pawk_syntax_parse::lookahead::expect_name;
use pawk_syntax_parse::phrase::Phrase;
use pawk_syntax_tree::levels::OF_EXPR;
use pawk_syntax_tree::statement::{Jump, StatementTree};
use pawk_syntax_tree::tree::Name;
use std::alloc::{AllocError, Global};

/// An expression whose value counts.
#[tactic(auto, unfolding(pawk_syntax_tree::specs::StatementParse::whole))]
pub fn whole(alloc: Global, ts: &mut Cursor<'_>) -> Result<Phrase, SyntaxRefusal>
    ensures { Gives tree_of (spec.whole (input ts.old)) result (input ts.new) }
{
    let phrase = expr(alloc, ts, GREATEST_DEPTH, true, OF_EXPR)?;
    Ok(trees::value(alloc, phrase)?)
}

/// Whether a simple statement ends here.
#[tactic(auto, unfolding(pawk_syntax_tree::specs::StatementParse::ends))]
fn ends(ts: &Cursor<'_>) -> bool
    ensures { result ≡ spec.ends (input ts.now) }
{
    ts.sees(Mark::Semicolon) || ts.sees(Mark::Newline) || ts.sees(Mark::RightBrace)
}

/// `;` or a newline, and further newlines; or nothing before `}`.
#[tactic(auto, unfolding(pawk_syntax_tree::specs::StatementParse::end))]
fn end(ts: &mut Cursor<'_>, compares: bool) -> Result<(), SyntaxRefusal>
    ensures { Gives nothing (spec.end (input ts.old)) result (input ts.new) }
{
    if ts.sees(Mark::Semicolon) || ts.sees(Mark::Newline) {
        ts.pass();
        ts.skip_lines();
        Ok(())
    } else if ts.sees(Mark::RightBrace) {
        Ok(())
    } else {
        Err(ts.refuse(compares))
    }
}

/// An expression, in a box, that is missing where this says so.
#[tactic(auto, unfolding(pawk_syntax_tree::specs::StatementParse::maybe))]
fn maybe(
    alloc: Global,
    ts: &mut Cursor<'_>,
    none_here: bool,
) -> Result<Option<Box<Phrase>>, SyntaxRefusal>
    ensures { Gives option_of (spec.maybe none_here (input ts.old)) result (input ts.new) }
{
    if none_here {
        return Ok(None);
    }
    let phrase = whole(alloc, ts)?;
    Ok(Some(Box::new(alloc, phrase)?))
}

#[tactic(auto, unfolding(pawk_syntax_tree::specs::StatementParse::deleted))]
fn deleted(alloc: Global, ts: &mut Cursor<'_>) -> Result<BodyStatement, SyntaxRefusal>
    ensures { Gives stmt_of (spec.deleted (input ts.old)) result (input ts.new) }
{
    let array = expect_name(alloc, ts, true)?;
    if !ts.eat(Mark::LeftBracket) {
        return Ok(build::line(alloc, build::clear(array), 1)?);
    }
    let (array, keys) = both(Ok(array), list_up_to(alloc, ts, Mark::RightBracket))?;
    let height = keys.highest + 1;
    let statement = build::delete(array, keys.list);
    Ok(build::line(alloc, statement, height)?)
}

#[tactic(auto, unfolding(pawk_syntax_tree::specs::StatementParse::print_on))]
fn print_on(alloc: Global, ts: &mut Cursor<'_>) -> Result<BodyStatement, SyntaxRefusal>
    ensures { Gives stmt_of (spec.print_on (input ts.old)) result (input ts.new) }
{
    let list = if ends(ts) {
        trees::push(trees::no_phrases(alloc), trees::record(alloc)?)?
    } else {
        printed(alloc, ts)?
    };
    let height = list.highest + 1;
    let statement = build::print(list.list);
    Ok(build::line(alloc, statement, height)?)
}

fn leave(alloc: Global, ts: &mut Cursor<'_>, word: Jump) -> Result<BodyStatement, SyntaxRefusal>
    ensures { Gives stmt_of (Some (stmt.go_out word, drop 1 (input ts.old))) result (input ts.new) }
{
    let statement = build::leave(word, ts.place());
    ts.pass();
    Ok(build::line(alloc, statement, 1)?)
}

/// The value after `exit` or `return`, in a box, which may be missing.
fn operand(alloc: Global, ts: &mut Cursor<'_>) -> Result<Option<Box<Phrase>>, SyntaxRefusal>
    ensures { Gives option_of (spec.maybe (spec.ends (input ts.old)) (input ts.old)) result
        (input ts.new) }
{
    let none_here = ends(ts);
    maybe(alloc, ts, none_here)
}

fn printf_on(alloc: Global, ts: &mut Cursor<'_>) -> Result<BodyStatement, SyntaxRefusal>
    ensures { Gives stmt_of (spec.simple_by Mark.Printf (input ts.old)) result (input ts.new) }
{
    ts.pass();
    let list = printed(alloc, ts)?;
    let height = list.highest + 1;
    let statement = build::printf(list.list);
    Ok(build::line(alloc, statement, height)?)
}

fn exit(alloc: Global, ts: &mut Cursor<'_>) -> Result<BodyStatement, SyntaxRefusal>
    ensures { Gives stmt_of (spec.simple_by Mark.Exit (input ts.old)) result (input ts.new) }
{
    ts.pass();
    let (e, height) = build::split(operand(alloc, ts)?);
    Ok(build::line(alloc, build::exit(e), height + 1)?)
}

fn give_back(alloc: Global, ts: &mut Cursor<'_>) -> Result<BodyStatement, SyntaxRefusal>
    ensures { Gives stmt_of (spec.simple_by Mark.Return (input ts.old)) result (input ts.new) }
{
    let start = ts.place();
    ts.pass();
    let (e, height) = build::split(operand(alloc, ts)?);
    Ok(build::line(alloc, build::give_back(e, start), height + 1)?)
}

fn simple_by(alloc: Global, ts: &mut Cursor<'_>, sign: Mark) -> Result<BodyStatement, SyntaxRefusal>
    ensures { Gives stmt_of (spec.simple_by sign (input ts.old)) result (input ts.new) }
{
    match sign {
        Mark::Print => {
            ts.pass();
            print_on(alloc, ts)
        }
        Mark::Printf => printf_on(alloc, ts),
        Mark::Next => leave(alloc, ts, Jump::Next),
        Mark::NextFile => leave(alloc, ts, Jump::NextFile),
        Mark::Break => leave(alloc, ts, Jump::Break),
        Mark::Continue => leave(alloc, ts, Jump::Continue),
        Mark::Exit => exit(alloc, ts),
        Mark::Return => give_back(alloc, ts),
        Mark::Delete => {
            ts.pass();
            deleted(alloc, ts)
        }
        _ => evaluated(alloc, ts),
    }
}

fn evaluated(alloc: Global, ts: &mut Cursor<'_>) -> Result<BodyStatement, SyntaxRefusal>
    ensures { Gives stmt_of (spec.evaluated (input ts.old)) result (input ts.new) }
{
    let e = whole(alloc, ts)?;
    let height = e.height;
    let statement = build::expression(e.expr);
    Ok(build::line(alloc, statement, height)?)
}

#[tactic(auto, unfolding(pawk_syntax_tree::specs::StatementParse::simple))]
fn simple(alloc: Global, ts: &mut Cursor<'_>) -> Result<BodyStatement, SyntaxRefusal>
    ensures { Gives stmt_of (spec.simple (input ts.old)) result (input ts.new) }
{
    match ts.rest {
        [] => Err(ts.refuse(true)),
        [next, ..] => match &next.value {
            TokenValue::Mark(sign) => simple_by(alloc, ts, *sign),
            _ => evaluated(alloc, ts),
        },
    }
}

#[tactic(auto, unfolding(pawk_syntax_tree::specs::StatementParse::head))]
fn head(alloc: Global, ts: &mut Cursor<'_>) -> Result<Phrase, SyntaxRefusal>
    ensures { Gives tree_of (spec.head (input ts.old)) result (input ts.new) }
{
    ts.expect(Mark::LeftParenthesis, true)?;
    let e = whole(alloc, ts)?;
    let e = keep_if(e, ts.expect(Mark::RightParenthesis, true))?;
    ts.skip_lines();
    Ok(e)
}

/// The test in brackets after the body of `do`, and the end of the statement.
fn foot(alloc: Global, ts: &mut Cursor<'_>) -> Result<Phrase, SyntaxRefusal>
    ensures { Gives tree_of (reads.foot (input ts.old)) result (input ts.new) }
{
    ts.expect(Mark::While, true)?;
    ts.expect(Mark::LeftParenthesis, true)?;
    let e = whole(alloc, ts)?;
    let e = keep_if(e, ts.expect(Mark::RightParenthesis, true))?;
    keep_if(e, end(ts, true))
}

/// An expression, in a box, that may be missing before this sign, and the sign.
fn maybe_up_to(
    alloc: Global,
    ts: &mut Cursor<'_>,
    close: Mark,
) -> Result<Option<Box<Phrase>>, SyntaxRefusal>
    ensures { Gives option_of (reads.maybe_up_to close (input ts.old)) result (input ts.new) }
{
    let none_here = ts.sees(close);
    let e = maybe(alloc, ts, none_here)?;
    keep_if(e, ts.expect(close, true))
}

#[tactic(auto, unfolding(pawk_syntax_tree::specs::StatementParse::walks))]
fn walks(alloc: Global, ts: &mut Cursor<'_>) -> Result<(Name, Name), SyntaxRefusal>
    ensures { Gives names_of (spec.walks (input ts.old)) result (input ts.new) }
{
    let key = expect_name(alloc, ts, true)?;
    let key = keep_if(key, ts.expect(Mark::In, true))?;
    let names = both(Ok(key), expect_name(alloc, ts, true))?;
    keep_if(names, ts.expect(Mark::RightParenthesis, true))
}

/// The reading of statements, with a reader of those that are nested.
#[derive(Clone, Copy)]
pub struct Statements<F> {
    pub alloc: Global,
    /// How deep statements may still nest.
    pub depth: usize,
    pub statement: F,
}

impl<F: Fn(Global, &mut Cursor<'_>, usize) -> Result<Body, SyntaxRefusal>> Statements<F> {
    fn nested(&self, ts: &mut Cursor<'_>) -> Result<Body, SyntaxRefusal>
        requires { Nests self.now.depth (F.pre self.now.statement) (F.post self.now.statement) }
        ensures { Gives body_of (spec.stmt self.now.depth (input ts.old)) result (input ts.new) }
    {
        (self.statement)(self.alloc, ts, self.depth)
    }

    fn block_from(&self, ts: &mut Cursor<'_>) -> Result<Body, SyntaxRefusal>
        requires { Nests self.now.depth (F.pre self.now.statement) (F.post self.now.statement) }
        ensures { Gives body_of (spec.block_from (spec.stmt self.now.depth)
            (length (input ts.old)) [] (input ts.old)) result (input ts.new) }
    {
        let mut all = build::no_statements(self.alloc);
        for _turn in 0..ts.left() {
            if ts.eat(Mark::RightBrace) {
                return Ok(build::complete(all));
            }
            let more = self.nested(ts)?;
            all = build::append(all, more)?;
        }
        Err(ts.refuse(true))
    }

    /// The statements of a block, after its `{`.
    #[tactic(auto, unfolding(pawk_syntax_tree::specs::StatementParse::block))]
    pub fn block(&self, ts: &mut Cursor<'_>) -> Result<Body, SyntaxRefusal>
        requires { Nests self.now.depth (F.pre self.now.statement) (F.post self.now.statement) }
        ensures { Gives body_of (spec.block (spec.stmt self.now.depth) (input ts.old)) result
            (input ts.new) }
    {
        ts.skip_lines();
        self.block_from(ts)
    }

    #[tactic(auto, unfolding(pawk_syntax_tree::specs::StatementParse::branch))]
    fn branch(&self, ts: &mut Cursor<'_>) -> Result<Body, SyntaxRefusal>
        requires { Nests self.now.depth (F.pre self.now.statement) (F.post self.now.statement) }
        ensures { Gives body_of (spec.branch (spec.stmt self.now.depth) (input ts.old)) result
            (input ts.new) }
    {
        let e = head(self.alloc, ts)?;
        let (e, a) = both(Ok(e), self.nested(ts))?;
        if !ts.eat(Mark::Else) {
            return build::low_when(self.alloc, ts, e, a);
        }
        ts.skip_lines();
        let ((e, a), b) = both(Ok((e, a)), self.nested(ts))?;
        build::low_choose(self.alloc, ts, e, a, b)
    }

    #[tactic(auto, unfolding(pawk_syntax_tree::specs::StatementParse::looping))]
    fn looping(&self, ts: &mut Cursor<'_>) -> Result<Body, SyntaxRefusal>
        requires { Nests self.now.depth (F.pre self.now.statement) (F.post self.now.statement) }
        ensures { Gives body_of (spec.looping (spec.stmt self.now.depth) (input ts.old)) result
            (input ts.new) }
    {
        let e = head(self.alloc, ts)?;
        let (e, a) = both(Ok(e), self.nested(ts))?;
        build::low_repeat(self.alloc, ts, e, a)
    }

    #[tactic(auto, unfolding(pawk_syntax_tree::specs::StatementParse::doing))]
    fn doing(&self, ts: &mut Cursor<'_>) -> Result<Body, SyntaxRefusal>
        requires { Nests self.now.depth (F.pre self.now.statement) (F.post self.now.statement) }
        ensures { Gives body_of (spec.doing (spec.stmt self.now.depth) (input ts.old)) result
            (input ts.new) }
    {
        ts.skip_lines();
        let a = self.nested(ts)?;
        let (a, e) = both(Ok(a), foot(self.alloc, ts))?;
        build::low_do(self.alloc, ts, a, e)
    }

    #[tactic(auto, unfolding(pawk_syntax_tree::specs::StatementParse::walking))]
    fn walking(&self, ts: &mut Cursor<'_>, names: (Name, Name)) -> Result<Body, SyntaxRefusal>
        requires { Nests self.now.depth (F.pre self.now.statement) (F.post self.now.statement) }
        ensures { Gives body_of (spec.walking (spec.stmt self.now.depth) (names_of names)
            (input ts.old)) result (input ts.new) }
    {
        ts.skip_lines();
        let (names, body) = both(Ok(names), self.nested(ts))?;
        build::low_walk(self.alloc, ts, names, body)
    }

    #[tactic(auto, unfolding(pawk_syntax_tree::specs::StatementParse::counting))]
    fn counting(&self, ts: &mut Cursor<'_>) -> Result<Body, SyntaxRefusal>
        requires { Nests self.now.depth (F.pre self.now.statement) (F.post self.now.statement) }
        ensures { Gives body_of (spec.counting (spec.stmt self.now.depth) (input ts.old)) result
            (input ts.new) }
    {
        let a = maybe_up_to(self.alloc, ts, Mark::Semicolon)?;
        let (a, b) = both(Ok(a), maybe_up_to(self.alloc, ts, Mark::Semicolon))?;
        let ((a, b), c) = both(
            Ok((a, b)),
            maybe_up_to(self.alloc, ts, Mark::RightParenthesis),
        )?;
        ts.skip_lines();
        let (head, body) = both(Ok((a, b, c)), self.nested(ts))?;
        build::low_count(self.alloc, ts, head, body)
    }

    #[tactic(auto, unfolding(pawk_syntax_tree::specs::StatementParse::for_on))]
    fn for_on(&self, ts: &mut Cursor<'_>) -> Result<Body, SyntaxRefusal>
        requires { Nests self.now.depth (F.pre self.now.statement) (F.post self.now.statement) }
        ensures { Gives body_of (spec.for_on (spec.stmt self.now.depth) (input ts.old)) result
            (input ts.new) }
    {
        ts.expect(Mark::LeftParenthesis, true)?;
        let mut ahead = *ts;
        match walks(self.alloc, &mut ahead) {
            Ok(names) => {
                *ts = ahead;
                self.walking(ts, names)
            }
            Err(SyntaxRefusal::Memory) => Err(SyntaxRefusal::Memory),
            Err(SyntaxRefusal::At { .. }) => self.counting(ts),
        }
    }

    #[tactic(auto, unfolding(pawk_syntax_tree::specs::StatementParse::other))]
    fn other(&self, ts: &mut Cursor<'_>, compares: bool) -> Result<Body, SyntaxRefusal>
        ensures { Gives body_of (spec.other (spec.stmt self.now.depth) (input ts.old)) result
            (input ts.new) }
    {
        let line = simple(self.alloc, ts)?;
        let line = keep_if(line, end(ts, compares))?;
        build::low(self.alloc, ts, Box::into_inner(line.statement), line.height)
    }

    fn by_mark(&self, ts: &mut Cursor<'_>, sign: Mark) -> Result<Body, SyntaxRefusal>
        requires { Nests self.now.depth (F.pre self.now.statement) (F.post self.now.statement) }
        ensures { Gives body_of (spec.by_mark (spec.stmt self.now.depth) sign (input ts.old))
            result (input ts.new) }
    {
        match sign {
            Mark::Semicolon => {
                ts.pass();
                ts.skip_lines();
                Ok(build::no_statements(self.alloc))
            }
            Mark::LeftBrace => {
                ts.pass();
                let all = self.block(ts)?;
                ts.skip_lines();
                Ok(all)
            }
            Mark::If => {
                ts.pass();
                self.branch(ts)
            }
            Mark::While => {
                ts.pass();
                self.looping(ts)
            }
            Mark::Do => {
                ts.pass();
                self.doing(ts)
            }
            Mark::For => {
                ts.pass();
                self.for_on(ts)
            }
            Mark::Print | Mark::Printf => self.other(ts, false),
            _ => self.other(ts, true),
        }
    }

    #[tactic(auto, unfolding(pawk_syntax_tree::specs::StatementParse::one))]
    fn one(&self, ts: &mut Cursor<'_>) -> Result<Body, SyntaxRefusal>
        requires { Nests self.now.depth (F.pre self.now.statement) (F.post self.now.statement) }
        ensures { Gives body_of (spec.one (spec.stmt self.now.depth) (input ts.old)) result
            (input ts.new) }
    {
        match ts.rest {
            [] => Err(ts.refuse(true)),
            [next, ..] => match &next.value {
                TokenValue::Mark(sign) => self.by_mark(ts, *sign),
                _ => self.other(ts, true),
            },
        }
    }
}

/// A statement, with those inside nested no deeper than `depth`.
pub fn statement(alloc: Global, ts: &mut Cursor<'_>, depth: usize) -> Result<Body, SyntaxRefusal>
    ensures { Gives body_of (spec.stmt depth (input ts.old)) result (input ts.new) }
{
    if depth == 0 {
        return Err(ts.too_deep());
    }
    Statements {
        alloc,
        depth: depth - 1,
        statement,
    }
    .one(ts)
}

/// The statements of a block, after its `{`, with those inside nested no deeper than `depth`.
pub fn block(alloc: Global, ts: &mut Cursor<'_>, depth: usize) -> Result<Body, SyntaxRefusal>
    ensures { Gives body_of (spec.block (spec.stmt depth) (input ts.old)) result (input ts.new) }
{
    Statements {
        alloc,
        depth,
        statement,
    }
    .block(ts)
}
