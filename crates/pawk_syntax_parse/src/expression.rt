//! Expressions, by levels. Each function takes the reader of nested phrases as a parameter, so that
//! each is proved by itself.

ghost use Rattle.std.specs.Prelude.{◌≡◌, ◌+◌, ◌≤◌, ◌<◌, ◌∷◌, [], length, IfOk, Option, Some, None, true, false};
ghost use Rattle.pawk_syntax_tree.specs.Levels as levels;
ghost use Rattle.pawk_syntax_tree.specs.Parse as spec;
ghost use Rattle.pawk_syntax_tree.specs.Tree as tree;
ghost use Rattle.pawk_syntax_tree.specs.declared.levels.Turn.TheVariants as turn;
ghost use Rattle.pawk_lex.specs.declared.token.Mark.TheVariants as mark;
ghost use Rattle.pawk_lex.specs.Tokens.{tok};
ghost use Rattle.pawk_syntax_parse.specs.Reads.{input, Gives, GivesFrom, nothing, tree_of, trees_of, operand_of};
ghost use Rattle.pawk_syntax_parse.specs.Nests.{Nests};
ghost use Rattle.pawk_syntax_parse.specs.Reads as reads;

use crate::build;
use crate::cursor::Cursor;
use crate::lookahead::{expect_name, row_at, tightest_next};
use crate::phrase::{Phrase, Phrases};
use pawk_lex::refusal::SyntaxRefusal;
use pawk_lex::token::{Builtin, Mark, Token, TokenValue};
use pawk_syntax_tree::levels::{
    OF_EXPR, OF_INCREMENT, OF_LVALUE, OF_MEMBER, OF_PREFIXED, OF_PRIMARY, OF_VALUE, Row, Turn,
};
use pawk_syntax_tree::tree::{Double, Name, Single};
use std::alloc::Global;

/// How deep phrases may nest.
pub const GREATEST_DEPTH: usize = 1000;

/// The reading of phrases, with a reader of those that are nested.
#[derive(Clone, Copy)]
pub struct Grammar<F> {
    pub alloc: Global,
    /// How deep phrases may still nest.
    pub depth: usize,
    pub expr: F,
}

impl<F: Fn(Global, &mut Cursor<'_>, usize, bool, u8) -> Result<Phrase, SyntaxRefusal>> Grammar<F> {
    fn expr(&self, ts: &mut Cursor<'_>, compares: bool, least: u8) -> Result<Phrase, SyntaxRefusal>
        requires { Nests self.now.depth (F.pre self.now.expr) (F.post self.now.expr) }
        ensures { Gives tree_of (spec.expr self.now.depth compares least (input ts.old)) result
            (input ts.new) }
    {
        (self.expr)(self.alloc, ts, self.depth, compares, least)
    }

    /// One or more expressions with commas between, after those of `front`; they are arguments of
    /// this built-in function, or of none.
    #[tactic(auto, unfolding(pawk_syntax_tree::specs::Parse::list_from))]
    pub fn list(
        &self,
        ts: &mut Cursor<'_>,
        compares: bool,
        function: Option<Builtin>,
        front: Phrases,
    ) -> Result<Phrases, SyntaxRefusal>
        requires { Nests self.now.depth (F.pre self.now.expr) (F.post self.now.expr) }
        ensures { Gives trees_of (spec.list_from
            (spec.expr self.now.depth) compares function (length (input ts.old)) (trees_of front)
            (input ts.old)) result (input ts.new) }
    {
        let mut all = front;
        for _turn in 0..ts.left() {
            let phrase = self.expr(ts, compares, OF_EXPR)?;
            let argument = build::argument(self.alloc, function, build::count(&all), phrase)?;
            all = build::push(all, argument)?;
            if !ts.eat(Mark::Comma) {
                return Ok(all);
            }
            ts.skip_lines();
        }
        Err(ts.refuse(compares))
    }

    /// A list, and the closing bracket.
    #[tactic(auto, unfolding(pawk_syntax_tree::specs::Parse::list_up_to))]
    fn list_up_to(
        &self,
        ts: &mut Cursor<'_>,
        close: Mark,
        function: Option<Builtin>,
    ) -> Result<Phrases, SyntaxRefusal>
        requires { Nests self.now.depth (F.pre self.now.expr) (F.post self.now.expr) }
        ensures { Gives trees_of (spec.list_up_to (spec.expr self.now.depth) close function
            (input ts.old)) result (input ts.new) }
    {
        let all = self.list(ts, true, function, build::no_phrases(self.alloc))?;
        ts.expect(close, true)?;
        Ok(all)
    }

    /// A list, or nothing, in round brackets.
    #[tactic(auto, unfolding(pawk_syntax_tree::specs::Parse::arguments))]
    fn arguments(
        &self,
        ts: &mut Cursor<'_>,
        function: Option<Builtin>,
    ) -> Result<Phrases, SyntaxRefusal>
        requires { Nests self.now.depth (F.pre self.now.expr) (F.post self.now.expr) }
        ensures { Gives trees_of (spec.arguments (spec.expr self.now.depth) function
            (input ts.old)) result (input ts.new) }
    {
        ts.expect(Mark::LeftParenthesis, true)?;
        if ts.eat(Mark::RightParenthesis) {
            return Ok(build::no_phrases(self.alloc));
        }
        self.list_up_to(ts, Mark::RightParenthesis, function)
    }

    #[tactic(auto, unfolding(pawk_syntax_tree::specs::Parse::called))]
    fn called(&self, ts: &mut Cursor<'_>, name: Name) -> Result<(Phrase, u8), SyntaxRefusal>
        requires { Nests self.now.depth (F.pre self.now.expr) (F.post self.now.expr) }
        ensures { Gives operand_of (spec.called (spec.expr self.now.depth) name.text.items
            (input ts.old)) result (input ts.new) }
    {
        let arguments = self.arguments(ts, None)?;
        Ok((build::call(ts, name, arguments)?, OF_VALUE))
    }

    fn bare(
        &self,
        ts: &Cursor<'_>,
        compares: bool,
        function: Builtin,
        start: usize,
    ) -> Result<(Phrase, u8), SyntaxRefusal>
        ensures { Gives operand_of (spec.bare function (input ts.now)) result (input ts.now) }
    {
        match function {
            Builtin::Length => Ok((build::length(self.alloc, start)?, OF_VALUE)),
            _ => Err(ts.refuse(compares)),
        }
    }

    #[tactic(auto, unfolding(pawk_syntax_tree::specs::Parse::built_in))]
    fn built_in(
        &self,
        ts: &mut Cursor<'_>,
        compares: bool,
        function: Builtin,
        start: usize,
    ) -> Result<(Phrase, u8), SyntaxRefusal>
        requires { Nests self.now.depth (F.pre self.now.expr) (F.post self.now.expr) }
        ensures { Gives operand_of (spec.built_in (spec.expr self.now.depth) function
            (input ts.old)) result (input ts.new) }
    {
        if !ts.sees(Mark::LeftParenthesis) {
            return self.bare(ts, compares, function, start);
        }
        let arguments = self.arguments(ts, Some(function))?;
        let arguments = build::complete(self.alloc, function, arguments)?;
        Ok((build::builtin(ts, function, start, arguments)?, OF_VALUE))
    }

    #[tactic(auto, unfolding(pawk_syntax_tree::specs::Parse::named))]
    fn named(&self, ts: &mut Cursor<'_>, name: Name) -> Result<(Phrase, u8), SyntaxRefusal>
        requires { Nests self.now.depth (F.pre self.now.expr) (F.post self.now.expr) }
        ensures { Gives operand_of (spec.named (spec.expr self.now.depth) name.text.items
            (input ts.old)) result (input ts.new) }
    {
        if !ts.eat(Mark::LeftBracket) {
            return Ok((build::variable(name), OF_LVALUE));
        }
        let keys = self.list_up_to(ts, Mark::RightBracket, None)?;
        Ok((build::element(ts, name, keys)?, OF_LVALUE))
    }

    /// After a list in round brackets: one expression is grouped, several are the keys of `in`.
    fn group_of(
        &self,
        ts: &mut Cursor<'_>,
        compares: bool,
        inner: Phrases,
    ) -> Result<(Phrase, u8), SyntaxRefusal>
        ensures { Gives operand_of (spec.group_of (spec.expr self.now.depth) (trees_of inner)
            (input ts.old)) result (input ts.new) }
    {
        match inner.list.as_slice() {
            [] => Err(ts.refuse(true)),
            [_] => Ok((build::only(inner), OF_VALUE)),
            [_, _, ..] => {
                ts.expect(Mark::In, compares)?;
                let name = expect_name(self.alloc, ts, compares)?;
                Ok((build::member(ts, inner, name)?, OF_MEMBER))
            }
        }
    }

    /// After a bracket where no list of several is allowed: one expression. A comma is refused there.
    #[tactic(auto, using(crate::proofs::Starts::no_group, crate::proofs::Starts::closed, crate::proofs::Starts::unclosed))]
    fn only_group(&self, ts: &mut Cursor<'_>, least: u8) -> Result<(Phrase, u8), SyntaxRefusal>
        requires nests { Nests self.now.depth (F.pre self.now.expr) (F.post self.now.expr) }
        requires tight { 3 < least }
        ensures { GivesFrom least (spec.group (spec.expr self.now.depth) (input ts.old)) result
            (input ts.new) }
    {
        let inner = self.expr(ts, true, OF_EXPR)?;
        let inner = build::keep_if(inner, ts.expect(Mark::RightParenthesis, true))?;
        Ok((build::value(self.alloc, inner)?, OF_VALUE))
    }

    #[tactic(auto, unfolding(pawk_syntax_tree::specs::Parse::group))]
    fn any_group(&self, ts: &mut Cursor<'_>, compares: bool) -> Result<(Phrase, u8), SyntaxRefusal>
        requires { Nests self.now.depth (F.pre self.now.expr) (F.post self.now.expr) }
        ensures { Gives operand_of (spec.group (spec.expr self.now.depth) (input ts.old)) result
            (input ts.new) }
    {
        let inner = self.list_up_to(ts, Mark::RightParenthesis, None)?;
        self.group_of(ts, compares, inner)
    }

    /// After a bracket, for an operand of the level `least`.
    fn group(
        &self,
        ts: &mut Cursor<'_>,
        compares: bool,
        least: u8,
    ) -> Result<(Phrase, u8), SyntaxRefusal>
        requires { Nests self.now.depth (F.pre self.now.expr) (F.post self.now.expr) }
        ensures { GivesFrom least (spec.group (spec.expr self.now.depth) (input ts.old)) result
            (input ts.new) }
    {
        if OF_MEMBER < least {
            self.only_group(ts, least)
        } else {
            self.any_group(ts, compares)
        }
    }

    #[tactic(auto, unfolding(pawk_syntax_tree::specs::Parse::signed))]
    fn signed(
        &self,
        ts: &mut Cursor<'_>,
        compares: bool,
        op: Single,
    ) -> Result<(Phrase, u8), SyntaxRefusal>
        requires { Nests self.now.depth (F.pre self.now.expr) (F.post self.now.expr) }
        ensures { Gives operand_of (spec.signed (spec.expr self.now.depth) compares op
            (input ts.old)) result (input ts.new) }
    {
        let a = self.expr(ts, compares, OF_PREFIXED)?;
        let a = build::value(self.alloc, a)?;
        Ok((build::unary(self.alloc, ts, op, a)?, OF_PREFIXED))
    }

    #[tactic(auto, unfolding(pawk_syntax_tree::specs::Parse::step_before))]
    fn step_before(
        &self,
        ts: &mut Cursor<'_>,
        compares: bool,
        op: Single,
    ) -> Result<(Phrase, u8), SyntaxRefusal>
        requires { Nests self.now.depth (F.pre self.now.expr) (F.post self.now.expr) }
        ensures { Gives operand_of (spec.step_before (spec.expr self.now.depth) compares op
            (input ts.old)) result (input ts.new) }
    {
        let a = self.expr(ts, compares, OF_LVALUE)?;
        Ok((build::unary(self.alloc, ts, op, a)?, OF_INCREMENT))
    }

    #[tactic(auto, unfolding(pawk_syntax_tree::specs::Parse::field_step))]
    fn field_step(
        &self,
        ts: &mut Cursor<'_>,
        compares: bool,
        op: Single,
    ) -> Result<(Phrase, u8), SyntaxRefusal>
        requires { Nests self.now.depth (F.pre self.now.expr) (F.post self.now.expr) }
        ensures { Gives operand_of (spec.field_step (spec.expr self.now.depth) compares op
            (input ts.old)) result (input ts.new) }
    {
        let a = self.expr(ts, compares, OF_LVALUE)?;
        let step = build::unary(self.alloc, ts, op, a)?;
        let field = build::unary(self.alloc, ts, Single::Field, step)?;
        Ok((field, OF_LVALUE))
    }

    #[tactic(auto, unfolding(pawk_syntax_tree::specs::Parse::field))]
    fn field(&self, ts: &mut Cursor<'_>, compares: bool) -> Result<(Phrase, u8), SyntaxRefusal>
        requires { Nests self.now.depth (F.pre self.now.expr) (F.post self.now.expr) }
        ensures { Gives operand_of (spec.field (spec.expr self.now.depth) compares (input ts.old))
            result (input ts.new) }
    {
        if ts.eat(Mark::PlusPlus) {
            return self.field_step(ts, compares, Single::IncrementBefore);
        }
        if ts.eat(Mark::MinusMinus) {
            return self.field_step(ts, compares, Single::DecrementBefore);
        }
        let a = self.expr(ts, compares, OF_PRIMARY)?;
        let a = build::value(self.alloc, a)?;
        Ok((build::unary(self.alloc, ts, Single::Field, a)?, OF_LVALUE))
    }

    fn operand_by_mark(
        &self,
        ts: &mut Cursor<'_>,
        compares: bool,
        least: u8,
        sign: Mark,
        refusal: SyntaxRefusal,
    ) -> Result<(Phrase, u8), SyntaxRefusal>
        requires { Nests self.now.depth (F.pre self.now.expr) (F.post self.now.expr) }
        ensures { GivesFrom least (spec.operand_by_mark (spec.expr self.now.depth) compares sign
            (input ts.old)) result (input ts.new) }
    {
        match sign {
            Mark::LeftParenthesis => self.group(ts, compares, least),
            Mark::Not => self.signed(ts, compares, Single::Not),
            Mark::Plus => self.signed(ts, compares, Single::Plus),
            Mark::Minus => self.signed(ts, compares, Single::Minus),
            Mark::PlusPlus => self.step_before(ts, compares, Single::IncrementBefore),
            Mark::MinusMinus => self.step_before(ts, compares, Single::DecrementBefore),
            Mark::Dollar => self.field(ts, compares),
            _ => Err(refusal),
        }
    }

    /// An operand of the level `least` or a tighter one, after the token that it begins with.
    #[tactic(auto, unfolding(pawk_syntax_tree::specs::Parse::operand))]
    fn operand_by(
        &self,
        ts: &mut Cursor<'_>,
        compares: bool,
        least: u8,
        first: &Token,
        refusal: SyntaxRefusal,
    ) -> Result<(Phrase, u8), SyntaxRefusal>
        requires { Nests self.now.depth (F.pre self.now.expr) (F.post self.now.expr) }
        ensures { GivesFrom least (spec.operand (spec.expr self.now.depth) compares
            (tok first.now.value ∷ input ts.old)) result (input ts.new) }
    {
        let start = first.span.start;
        match &first.value {
            TokenValue::Number(number) => Ok((build::number(*number), OF_VALUE)),
            TokenValue::String(bytes) => Ok((build::string(self.alloc, bytes)?, OF_VALUE)),
            TokenValue::Ere(bytes) => Ok((build::ere(self.alloc, bytes)?, OF_VALUE)),
            TokenValue::Name(text) => {
                let name = build::name(self.alloc, text, start)?;
                self.named(ts, name)
            }
            TokenValue::FunctionName(text) => {
                let name = build::name(self.alloc, text, start)?;
                self.called(ts, name)
            }
            TokenValue::Builtin(function) => self.built_in(ts, compares, *function, start),
            TokenValue::Mark(sign) => self.operand_by_mark(ts, compares, least, *sign, refusal),
        }
    }

    /// An operand of the level `least` or a tighter one. A token that begins none is refused.
    #[tactic(auto, unfolding(pawk_syntax_tree::specs::Parse::operand), using(crate::proofs::Starts::too_loose))]
    fn operand(
        &self,
        ts: &mut Cursor<'_>,
        compares: bool,
        least: u8,
    ) -> Result<(Phrase, u8), SyntaxRefusal>
        requires { Nests self.now.depth (F.pre self.now.expr) (F.post self.now.expr) }
        ensures { GivesFrom least (spec.operand (spec.expr self.now.depth) compares
            (input ts.old)) result (input ts.new) }
    {
        let refusal = ts.refuse(compares);
        if tightest_next(ts) < least {
            return Err(refusal);
        }
        match ts.rest {
            [] => Err(refusal),
            [next, ..] => {
                ts.pass();
                self.operand_by(ts, compares, least, next, refusal)
            }
        }
    }

    /// An operator between an operand, in a box, and one of the level `least` that comes next.
    fn infix(
        &self,
        ts: &mut Cursor<'_>,
        compares: bool,
        op: Double,
        least: u8,
        left: Box<Phrase>,
    ) -> Result<Phrase, SyntaxRefusal>
        requires { Nests self.now.depth (F.pre self.now.expr) (F.post self.now.expr) }
        ensures { Gives tree_of (spec.and_then
            (spec.expr self.now.depth compares least (input ts.old)) (λ a. spec.low (tree.binary op
            (tree.value (tree_of left.value)) (tree.right_side op a)))) result (input ts.new) }
    {
        let right = self.expr(ts, compares, least)?;
        build::infix(self.alloc, ts, op, Box::into_inner(left), right)
    }

    /// The operator `in`, which comes next, after an operand, in a box.
    fn membership(
        &self,
        ts: &mut Cursor<'_>,
        compares: bool,
        left: Box<Phrase>,
    ) -> Result<Phrase, SyntaxRefusal>
        ensures { Gives tree_of (spec.turn_by (spec.expr self.now.depth) compares
            (tree_of left.value) 0 turn.Membership (input ts.old)) result (input ts.new) }
    {
        ts.pass();
        let name = expect_name(self.alloc, ts, compares)?;
        build::membership(self.alloc, ts, Box::into_inner(left), name)
    }

    /// The colon of a choice, and the expression after it.
    fn otherwise(&self, ts: &mut Cursor<'_>, compares: bool) -> Result<Phrase, SyntaxRefusal>
        requires { Nests self.now.depth (F.pre self.now.expr) (F.post self.now.expr) }
        ensures { Gives tree_of (spec.and_then (spec.expect mark.Colon (input ts.old))
            (λ seen. spec.expr self.now.depth compares 0)) result (input ts.new) }
    {
        ts.expect(Mark::Colon, compares)?;
        self.expr(ts, compares, OF_EXPR)
    }

    /// A choice by an operand, in a box, whose `?` comes next.
    fn choosing(
        &self,
        ts: &mut Cursor<'_>,
        compares: bool,
        left: Box<Phrase>,
    ) -> Result<Phrase, SyntaxRefusal>
        requires { Nests self.now.depth (F.pre self.now.expr) (F.post self.now.expr) }
        ensures { Gives tree_of (spec.turn_by (spec.expr self.now.depth) compares
            (tree_of left.value) 0 turn.Choosing (input ts.old)) result (input ts.new) }
    {
        ts.pass();
        let yes = self.expr(ts, compares, OF_EXPR)?;
        let (yes, no) = build::both(Ok(yes), self.otherwise(ts, compares))?;
        build::choosing(self.alloc, ts, Box::into_inner(left), yes, no)
    }

    /// What the operator of a row does with an operand, in a box, on its left.
    #[tactic(auto, unfolding(pawk_syntax_tree::specs::Parse::turn))]
    fn turn_boxed(
        &self,
        ts: &mut Cursor<'_>,
        compares: bool,
        row: Row,
        left: Box<Phrase>,
    ) -> Result<Phrase, SyntaxRefusal>
        requires { Nests self.now.depth (F.pre self.now.expr) (F.post self.now.expr) }
        ensures { Gives tree_of (spec.turn (spec.expr self.now.depth) compares row
            (tree_of left.value) (input ts.old)) result (input ts.new) }
    {
        match row.turn {
            Turn::Infix(op) => {
                ts.pass();
                ts.after_op(op);
                self.infix(ts, compares, op, row.right, left)
            }
            Turn::Beside => self.infix(ts, compares, Double::Concatenate, row.right, left),
            Turn::Membership => self.membership(ts, compares, left),
            Turn::Choosing => self.choosing(ts, compares, left),
            Turn::Postfix(op) => {
                ts.pass();
                build::unary(self.alloc, ts, op, Box::into_inner(left))
            }
        }
    }

    /// What the operator of a row does with an operand on its left.
    fn turn(
        &self,
        ts: &mut Cursor<'_>,
        compares: bool,
        row: Row,
        left: Phrase,
    ) -> Result<Phrase, SyntaxRefusal>
        requires { Nests self.now.depth (F.pre self.now.expr) (F.post self.now.expr) }
        ensures { Gives tree_of (spec.turn (spec.expr self.now.depth) compares row (tree_of left)
            (input ts.old)) result (input ts.new) }
    {
        let left = Box::new(self.alloc, left)?;
        self.turn_boxed(ts, compares, row, left)
    }

    /// Operators of the level `least` or tighter, after an operand with its level.
    pub fn climb(
        &self,
        ts: &mut Cursor<'_>,
        compares: bool,
        least: u8,
        first: (Phrase, u8),
    ) -> Result<Phrase, SyntaxRefusal>
        requires { Nests self.now.depth (F.pre self.now.expr) (F.post self.now.expr) }
        ensures { Gives tree_of (spec.climb (spec.expr self.now.depth) compares
            (length (input ts.old) + 1) least first.1 (tree_of first.0) (input ts.old)) result
            (input ts.new) }
    {
        let (mut left, mut top) = first;
        for _turn in 0..ts.left() + 1 {
            let Some(row) = row_at(ts, compares, top) else {
                return Ok(left);
            };
            if row.level < least || top < row.left {
                return Ok(left);
            }
            left = self.turn(ts, compares, row, left)?;
            top = row.level;
        }
        drop(left);
        Err(ts.refuse(compares))
    }

    #[tactic(auto, unfolding(pawk_syntax_tree::specs::Parse::phrase), using(crate::proofs::Starts::no_phrase_of))]
    fn phrase(
        &self,
        ts: &mut Cursor<'_>,
        compares: bool,
        least: u8,
    ) -> Result<Phrase, SyntaxRefusal>
        requires { Nests self.now.depth (F.pre self.now.expr) (F.post self.now.expr) }
        ensures { Gives tree_of (spec.phrase (spec.expr self.now.depth) compares least
            (input ts.old)) result (input ts.new) }
    {
        let refusal = ts.refuse(compares);
        let first = self.operand(ts, compares, least)?;
        if least <= first.1 {
            self.climb(ts, compares, least, first)
        } else {
            drop(first);
            Err(refusal)
        }
    }
}

/// A phrase of the level `least`, with phrases nested no deeper than `depth`.
pub fn expr(
    alloc: Global,
    ts: &mut Cursor<'_>,
    depth: usize,
    compares: bool,
    least: u8,
) -> Result<Phrase, SyntaxRefusal>
    ensures { Gives tree_of (spec.expr depth compares least (input ts.old)) result (input ts.new) }
{
    if depth == 0 {
        return Err(ts.too_deep());
    }
    Grammar {
        alloc,
        depth: depth - 1,
        expr,
    }
    .phrase(ts, compares, least)
}

/// One or more expressions with commas between, after those of `front`.
pub fn list(
    alloc: Global,
    ts: &mut Cursor<'_>,
    compares: bool,
    front: Phrases,
) -> Result<Phrases, SyntaxRefusal>
    ensures { Gives trees_of (spec.list_from (spec.expr spec.greatest_depth) compares None
        (length (input ts.old)) (trees_of front) (input ts.old)) result (input ts.new) }
{
    Grammar {
        alloc,
        depth: GREATEST_DEPTH,
        expr,
    }
    .list(ts, compares, None, front)
}

/// A list of expressions, and the closing bracket.
pub fn list_up_to(alloc: Global, ts: &mut Cursor<'_>, close: Mark) -> Result<Phrases, SyntaxRefusal>
    ensures { Gives trees_of (spec.list_up_to (spec.expr spec.greatest_depth) close None
        (input ts.old)) result (input ts.new) }
{
    Grammar {
        alloc,
        depth: GREATEST_DEPTH,
        expr,
    }
    .list_up_to(ts, close, None)
}

/// An expression that begins with an operand of this level, where `>` is no comparison.
pub fn after_operand(
    alloc: Global,
    ts: &mut Cursor<'_>,
    first: Phrase,
    level: u8,
) -> Result<Phrase, SyntaxRefusal>
    ensures { Gives tree_of (spec.climb (spec.expr spec.greatest_depth) false
        (length (input ts.old) + 1) 0 level (tree_of first) (input ts.old)) result (input ts.new) }
{
    Grammar {
        alloc,
        depth: GREATEST_DEPTH,
        expr,
    }
    .climb(ts, false, OF_EXPR, (first, level))
}
