//! The making of trees, one function for each variant.

ghost use Rattle.std.specs.Prelude.{◌≡◌, ◌≤◌, ◌∷◌, ◌++◌, [], length, IfOk, OnOk, IfErr, Ok, Err, Option, map};
ghost use Rattle.pawk_syntax_tree.specs.Tree as tree;
ghost use Rattle.pawk_syntax_tree.specs.Tree.{view, views, trees};
ghost use Rattle.pawk_syntax_tree.specs.Parse as spec;
ghost use Rattle.pawk_syntax_parse.specs.Heights as heights;
ghost use Rattle.pawk_lex.specs.declared.token.Builtin.TheVariants.{Length};
ghost use Rattle.pawk_syntax_parse.specs.Reads.{input, Gives, tree_of, trees_of};

use crate::cursor::Cursor;
use crate::phrase::{Phrase, Phrases};
use pawk_lex::refusal::SyntaxRefusal;
use pawk_lex::token::Builtin;
use pawk_syntax_tree::tree::{Double, ExpressionTree, Name, Single};
use std::alloc::{AllocError, Global};

/// Both values, or the first refusal.
pub fn both<A: Drop, B: Drop, E: Drop>(a: Result<A, E>, b: Result<B, E>) -> Result<(A, B), E>
    ensures first { IfOk result (λ values. a ≡ Ok values.0) }
    ensures second { IfOk result (λ values. b ≡ Ok values.1) }
    ensures first_err { IfErr result (λ refusal. IfErr a (λ first. first ≡ refusal)) }
    ensures second_err { IfErr result (λ refusal. IfOk a (λ value. b ≡ Err refusal)) }
{
    Ok((a?, b?))
}

/// A value, unless this refuses it.
pub fn keep_if<A: Drop>(value: A, test: Result<(), SyntaxRefusal>) -> Result<A, SyntaxRefusal>
    ensures same { IfOk result (λ kept. kept ≡ value) }
    ensures ok { OnOk result (test ≡ Ok tt) }
    ensures err { IfErr result (λ refusal. test ≡ Err refusal) }
{
    test?;
    Ok(value)
}

/// The phrase of a numeral with this value.
pub fn number(number: u64) -> Phrase
    ensures { tree_of result ≡ tree.number number }
{
    Phrase {
        expr: ExpressionTree::Number(number),
        height: 1,
    }
}

/// The phrase of a string with these bytes.
pub fn string(alloc: Global, bytes: &Vec<u8>) -> Result<Phrase, AllocError>
    ensures { IfOk result (λ p. tree_of p ≡ tree.string bytes.now.items) }
{
    Ok(Phrase {
        expr: ExpressionTree::String(Vec::from_slice(alloc, bytes.as_slice())?),
        height: 1,
    })
}

/// The phrase of an expression between slashes with these bytes.
pub fn ere(alloc: Global, bytes: &Vec<u8>) -> Result<Phrase, AllocError>
    ensures { IfOk result (λ p. tree_of p ≡ tree.ere bytes.now.items) }
{
    Ok(Phrase {
        expr: ExpressionTree::Ere(Vec::from_slice(alloc, bytes.as_slice())?),
        height: 1,
    })
}

/// A name that begins at this byte.
pub fn name(alloc: Global, text: &Vec<u8>, start: usize) -> Result<Name, AllocError>
    ensures { IfOk result (λ x. x.text.items ≡ text.now.items) }
{
    Ok(Name {
        text: Vec::from_slice(alloc, text.as_slice())?,
        start,
    })
}

/// The phrase of a variable with this name.
pub fn variable(name: Name) -> Phrase
    ensures { tree_of result ≡ tree.variable name.text.items }
{
    Phrase {
        expr: ExpressionTree::Variable(name),
        height: 1,
    }
}

/// The phrase `$0`, which is the whole record.
pub fn record(alloc: Global) -> Result<Phrase, AllocError>
    ensures { IfOk result (λ p. tree_of p ≡ tree.record_tree) }
{
    let zero = Box::new(alloc, ExpressionTree::Number(0))?;
    Ok(Phrase {
        expr: ExpressionTree::Unary(Single::Field, zero),
        height: 2,
    })
}

fn is_ere(expr: &ExpressionTree) -> bool
    ensures { result ≡ heights.is_ere (view expr.now) }
{
    match expr {
        ExpressionTree::Ere(_) => true,
        ExpressionTree::Number(_) => false,
        ExpressionTree::String(_) => false,
        ExpressionTree::Variable(_) => false,
        ExpressionTree::Element(_, _) => false,
        ExpressionTree::Unary(_, _) => false,
        ExpressionTree::Binary(_, _, _) => false,
        ExpressionTree::Choice(_, _, _) => false,
        ExpressionTree::Member(_, _) => false,
        ExpressionTree::Call(_, _) => false,
        ExpressionTree::Builtin(_, _, _) => false,
    }
}

/// What an expression is where its value counts: `/e/` is `$0 ~ /e/`.
#[tactic(auto, using(crate::proofs::Building::ere_value, crate::proofs::Building::other_value, crate::proofs::Building::ere_height))]
pub fn value(alloc: Global, phrase: Phrase) -> Result<Phrase, AllocError>
    ensures { IfOk result (λ p. tree_of p ≡ tree.value (tree_of phrase)) }
{
    if !is_ere(&phrase.expr) {
        return Ok(phrase);
    }
    let ere = Box::new(alloc, phrase.expr)?;
    let record = Box::new(alloc, record(alloc)?.expr)?;
    Ok(Phrase {
        expr: ExpressionTree::Binary(Double::Match, record, ere),
        height: 3,
    })
}

fn value_unless(alloc: Global, keeps: bool, phrase: Phrase) -> Result<Phrase, AllocError>
    ensures { IfOk result (λ p. tree_of p ≡ tree.value_unless keeps (tree_of phrase)) }
{
    if keeps {
        Ok(phrase)
    } else {
        value(alloc, phrase)
    }
}

fn takes_ere(op: Double) -> bool
    ensures { result ≡ tree.takes_ere op }
{
    match op {
        Double::Match | Double::NotMatch => true,
        _ => false,
    }
}

fn takes_ere_at(function: Option<Builtin>, place: usize) -> bool
    ensures { result ≡ tree.takes_ere_at function place }
{
    match function {
        Some(Builtin::Sub) | Some(Builtin::Gsub) => place == 0,
        Some(Builtin::Match) => place == 1,
        Some(Builtin::Split) => place == 2,
        _ => false,
    }
}

/// The right side of an operator.
pub fn right_side(alloc: Global, op: Double, phrase: Phrase) -> Result<Phrase, AllocError>
    ensures { IfOk result (λ p. tree_of p ≡ tree.right_side op (tree_of phrase)) }
{
    value_unless(alloc, takes_ere(op), phrase)
}

/// The argument in this place, counted from 0, of a built-in function, or of none.
pub fn argument(
    alloc: Global,
    function: Option<Builtin>,
    place: usize,
    phrase: Phrase,
) -> Result<Phrase, AllocError>
    ensures { IfOk result (λ p. tree_of p ≡ tree.argument function place (tree_of phrase)) }
{
    value_unless(alloc, takes_ere_at(function, place), phrase)
}

/// A tree of this height, if that is not too high.
#[tactic(auto, using(crate::proofs::Building::low_is, crate::proofs::Building::low_none))]
fn low(ts: &Cursor<'_>, expr: ExpressionTree, height: usize) -> Result<Phrase, SyntaxRefusal>
    requires { height ≡ heights.height_of expr }
    ensures { Gives tree_of (spec.low (view expr) (input ts.now)) result (input ts.now) }
{
    let expr = keep_if(expr, ts.low(height))?;
    Ok(Phrase { expr, height })
}

fn unary_expr(alloc: Global, op: Single, a: ExpressionTree) -> Result<ExpressionTree, AllocError>
    ensures { IfOk result (λ e. view e ≡ tree.unary op (view a)) }
{
    Ok(ExpressionTree::Unary(op, Box::new(alloc, a)?))
}

fn binary_expr(
    alloc: Global,
    op: Double,
    a: ExpressionTree,
    b: ExpressionTree,
) -> Result<ExpressionTree, AllocError>
    ensures { IfOk result (λ e. view e ≡ tree.binary op (view a) (view b)) }
{
    let (a, b) = both(Box::new(alloc, a), Box::new(alloc, b))?;
    Ok(ExpressionTree::Binary(op, a, b))
}

fn choice_expr(
    c: Box<ExpressionTree>,
    a: Box<ExpressionTree>,
    b: Box<ExpressionTree>,
) -> ExpressionTree
    ensures { view result ≡ tree.choice (view c.value) (view a.value) (view b.value) }
{
    ExpressionTree::Choice(c, a, b)
}

/// A list that is complete, without the room that is left in it.
pub fn fitted<T>(list: Vec<T>) -> Vec<T>
    ensures { result.items ≡ list.items }
{
    let mut list = list;
    list.shrink_to_fit();
    list
}

fn element_expr(name: Name, keys: Vec<ExpressionTree>) -> ExpressionTree
    ensures { view result ≡ tree.element name.text.items (trees (views keys.items)) }
{
    ExpressionTree::Element(name, fitted(keys))
}

fn member_expr(keys: Vec<ExpressionTree>, name: Name) -> ExpressionTree
    ensures { view result ≡ tree.member (trees (views keys.items)) name.text.items }
{
    ExpressionTree::Member(fitted(keys), name)
}

fn call_expr(name: Name, arguments: Vec<ExpressionTree>) -> ExpressionTree
    ensures { view result ≡ tree.call name.text.items (trees (views arguments.items)) }
{
    ExpressionTree::Call(name, fitted(arguments))
}

fn builtin_expr(function: Builtin, start: usize, arguments: Vec<ExpressionTree>) -> ExpressionTree
    ensures { view result ≡ tree.builtin function (trees (views arguments.items)) }
{
    ExpressionTree::Builtin(function, start, fitted(arguments))
}

/// An operator with one operand.
pub fn unary(alloc: Global, ts: &Cursor<'_>, op: Single, a: Phrase) -> Result<Phrase, SyntaxRefusal>
    ensures { Gives tree_of (spec.low (tree.unary op (tree_of a)) (input ts.now)) result
        (input ts.now) }
{
    let height = a.height + 1;
    let expr = unary_expr(alloc, op, a.expr)?;
    low(ts, expr, height)
}

/// An operator with two operands.
pub fn binary(
    alloc: Global,
    ts: &Cursor<'_>,
    op: Double,
    a: Phrase,
    b: Phrase,
) -> Result<Phrase, SyntaxRefusal>
    ensures { Gives tree_of (spec.low (tree.binary op (tree_of a) (tree_of b)) (input ts.now))
        result (input ts.now) }
{
    let height = a.height.max(b.height) + 1;
    let expr = binary_expr(alloc, op, a.expr, b.expr)?;
    low(ts, expr, height)
}

/// An operator between two phrases.
pub fn infix(
    alloc: Global,
    ts: &Cursor<'_>,
    op: Double,
    left: Phrase,
    right: Phrase,
) -> Result<Phrase, SyntaxRefusal>
    ensures { Gives tree_of (spec.low (tree.binary op (tree.value (tree_of left))
        (tree.right_side op (tree_of right))) (input ts.now)) result (input ts.now) }
{
    let (left, right) = both(value(alloc, left), right_side(alloc, op, right))?;
    binary(alloc, ts, op, left, right)
}

/// What a phrase is where its value counts, in a box, and its height.
fn boxed_value(alloc: Global, phrase: Phrase) -> Result<(Box<ExpressionTree>, usize), AllocError>
    ensures value { IfOk result (λ boxed. view boxed.0.value ≡ tree.value (tree_of phrase)) }
    ensures height { IfOk result (λ boxed. boxed.1 ≡ heights.height_of boxed.0.value) }
    ensures low { IfOk result (λ boxed. boxed.1 ≤ 200) }
{
    let phrase = value(alloc, phrase)?;
    Ok((Box::new(alloc, phrase.expr)?, phrase.height))
}

/// A choice between two phrases by a third: `c ? a : b`
pub fn choosing(
    alloc: Global,
    ts: &Cursor<'_>,
    c: Phrase,
    a: Phrase,
    b: Phrase,
) -> Result<Phrase, SyntaxRefusal>
    ensures { Gives tree_of (spec.low (tree.choice (tree.value (tree_of c))
        (tree.value (tree_of a)) (tree.value (tree_of b))) (input ts.now)) result (input ts.now) }
{
    let a_and_b = both(boxed_value(alloc, a), boxed_value(alloc, b));
    let ((c, of_c), ((a, of_a), (b, of_b))) = both(boxed_value(alloc, c), a_and_b)?;
    let height = of_c.max(of_a.max(of_b)) + 1;
    low(ts, choice_expr(c, a, b), height)
}

/// A list of no expressions.
pub fn no_phrases(alloc: Global) -> Phrases
    ensures { trees_of result ≡ [] }
{
    Phrases {
        list: Vec::new(alloc),
        highest: 0,
    }
}

/// How many expressions there are.
#[tactic(auto, using(crate::proofs::Building::count_is))]
pub fn count(phrases: &Phrases) -> usize
    ensures { result ≡ length (trees_of phrases.now) }
{
    phrases.list.len()
}

/// Adds a value at the end of a list. The first one takes room for itself alone, since most lists have no
/// other.
fn add<T: Drop>(list: &mut Vec<T>, value: T) -> Result<(), AllocError>
    ensures { OnOk result (list.new.items ≡ list.old.items ++ value ∷ []) }
{
    if list.is_empty() {
        list.reserve_exact(1)?;
    }
    list.push(value)?;
    Ok(())
}

/// Adds an expression at the end of a list.
#[tactic(auto, using(crate::proofs::Building::highest_more))]
pub fn push(mut phrases: Phrases, phrase: Phrase) -> Result<Phrases, AllocError>
    ensures { IfOk result (λ ps. trees_of ps ≡ trees_of phrases ++ tree_of phrase ∷ []) }
{
    let highest = phrases.highest.max(phrase.height);
    let mut list = phrases.list;
    add(&mut list, phrase.expr)?;
    Ok(Phrases { list, highest })
}

/// The phrase `a[k, l]` of an array and keys, unless it is too deep.
pub fn element(ts: &Cursor<'_>, name: Name, keys: Phrases) -> Result<Phrase, SyntaxRefusal>
    ensures { Gives tree_of (spec.low (tree.element name.text.items (trees (trees_of keys)))
        (input ts.now)) result (input ts.now) }
{
    let height = keys.highest + 1;
    let expr = element_expr(name, keys.list);
    low(ts, expr, height)
}

/// `k in a` and `(k, l) in a`
pub fn member(ts: &Cursor<'_>, keys: Phrases, name: Name) -> Result<Phrase, SyntaxRefusal>
    ensures { Gives tree_of (spec.low (tree.member (trees (trees_of keys)) name.text.items)
        (input ts.now)) result (input ts.now) }
{
    let height = keys.highest + 1;
    let expr = member_expr(keys.list, name);
    low(ts, expr, height)
}

/// A phrase as the one key of `in`.
pub fn membership(
    alloc: Global,
    ts: &Cursor<'_>,
    key: Phrase,
    name: Name,
) -> Result<Phrase, SyntaxRefusal>
    ensures { Gives tree_of (spec.low (tree.member (tree.more (tree.value (tree_of key)) tree.none)
        name.text.items) (input ts.now)) result (input ts.now) }
{
    let key = value(alloc, key)?;
    let keys = push(no_phrases(alloc), key)?;
    member(ts, keys, name)
}

/// The phrase `f(a, b)` of a function and arguments, unless it is too deep.
pub fn call(ts: &Cursor<'_>, name: Name, arguments: Phrases) -> Result<Phrase, SyntaxRefusal>
    ensures { Gives tree_of (spec.low (tree.call name.text.items (trees (trees_of arguments)))
        (input ts.now)) result (input ts.now) }
{
    let height = arguments.highest + 1;
    let expr = call_expr(name, arguments.list);
    low(ts, expr, height)
}

/// A call of a built-in function that begins at this byte.
pub fn builtin(
    ts: &Cursor<'_>,
    function: Builtin,
    start: usize,
    arguments: Phrases,
) -> Result<Phrase, SyntaxRefusal>
    ensures { Gives tree_of (spec.low (tree.builtin function (trees (trees_of arguments)))
        (input ts.now)) result (input ts.now) }
{
    let height = arguments.highest + 1;
    let expr = builtin_expr(function, start, arguments.list);
    low(ts, expr, height)
}

/// `length` without arguments, which begins at this byte.
pub fn length(alloc: Global, start: usize) -> Result<Phrase, AllocError>
    ensures { IfOk result (λ p. tree_of p ≡ tree.builtin Length
        (tree.more tree.record_tree tree.none)) }
{
    let arguments = push(no_phrases(alloc), record(alloc)?)?;
    let height = 3;
    let expr = builtin_expr(Builtin::Length, start, arguments.list);
    Ok(Phrase { expr, height })
}

/// The one expression of a list.
pub fn only(phrases: Phrases) -> Phrase
    requires { length phrases.list.items ≡ 1 }
    ensures { trees_of phrases ≡ tree_of result ∷ [] }
{
    let height = phrases.highest;
    let mut list = phrases.list;
    let expr = list.remove(0);
    Phrase { expr, height }
}

fn lacks_record(function: Builtin, count: usize) -> bool
    ensures { result ≡ heights.lacks_record function count }
{
    match function {
        Builtin::Length => count == 0,
        Builtin::Sub | Builtin::Gsub => count == 2,
        _ => false,
    }
}

/// The arguments that a call without all of them stands for.
#[tactic(auto, using(crate::proofs::Building::complete_more, crate::proofs::Building::complete_same))]
pub fn complete(alloc: Global, function: Builtin, arguments: Phrases) -> Result<Phrases, AllocError>
    ensures { IfOk result (λ ps. trees (trees_of ps) ≡ tree.complete function
        (trees (trees_of arguments))) }
{
    if lacks_record(function, arguments.list.len()) {
        push(arguments, record(alloc)?)
    } else {
        Ok(arguments)
    }
}
