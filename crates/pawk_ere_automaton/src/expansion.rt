// Writing out repetitions.

ghost use Rattle.std.specs.Prelude.{◌≡◌, ◌-◌, ◌≤◌, IfOk};
ghost use Rattle.pawk_ere_automaton.specs.Expand.{at_least, at_most, expand, repeated};
ghost use Rattle.pawk_ere_automaton.specs.Regex.{Bytes, Sequence, copies};
ghost use Rattle.pawk_ere_automaton.specs.Tree.{regex_of};
ghost use Rattle.pawk_ere_syntax.specs.Sets.{none};
ghost use Rattle.pawk_ere_syntax.specs.Tree.{pattern_of};

use crate::members::Members;
use crate::node::Node;
use pawk_ere_syntax::{ByteSet, Expression};
use std::alloc::{AllocError, Global};

/// A byte set as a leaf. It is handled outside the recursion, whose frames stay small.
#[inline(never)]
fn leaf(alloc: Global, set: &ByteSet) -> Result<Node, AllocError>
    ensures { IfOk result (λ node. regex_of node ≡ Bytes set.now.members) }
{
    Ok(Node::Bytes(Box::new(alloc, Members::of(*set))?))
}

/// What matches nothing.
#[inline(never)]
fn nothing(alloc: Global) -> Result<Node, AllocError>
    ensures { IfOk result (λ node. regex_of node ≡ Bytes none) }
{
    Ok(Node::Bytes(Box::new(alloc, Members::of(ByteSet::none()))?))
}

/// The expression with its repetitions written out.
#[cycle(expanding)]
pub fn expand(alloc: Global, e: &Expression) -> Result<Node, AllocError>
    ensures { IfOk result (λ node. regex_of node ≡ expand (pattern_of e.now)) }
{
    match e {
        Expression::Empty => Ok(Node::Empty),
        Expression::Start => Ok(Node::Start),
        Expression::End => Ok(Node::End),
        Expression::Bytes(set) => leaf(alloc, set),
        Expression::Group(a) => expand(alloc, a),
        Expression::Repeat(a, least, None) => or_more(alloc, *least, a),
        Expression::Repeat(a, least, Some(most)) => from_to(alloc, *least, *most, a),
        Expression::Sequence(a, b) => {
            let first = Box::new(alloc, expand(alloc, a)?)?;
            let second = Box::new(alloc, expand(alloc, b)?)?;
            Ok(Node::Sequence(first, second))
        }
        Expression::Either(a, b) => {
            let first = Box::new(alloc, expand(alloc, a)?)?;
            let second = Box::new(alloc, expand(alloc, b)?)?;
            Ok(Node::Either(first, second))
        }
    }
}

/// `count` copies of an expression before the rest. Where there are none the expression is not written out: else each
/// `?` round another would double the tree.
#[cycle(expanding)]
fn before(alloc: Global, count: u8, a: &Expression, rest: Node) -> Result<Node, AllocError>
    ensures { IfOk result (λ node. regex_of node
        ≡ Sequence (copies count (expand (pattern_of a.now))) (regex_of rest)) }
{
    if count == 0 {
        let nothing = Box::new(alloc, Node::Empty)?;
        return Ok(Node::Sequence(nothing, Box::new(alloc, rest)?));
    }
    let turn = Box::new(alloc, expand(alloc, a)?)?;
    let front = Box::new(alloc, Node::Copies(count, turn))?;
    Ok(Node::Sequence(front, Box::new(alloc, rest)?))
}

/// At most that many copies.
#[cycle(expanding)]
fn up_to(alloc: Global, count: u8, a: &Expression) -> Result<Node, AllocError>
    ensures { IfOk result (λ node. regex_of node ≡ at_most count (expand (pattern_of a.now))) }
{
    let mut all = Node::Empty;
    for _i in 0..count {
        let first = Box::new(alloc, expand(alloc, a)?)?;
        let more = Node::Sequence(first, Box::new(alloc, all)?);
        all = Node::Either(Box::new(alloc, Node::Empty)?, Box::new(alloc, more)?);
    }
    Ok(all)
}

/// From the least number of copies to the most.
#[cycle(expanding)]
fn from_to(alloc: Global, least: u8, most: u8, a: &Expression) -> Result<Node, AllocError>
    ensures { IfOk result
        (λ node. regex_of node ≡ repeated least (Some most) (expand (pattern_of a.now))) }
{
    if least > most {
        return nothing(alloc);
    }
    let rest = up_to(alloc, most - least, a)?;
    before(alloc, least, a, rest)
}

/// That many copies or more.
#[cycle(expanding)]
fn or_more(alloc: Global, least: u8, a: &Expression) -> Result<Node, AllocError>
    ensures { IfOk result (λ node. regex_of node ≡ at_least least (expand (pattern_of a.now))) }
{
    let turn = Box::new(alloc, expand(alloc, a)?)?;
    if least == 0 {
        return Ok(Node::Star(turn));
    }
    let plus = Node::Plus(turn);
    if least == 1 {
        return Ok(plus);
    }
    let all = before(alloc, least - 1, a, plus)?;
    Ok(all)
}
