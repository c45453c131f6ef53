// Sets of places as marks.

ghost use Rattle.pawk_ere_automaton.specs.Marks.{final, nullable, places, shift, turns};
ghost use Rattle.pawk_ere_automaton.specs.Members.{members_of};
ghost use Rattle.pawk_ere_automaton.specs.Regex.{Bytes, Plus, copies};
ghost use Rattle.pawk_ere_automaton.specs.Tree.{regex_of};
ghost use Rattle.pawk_ere_syntax.specs.Pattern.{Holds};
ghost use Rattle.std.specs.Prelude.{◌≡◌, ◌↔◌, ◌≤◌, ◌-◌, ◌∷◌, ℕ, Bool, List, false, true, ◌&&◌, ◌||◌, ◌++◌, drop, get_or, length, IsTrue, OnOk, IfOk};

use crate::members::Members;
use crate::node::Node;
use std::alloc::AllocError;

/// A bound is at most this.
const MOST_COPIES: usize = 255;

/// No place is marked.
const NO_MARKS: [bool; MOST_COPIES] = [false; MOST_COPIES];

/// How many places the expression has: its byte sets.
pub fn place_count(node: &Node) -> usize {
    match node {
        Node::Empty | Node::Start | Node::End => 0,
        Node::Bytes(_) => 1,
        Node::Sequence(a, b) | Node::Either(a, b) => place_count(a).saturating_add(place_count(b)),
        Node::Copies(count, a) => place_count(a).saturating_mul(*count as usize),
        Node::Star(a) | Node::Plus(a) => place_count(a),
    }
}

/// What marks say of a node.
#[derive(Clone, Copy)]
pub struct View<'a> {
    /// The marks of what comes after the node.
    pub rest: &'a [bool],
    /// A match may end here.
    pub ends: bool,
    /// It matches nothing here.
    pub nullable: bool,
}

/// The marks of two nodes, one after the other.
#[inline(always)]
fn in_sequence<'a>(front: View<'a>, back: View<'a>) -> View<'a>
    ensures ends { result.ends ≡ (front.entry.ends && back.entry.nullable) || back.entry.ends }
    ensures nullable { result.nullable ≡ front.entry.nullable && back.entry.nullable }
    ensures rest { result.rest.now ≡ back.entry.rest.now }
{
    View {
        rest: back.rest,
        ends: (front.ends && back.nullable) || back.ends,
        nullable: front.nullable && back.nullable,
    }
}

/// The marks of two nodes, of which one or the other matches.
#[inline(always)]
fn in_either<'a>(left: View<'a>, right: View<'a>) -> View<'a>
    ensures ends { result.ends ≡ left.entry.ends || right.entry.ends }
    ensures nullable { result.nullable ≡ left.entry.nullable || right.entry.nullable }
    ensures rest { result.rest.now ≡ right.entry.rest.now }
{
    View {
        rest: right.rest,
        ends: left.ends || right.ends,
        nullable: left.nullable || right.nullable,
    }
}

/// The marks of a node repeated any number of times.
#[inline(always)]
fn in_turns<'a>(turn: View<'a>) -> View<'a>
    ensures ends { result.ends ≡ turn.entry.ends }
    ensures nullable { result.nullable ≡ true }
    ensures rest { result.rest.now ≡ turn.entry.rest.now }
{
    View {
        rest: turn.rest,
        ends: turn.ends,
        nullable: true,
    }
}

/// What the marks say of a node at a place, which may be the text's first or last.
#[cycle(looking)]
pub fn look<'a>(node: &Node, marks: &'a [bool], first: bool, last: bool) -> View<'a>
    ensures ends { result.ends ≡ final (regex_of node.now) marks.now first last }
    ensures nullable { result.nullable ≡ nullable (regex_of node.now) first last }
    ensures rest { result.rest.now ≡ drop (places (regex_of node.now)) marks.now }
{
    match node {
        Node::Empty => View {
            rest: marks,
            ends: false,
            nullable: true,
        },
        Node::Start => View {
            rest: marks,
            ends: false,
            nullable: first,
        },
        Node::End => View {
            rest: marks,
            ends: false,
            nullable: last,
        },
        Node::Bytes(_) => match marks {
            [mark, rest @ ..] => View {
                rest,
                ends: *mark,
                nullable: false,
            },
            [] => View {
                rest: marks,
                ends: false,
                nullable: false,
            },
        },
        Node::Sequence(a, b) => {
            let front = look(a, marks, first, last);
            let back = look(b, front.rest, first, last);
            in_sequence(front, back)
        }
        Node::Either(a, b) => {
            let left = look(a, marks, first, last);
            let right = look(b, left.rest, first, last);
            in_either(left, right)
        }
        Node::Copies(count, a) => look_copies(*count, a, marks, first, last),
        Node::Star(a) => in_turns(look(a, marks, first, last)),
        Node::Plus(a) => look(a, marks, first, last),
    }
}

/// What the marks say of `count` copies of a node.
#[cycle(looking)]
fn look_copies<'a>(count: u8, a: &Node, marks: &'a [bool], first: bool, last: bool) -> View<'a>
    ensures ends { result.ends ≡ final (copies count (regex_of a.now)) marks.now first last }
    ensures nullable { result.nullable ≡ nullable (copies count (regex_of a.now)) first last }
    ensures rest { result.rest.now ≡ drop (places (copies count (regex_of a.now))) marks.now }
{
    if let Node::Bytes(_) = a {
        if count > 0 {
            return look_run(count, marks);
        }
    }
    let mut front = View {
        rest: marks,
        ends: false,
        nullable: true,
    };
    for _i in 0..count {
        let turn = look(a, front.rest, first, last);
        front = in_sequence(front, turn);
    }
    front
}

/// What the marks say of `count` copies of a byte set.
fn look_run<'a>(count: u8, marks: &'a [bool]) -> View<'a>
    requires { 1 ≤ count }
    ensures ends { result.ends ≡ get_or marks.now (count - 1) false }
    ensures nullable { result.nullable ≡ false }
    ensures rest { result.rest.now ≡ drop count marks.now }
{
    let count = count as usize;
    if count > marks.len() {
        return View {
            rest: &[],
            ends: marks.get(count - 1).copied().unwrap_or(false),
            nullable: false,
        };
    }
    View {
        rest: &marks[count..],
        ends: marks[count - 1],
        nullable: false,
    }
}

/// What the marks say of a node inside a text. For each repetition without a bound, in order, it adds whether a turn of
/// it may end here.
#[cycle(noting)]
pub fn note_turns<'a>(
    node: &Node,
    marks: &'a [bool],
    first: bool,
    out: &mut Vec<bool>,
) -> Result<View<'a>, AllocError>
    ensures out { OnOk result
        (out.new.items ≡ out.old.items ++ turns (regex_of node.now) marks.now first) }
    ensures ends { IfOk result (λ v. v.ends ≡ final (regex_of node.now) marks.now first false) }
    ensures nullable { IfOk result (λ v. v.nullable ≡ nullable (regex_of node.now) first false) }
    ensures rest { IfOk result (λ v. v.rest.now ≡ drop (places (regex_of node.now)) marks.now) }
{
    match node {
        Node::Empty | Node::Start | Node::End | Node::Bytes(_) => Ok(look(
            node, marks, first, false,
        )),
        Node::Sequence(a, b) => {
            let front = note_turns(a, marks, first, out)?;
            let back = note_turns(b, front.rest, first, out)?;
            Ok(in_sequence(front, back))
        }
        Node::Either(a, b) => {
            let left = note_turns(a, marks, first, out)?;
            let right = note_turns(b, left.rest, first, out)?;
            Ok(in_either(left, right))
        }
        Node::Copies(count, a) => note_copies(*count, a, marks, first, out),
        Node::Star(a) => Ok(in_turns(note_turn(a, marks, first, out)?)),
        Node::Plus(a) => note_turn(a, marks, first, out),
    }
}

/// Adds whether a turn may end here, before what is noted of the repetitions in it.
#[cycle(noting)]
fn note_turn<'a>(
    a: &Node,
    marks: &'a [bool],
    first: bool,
    out: &mut Vec<bool>,
) -> Result<View<'a>, AllocError>
    ensures out { OnOk result (out.new.items ≡ out.old.items
        ++ final (regex_of a.now) marks.now first false ∷ turns (regex_of a.now) marks.now first) }
    ensures ends { IfOk result (λ v. v.ends ≡ final (regex_of a.now) marks.now first false) }
    ensures nullable { IfOk result (λ v. v.nullable ≡ nullable (regex_of a.now) first false) }
    ensures rest { IfOk result (λ v. v.rest.now ≡ drop (places (regex_of a.now)) marks.now) }
{
    let place = out.len();
    out.push(false)?;
    let inside = note_turns(a, marks, first, out)?;
    out[place] = inside.ends;
    Ok(inside)
}

/// What the marks say of `count` copies of a node inside a text; adds whether a turn of each repetition may end here.
#[cycle(noting)]
fn note_copies<'a>(
    count: u8,
    a: &Node,
    marks: &'a [bool],
    first: bool,
    out: &mut Vec<bool>,
) -> Result<View<'a>, AllocError>
    ensures out { OnOk result
        (out.new.items ≡ out.old.items ++ turns (copies count (regex_of a.now)) marks.now first) }
    ensures ends { IfOk result
        (λ v. v.ends ≡ final (copies count (regex_of a.now)) marks.now first false) }
    ensures nullable { IfOk result
        (λ v. v.nullable ≡ nullable (copies count (regex_of a.now)) first false) }
    ensures rest { IfOk result
        (λ v. v.rest.now ≡ drop (places (copies count (regex_of a.now))) marks.now) }
{
    if let Node::Bytes(_) = a {
        return Ok(look_copies(count, a, marks, first, false));
    }
    let mut front = View {
        rest: marks,
        ends: false,
        nullable: true,
    };
    for _i in 0..count {
        let turn = note_turns(a, front.rest, first, out)?;
        front = in_sequence(front, turn);
    }
    Ok(front)
}

/// What a step starts from, as far as it was not used yet.
#[derive(Clone, Copy)]
pub struct StepSource<'a> {
    /// The marks.
    pub marks: &'a [bool],
    /// What `note_turns` notes of them.
    pub turns: &'a [bool],
}

/// The byte that a step reads.
#[derive(Clone, Copy)]
pub struct StepByte {
    pub byte: u8,
    /// It is the text's first.
    pub first: bool,
}

/// What the old marks say of a node, and the turns of what comes after it.
#[derive(Clone, Copy)]
pub struct Shifted<'a> {
    pub view: View<'a>,
    pub turns: &'a [bool],
}

impl<'a> Shifted<'a> {
    /// What is left for the nodes that come after.
    fn source(self) -> StepSource<'a>
        ensures marks { result.marks.now ≡ self.entry.view.rest.now }
        ensures turns { result.turns.now ≡ self.entry.turns.now }
    {
        StepSource {
            marks: self.view.rest,
            turns: self.turns,
        }
    }
}

/// Adds the marks after one more byte, where `enter` says whether a match may begin before it.
#[cycle(shifting)]
pub fn push_shifted<'a>(
    node: &Node,
    enter: bool,
    source: StepSource<'a>,
    step: StepByte,
    out: &mut Vec<bool>,
) -> Result<Shifted<'a>, AllocError>
    ensures out { (more : List Bool) → source.entry.turns.now
        ≡ turns (regex_of node.now) source.entry.marks.now step.first ++ more
        → OnOk result (out.new.items ≡ out.old.items
        ++ shift (regex_of node.now) enter source.entry.marks.now step.byte step.first) }
    ensures turns { (more : List Bool) → source.entry.turns.now
        ≡ turns (regex_of node.now) source.entry.marks.now step.first ++ more
        → IfOk result (λ s. s.turns.now ≡ more) }
    ensures ends { IfOk result
        (λ s. s.view.ends ≡ final (regex_of node.now) source.entry.marks.now step.first false) }
    ensures nullable { IfOk result
        (λ s. s.view.nullable ≡ nullable (regex_of node.now) step.first false) }
    ensures marks { IfOk result
        (λ s. s.view.rest.now ≡ drop (places (regex_of node.now)) source.entry.marks.now) }
{
    match node {
        Node::Empty | Node::Start | Node::End => Ok(Shifted {
            view: look(node, source.marks, step.first, false),
            turns: source.turns,
        }),
        Node::Bytes(set) => {
            out.push(enter && set.contains(step.byte))?;
            Ok(Shifted {
                view: look(node, source.marks, step.first, false),
                turns: source.turns,
            })
        }
        Node::Sequence(a, b) => {
            let front = push_shifted(a, enter, source, step, out)?;
            let enter_second = enters_next(enter, front.view);
            let back = push_shifted(b, enter_second, front.source(), step, out)?;
            Ok(Shifted {
                view: in_sequence(front.view, back.view),
                turns: back.turns,
            })
        }
        Node::Either(a, b) => {
            let left = push_shifted(a, enter, source, step, out)?;
            let right = push_shifted(b, enter, left.source(), step, out)?;
            Ok(Shifted {
                view: in_either(left.view, right.view),
                turns: right.turns,
            })
        }
        Node::Copies(count, a) => push_copies(*count, a, enter, source, step, out),
        Node::Star(a) => {
            let inside = push_turn(a, enter, source, step, out)?;
            Ok(Shifted {
                view: in_turns(inside.view),
                turns: inside.turns,
            })
        }
        Node::Plus(a) => push_turn(a, enter, source, step, out),
    }
}

/// Whether a match may begin in what comes after a node, or go on to it.
#[inline(always)]
fn enters_next(enter: bool, view: View<'_>) -> bool
    ensures { result ≡ (enter && view.entry.nullable) || view.entry.ends }
{
    (enter && view.nullable) || view.ends
}

/// Adds the marks after a byte, as `push_shifted` does, for the turns of a repetition without a bound.
#[cycle(shifting)]
fn push_turn<'a>(
    a: &Node,
    enter: bool,
    source: StepSource<'a>,
    step: StepByte,
    out: &mut Vec<bool>,
) -> Result<Shifted<'a>, AllocError>
    ensures out { (more : List Bool) → source.entry.turns.now
        ≡ turns (Plus (regex_of a.now)) source.entry.marks.now step.first ++ more
        → OnOk result (out.new.items ≡ out.old.items
        ++ shift (Plus (regex_of a.now)) enter source.entry.marks.now step.byte step.first) }
    ensures turns { (more : List Bool) → source.entry.turns.now
        ≡ turns (Plus (regex_of a.now)) source.entry.marks.now step.first ++ more
        → IfOk result (λ s. s.turns.now ≡ more) }
    ensures ends { IfOk result
        (λ s. s.view.ends ≡ final (regex_of a.now) source.entry.marks.now step.first false) }
    ensures nullable { IfOk result
        (λ s. s.view.nullable ≡ nullable (regex_of a.now) step.first false) }
    ensures marks { IfOk result
        (λ s. s.view.rest.now ≡ drop (places (regex_of a.now)) source.entry.marks.now) }
{
    match source.turns {
        [again, turns @ ..] => {
            let inside = StepSource {
                marks: source.marks,
                turns,
            };
            push_shifted(a, enter || *again, inside, step, out)
        }
        [] => push_shifted(a, enter, source, step, out),
    }
}

/// Adds the marks after a byte, as `push_shifted` does, for `count` copies of a node.
#[cycle(shifting)]
fn push_copies<'a>(
    count: u8,
    a: &Node,
    enter: bool,
    source: StepSource<'a>,
    step: StepByte,
    out: &mut Vec<bool>,
) -> Result<Shifted<'a>, AllocError>
    ensures out { (more : List Bool)
        → source.entry.turns.now
        ≡ turns (copies count (regex_of a.now)) source.entry.marks.now step.first ++ more
        → OnOk result (out.new.items ≡ out.old.items
        ++ shift (copies count (regex_of a.now)) enter source.entry.marks.now
        step.byte step.first) }
    ensures turns { (more : List Bool)
        → source.entry.turns.now
        ≡ turns (copies count (regex_of a.now)) source.entry.marks.now step.first ++ more
        → IfOk result (λ s. s.turns.now ≡ more) }
    ensures ends { IfOk result (λ s. s.view.ends
        ≡ final (copies count (regex_of a.now)) source.entry.marks.now step.first false) }
    ensures nullable { IfOk result
        (λ s. s.view.nullable ≡ nullable (copies count (regex_of a.now)) step.first false) }
    ensures marks { IfOk result (λ s. s.view.rest.now
        ≡ drop (places (copies count (regex_of a.now))) source.entry.marks.now) }
{
    if let Node::Bytes(set) = a {
        if 0 < count && count as usize <= source.marks.len() {
            push_run(count, set, enter, source.marks, step.byte, out)?;
            return Ok(Shifted {
                view: look_run(count, source.marks),
                turns: source.turns,
            });
        }
    }
    let mut enter = enter;
    let mut front = Shifted {
        view: View {
            rest: source.marks,
            ends: false,
            nullable: true,
        },
        turns: source.turns,
    };
    for _i in 0..count {
        let turn = push_shifted(a, enter, front.source(), step, out)?;
        enter = enters_next(enter, turn.view);
        front = Shifted {
            view: in_sequence(front.view, turn.view),
            turns: turn.turns,
        };
    }
    Ok(front)
}

/// Adds the marks after a byte, as `push_shifted` does, for `count` copies of a byte set: each mark goes one place on
/// where the byte belongs.
fn push_run(
    count: u8,
    set: &Members,
    enter: bool,
    marks: &[bool],
    byte: u8,
    out: &mut Vec<bool>,
) -> Result<(), AllocError>
    requires some { 1 ≤ count }
    requires within { count ≤ length marks.now }
    ensures { (first : Bool) → OnOk result (out.new.items ≡ out.old.items
        ++ shift (copies count (Bytes (members_of set.now))) enter marks.now byte first) }
{
    let count = count as usize;
    if !set.contains(byte) {
        out.extend_from_slice(&NO_MARKS[..count])?;
        return Ok(());
    }
    out.push(enter)?;
    out.extend_from_slice(&marks[..count - 1])?;
    Ok(())
}

/// Whether no place is marked.
pub fn is_empty(marks: &[bool]) -> bool
    ensures { IsTrue result ↔ ((k : ℕ) → get_or marks.now k false ≡ false) }
{
    for mark in marks {
        if *mark {
            return false;
        }
    }
    true
}
