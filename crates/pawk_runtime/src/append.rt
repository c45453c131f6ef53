//! Texts that are put after that of a variable.
//!
//! POSIX.1-2017, awk, "Expressions in awk" (concatenation, assignment).

ghost use Rattle.std.specs.Prelude.{◌≡◌, ◌≤◌, ◌+◌, ◌++◌, ℕ, List, [], length, None, true, IfErr, IfOk, IfSome, OnOk};
ghost use Rattle.pawk_world.specs.Halts.{halt_of};
ghost use Rattle.pawk_value.specs.Limits.{length_limit};
ghost use Rattle.pawk_value.specs.Value.{Val};
ghost use Rattle.pawk_code.specs.Expressions.{exprs, global, join, leaf, more, textual, to_global};
ghost use Rattle.pawk_code.specs.ExpressionViews.{place_view, textual_view, view, views};
ghost use Rattle.pawk_store.specs.Meaning.{suffixed};
ghost use Rattle.pawk_store.specs.Parts.{Hold, Part, gives};
ghost use Rattle.pawk_runtime.specs.Moments.{moment};
ghost use Rattle.pawk_runtime.specs.Appending.{IsAssigned};

use crate::plain::push_plain;
use crate::quick::plain_value;
use crate::run::{Run, give_back, take_buffer};
use crate::writing::set_parameter_number;
use itoa::Buffer;
use pawk_code::expression::{Expr, Lvalue, Textual};
use pawk_code::leaf::Leaf;
use pawk_value::{LENGTH_LIMIT, ValueRef, text_in};
use pawk_world::{Halt, World};

/// The operands of a concatenation, if it is one.
fn operands_of_text(t: &Textual) -> Option<&[Expr]>
    ensures { IfSome result (λ es. textual_view t.now ≡ join (exprs (views es.now))) }
{
    match t {
        Textual::Join(es) => Some(es.as_slice()),
        _ => None,
    }
}

/// The operands of an expression that is a concatenation, if it is one.
fn operands_of(e: &Expr) -> Option<&[Expr]>
    ensures { IfSome result (λ es. view e.now ≡ textual (join (exprs (views es.now)))) }
{
    match e {
        Expr::Textual(t) => operands_of_text(t),
        _ => None,
    }
}

/// The expressions after the first one, where that is the global of this slot.
fn rest_after(slot: usize, es: &[Expr]) -> Option<&[Expr]>
    ensures { IfSome result (λ rest.
        exprs (views es.now) ≡ more (leaf (global slot)) (exprs (views rest.now))) }
{
    match es {
        [Expr::Leaf(Leaf::Global(first)), rest @ ..] if *first == slot => Some(rest),
        _ => None,
    }
}

/// Whether texts of these lengths in bytes are together within the limit.
fn fits(front: usize, more: usize) -> bool
    ensures { result ≡ true → front + more ≤ length_limit }
{
    more <= LENGTH_LIMIT && front <= LENGTH_LIMIT - more
}

/// Appends the texts of expressions, as long as each is found without an effect and what is after a text
/// of `front` bytes is within the limit. Says whether all are.
fn push_after<W: World>(
    front: usize,
    es: &[Expr],
    out: &mut Vec<u8>,
    world: &W,
    run: &mut Run<'_>,
) -> Result<bool, Halt>
    requires { out.old.items ≡ [] }
    ensures same { OnOk result
        (moment (W.state world.now) run.new ≡ moment (W.state world.now) run.old) }
    ensures left { run.new.left ≤ run.old.left }
    ensures refused { IfErr result (λ e. halt_of e ≡ None) }
    ensures text { IfOk result (λ all. all ≡ true → (text : List ℕ) → length text ≡ front
        → (eres : List (List ℕ)) → (enter : ℕ → List Hold → Part W.State Val)
        → suffixed W.calls eres enter (exprs (views es.now)) text
        (moment (W.state world.now) run.old)
        ≡ gives (text ++ out.new.items) (moment (W.state world.now) run.old)) }
{
    for e in es {
        let pushed = push_plain(e, out, world, run)?;
        if !pushed || !fits(front, out.len()) {
            return Ok(false);
        }
    }
    Ok(true)
}

/// Assigns to a global the concatenation of its own text and others, which are put after it.
fn append<W: World>(
    slot: usize,
    rest: &[Expr],
    world: &mut W,
    run: &mut Run<'_>,
) -> Result<bool, Halt>
    ensures left { run.new.left ≤ run.old.left }
    ensures outcome { IsAssigned W.calls (to_global slot)
        (textual (join (more (leaf (global slot)) (exprs (views rest.now)))))
        (moment (W.state world.old) run.old) result (moment (W.state world.new) run.new) }
{
    let mut buffer = Buffer::new();
    let front = text_in(world.scalar(slot), &mut buffer).len();
    let mut more = take_buffer(run.alloc, &mut run.spare);
    let all = push_after(front, rest, &mut more, world, run)?;
    if all {
        world.append_scalar(slot, &more)?;
    }
    give_back(&mut run.spare, more);
    Ok(all)
}

/// Assigns a number that is one already to a variable, else nothing changes. Says whether it was assigned.
#[inline(always)]
fn assign_plain<W: World>(
    to: &Lvalue,
    e: &Expr,
    world: &mut W,
    run: &mut Run<'_>,
) -> Result<bool, Halt>
    ensures left { run.new.left ≤ run.old.left }
    ensures outcome { IsAssigned W.calls (place_view to.now) (view e.now)
        (moment (W.state world.old) run.old) result (moment (W.state world.new) run.new) }
{
    let Some(number) = plain_value(e, world, run) else {
        return Ok(false);
    };
    match to {
        Lvalue::Global(slot) => {
            world.set_scalar(*slot, ValueRef::Num(number))?;
            Ok(true)
        }
        Lvalue::Local(place) => {
            set_parameter_number(*place, number, world, run)?;
            Ok(true)
        }
        _ => Ok(false),
    }
}

/// Assigns an expression to a place in the place's own space: a number that is one already, or, where the place is a
/// global, the concatenation of that global and others after it, each of which is found without an effect; else
/// nothing changes. Says whether it was assigned. The text of the global is not copied.
///
/// POSIX.1-2017, awk, "Expressions in awk" (concatenation, assignment).
#[inline(always)]
pub fn assign_in_place<W: World>(
    to: &Lvalue,
    e: &Expr,
    world: &mut W,
    run: &mut Run<'_>,
) -> Result<bool, Halt>
    ensures left { run.new.left ≤ run.old.left }
    ensures outcome { IsAssigned W.calls (place_view to.now) (view e.now)
        (moment (W.state world.old) run.old) result (moment (W.state world.new) run.new) }
{
    if let Lvalue::Global(slot) = to {
        if let Some(es) = operands_of(e) {
            if let Some(rest) = rest_after(*slot, es) {
                return append(*slot, rest, world, run);
            }
        }
    }
    assign_plain(to, e, world, run)
}
