//! Expressions, by what is asked of them.
//!
//! POSIX.1-2017, awk, "Expressions in awk".

ghost use Rattle.std.specs.Prelude.{◌≡◌, ◌≤◌, ◌++◌, [], OnOk};
ghost use Rattle.pawk_value.specs.Value.{shown};
ghost use Rattle.pawk_value.specs.Held.{added, held_value};
ghost use Rattle.pawk_code.specs.Expressions as codes;
ghost use Rattle.pawk_code.specs.ExpressionViews.{argument_views, place_view, view};
ghost use Rattle.pawk_store.specs.Parts.{as_number, as_text, as_truth};
ghost use Rattle.pawk_store.specs.Meaning.{eval};
ghost use Rattle.pawk_runtime.specs.Moments.{moment};
ghost use Rattle.pawk_runtime.specs.Yields.{Yields};
ghost use Rattle.pawk_eval.specs.Contexts.{enter_in, eres_in};

use crate::conditions::{holds, test};
use crate::functions::{call, pass};
use crate::layer::Layer;
use crate::numbers::numeric;
use crate::places::place;
use crate::strings::textual;
use pawk_code::expression::{Argument, Expr, Lvalue};
use pawk_runtime::{
    Run, give_back, give_back_target, give_back_value, leaf_copy, leaf_read, leaf_read_number,
    leaf_read_text, leaf_text, leaf_truth, leaf_value, lent_number, plain_test, plain_value,
    push_place_text, read_number, read_place, take_buffer, value_with, write_place,
};
use pawk_value::{
    Fault, Held, Value, ValueRef, hold, lend, lend_held, push_text_lent, to_num_lent, truth_lent,
};
use pawk_world::{Halt, World};

/// Stores the value of an expression: its bytes are appended to `out`.
#[cycle(evaluate)]
pub(crate) fn eval<W: World>(
    layer: Layer<'_>,
    e: &Expr,
    out: &mut Vec<u8>,
    world: &mut W,
    run: &mut Run<'_>,
) -> Result<Held, Halt>
    ensures left { run.new.left ≤ run.old.left }
    ensures appended { OnOk result
        (out.new.items ≡ out.old.items ++ added out.old.items out.new.items) }
    ensures outcome { Yields (λ h. held_value h (added out.old.items out.new.items))
        (eval W.calls (eres_in layer.entry) (enter_in W.calls layer.entry) (view e.now)
        (moment (W.state world.old) run.old)) result (moment (W.state world.new) run.new) }
{
    match e {
        Expr::Leaf(leaf) => leaf_value(leaf, out, world, run),
        Expr::Numeric(n) => Ok(Held::Num(numeric(layer, n, world, run)?)),
        Expr::Test(t) => Ok(Held::Num(if test(layer, t, world, run)? { 1 } else { 0 })),
        Expr::Textual(t) => {
            textual(layer, t, out, world, run)?;
            Ok(Held::Text)
        }
        Expr::Read(from) => read(layer, from, out, world, run),
        Expr::Choice(c, a, b) => {
            let holds = holds(layer, c, world, run)?;
            if holds {
                eval(layer, a, out, world, run)
            } else {
                eval(layer, b, out, world, run)
            }
        }
        Expr::Assign(to, a) => assign(layer, to, a, out, world, run),
        Expr::Call(f, arguments) => lay_call(layer, *f, arguments, out, world, run),
    }
}

/// Stores the value of a place. A key that is a field is not copied.
#[cycle(evaluate)]
pub(crate) fn read<W: World>(
    layer: Layer<'_>,
    from: &Lvalue,
    out: &mut Vec<u8>,
    world: &mut W,
    run: &mut Run<'_>,
) -> Result<Held, Halt>
    ensures left { run.new.left ≤ run.old.left }
    ensures appended { OnOk result
        (out.new.items ≡ out.old.items ++ added out.old.items out.new.items) }
    ensures outcome { Yields (λ h. held_value h (added out.old.items out.new.items))
        (eval W.calls (eres_in layer.entry) (enter_in W.calls layer.entry)
        (codes.read (place_view from.now))
        (moment (W.state world.old) run.old)) result (moment (W.state world.new) run.new) }
{
    if let Some(answer) = leaf_read(from, out, world, run) {
        return answer;
    }
    let target = place(layer, from, world, run)?;
    let held = read_place(&target, out, world, run)?;
    give_back_target(&mut run.spare, target);
    Ok(held)
}

/// Calls a function with arguments: its value.
///
/// POSIX.1-2017, awk, "User-Defined Functions".
#[cycle(evaluate)]
#[inline(always)]
pub(crate) fn invoke<W: World>(
    layer: Layer<'_>,
    f: usize,
    arguments: &[Argument],
    world: &mut W,
    run: &mut Run<'_>,
) -> Result<Value, Halt>
    ensures left { run.new.left ≤ run.old.left }
    ensures outcome { Yields shown
        (eval W.calls (eres_in layer.entry) (enter_in W.calls layer.entry)
        (codes.call f (codes.arguments (argument_views arguments.now)))
        (moment (W.state world.old) run.old)) result (moment (W.state world.new) run.new) }
{
    let values = pass(layer, arguments, world, run)?;
    call(layer, f, values, world, run)
}

/// Calls a function with arguments, and stores its value.
#[cycle(evaluate)]
pub(crate) fn lay_call<W: World>(
    layer: Layer<'_>,
    f: usize,
    arguments: &[Argument],
    out: &mut Vec<u8>,
    world: &mut W,
    run: &mut Run<'_>,
) -> Result<Held, Halt>
    ensures left { run.new.left ≤ run.old.left }
    ensures appended { OnOk result
        (out.new.items ≡ out.old.items ++ added out.old.items out.new.items) }
    ensures outcome { Yields (λ h. held_value h (added out.old.items out.new.items))
        (eval W.calls (eres_in layer.entry) (enter_in W.calls layer.entry)
        (codes.call f (codes.arguments (argument_views arguments.now)))
        (moment (W.state world.old) run.old)) result (moment (W.state world.new) run.new) }
{
    let value = invoke(layer, f, arguments, world, run)?;
    let held = hold(lend(&value), out)?;
    give_back_value(&mut run.spare, value);
    Ok(held)
}

/// Appends the text of the value of a call.
#[cycle(evaluate)]
pub(crate) fn call_text_into<W: World>(
    layer: Layer<'_>,
    f: usize,
    arguments: &[Argument],
    out: &mut Vec<u8>,
    world: &mut W,
    run: &mut Run<'_>,
) -> Result<(), Halt>
    ensures left { run.new.left ≤ run.old.left }
    ensures outcome { Yields (λ _. out.new.items)
        (as_text out.old.items
        (eval W.calls (eres_in layer.entry) (enter_in W.calls layer.entry)
        (codes.call f (codes.arguments (argument_views arguments.now))))
        (moment (W.state world.old) run.old)) result (moment (W.state world.new) run.new) }
{
    let value = invoke(layer, f, arguments, world, run)?;
    push_text_lent(lend(&value), out)?;
    give_back_value(&mut run.spare, value);
    Ok(())
}

/// Assigns the value of an expression to a place, and stores it.
#[cycle(evaluate)]
pub(crate) fn assign<W: World>(
    layer: Layer<'_>,
    to: &Lvalue,
    e: &Expr,
    out: &mut Vec<u8>,
    world: &mut W,
    run: &mut Run<'_>,
) -> Result<Held, Halt>
    ensures left { run.new.left ≤ run.old.left }
    ensures appended { OnOk result
        (out.new.items ≡ out.old.items ++ added out.old.items out.new.items) }
    ensures outcome { Yields (λ h. held_value h (added out.old.items out.new.items))
        (eval W.calls (eres_in layer.entry) (enter_in W.calls layer.entry)
        (codes.assign (place_view to.now) (view e.now))
        (moment (W.state world.old) run.old)) result (moment (W.state world.new) run.new) }
{
    let target = place(layer, to, world, run)?;
    let start = out.len();
    let held = eval(layer, e, out, world, run)?;
    write_place(&target, lend_held(held, &out[start..]), world, run)?;
    give_back_target(&mut run.spare, target);
    Ok(held)
}

/// The number of an expression, or the fault of its conversion.
#[cycle(evaluate)]
#[inline(always)]
pub(crate) fn number<W: World>(
    layer: Layer<'_>,
    e: &Expr,
    world: &mut W,
    run: &mut Run<'_>,
) -> Result<Result<i64, Fault>, Halt>
    ensures left { run.new.left ≤ run.old.left }
    ensures outcome { Yields (λ number. number)
        (as_number (eval W.calls (eres_in layer.entry) (enter_in W.calls layer.entry)
        (view e.now))
        (moment (W.state world.old) run.old)) result (moment (W.state world.new) run.new) }
{
    if let Some(number) = plain_value(e, world, run) {
        return Ok(Ok(number));
    }
    match e {
        Expr::Leaf(leaf) => lent_number(leaf, world, run),
        Expr::Numeric(n) => Ok(Ok(numeric(layer, n, world, run)?)),
        Expr::Read(from) => number_at(layer, from, world, run),
        e => number_beside(layer, e, world, run),
    }
}

/// The number of an expression whose value is stored first, or the fault of its conversion.
#[cycle(evaluate)]
#[inline(never)]
pub(crate) fn number_beside<W: World>(
    layer: Layer<'_>,
    e: &Expr,
    world: &mut W,
    run: &mut Run<'_>,
) -> Result<Result<i64, Fault>, Halt>
    ensures left { run.new.left ≤ run.old.left }
    ensures outcome { Yields (λ number. number)
        (as_number (eval W.calls (eres_in layer.entry) (enter_in W.calls layer.entry)
        (view e.now))
        (moment (W.state world.old) run.old)) result (moment (W.state world.new) run.new) }
{
    if let Expr::Call(f, arguments) = e {
        let value = invoke(layer, *f, arguments, world, run)?;
        let number = to_num_lent(lend(&value));
        give_back_value(&mut run.spare, value);
        return Ok(number);
    }
    let mut bytes = take_buffer(run.alloc, &mut run.spare);
    let held = eval(layer, e, &mut bytes, world, run)?;
    let number = to_num_lent(lend_held(held, &bytes));
    give_back(&mut run.spare, bytes);
    Ok(number)
}

/// The number of the value of a place, or the fault of its conversion. A key that is a field is not
/// copied.
#[cycle(evaluate)]
pub(crate) fn number_at<W: World>(
    layer: Layer<'_>,
    from: &Lvalue,
    world: &mut W,
    run: &mut Run<'_>,
) -> Result<Result<i64, Fault>, Halt>
    ensures left { run.new.left ≤ run.old.left }
    ensures outcome { Yields (λ number. number)
        (as_number (eval W.calls (eres_in layer.entry) (enter_in W.calls layer.entry)
        (codes.read (place_view from.now)))
        (moment (W.state world.old) run.old)) result (moment (W.state world.new) run.new) }
{
    if let Some(answer) = leaf_read_number(from, world, run) {
        return answer;
    }
    let target = place(layer, from, world, run)?;
    let number = read_number(&target, world, run)?;
    give_back_target(&mut run.spare, target);
    Ok(number)
}

/// The truth of an expression, or the fault of its conversion.
///
/// It halts as [`execute`](crate::execute) does.
///
/// POSIX.1-2017, awk, "Expressions in awk".
#[cycle(evaluate)]
pub(crate) fn truth<W: World>(
    layer: Layer<'_>,
    e: &Expr,
    world: &mut W,
    run: &mut Run<'_>,
) -> Result<Result<bool, Fault>, Halt>
    ensures left { run.new.left ≤ run.old.left }
    ensures outcome { Yields (λ truth. truth)
        (as_truth (eval W.calls (eres_in layer.entry) (enter_in W.calls layer.entry)
        (view e.now))
        (moment (W.state world.old) run.old)) result (moment (W.state world.new) run.new) }
{
    if let Some(holds) = plain_test(e, world, run) {
        return Ok(Ok(holds));
    }
    match e {
        Expr::Leaf(leaf) => leaf_truth(leaf, world, run),
        Expr::Test(t) => Ok(Ok(test(layer, t, world, run)?)),
        Expr::Numeric(n) => {
            let number = numeric(layer, n, world, run)?;
            Ok(truth_lent(ValueRef::Num(number)))
        }
        e => {
            let (held, bytes) = eval_apart(layer, e, world, run)?;
            let truth = truth_lent(lend_held(held, &bytes));
            give_back(&mut run.spare, bytes);
            Ok(truth)
        }
    }
}

/// Appends the text of an expression.
#[cycle(evaluate)]
#[inline(always)]
pub(crate) fn text_into<W: World>(
    layer: Layer<'_>,
    e: &Expr,
    out: &mut Vec<u8>,
    world: &mut W,
    run: &mut Run<'_>,
) -> Result<(), Halt>
    ensures left { run.new.left ≤ run.old.left }
    ensures outcome { Yields (λ _. out.new.items)
        (as_text out.old.items
        (eval W.calls (eres_in layer.entry) (enter_in W.calls layer.entry)
        (view e.now))
        (moment (W.state world.old) run.old)) result (moment (W.state world.new) run.new) }
{
    match e {
        Expr::Leaf(leaf) => leaf_text(leaf, out, world, run),
        Expr::Textual(t) => textual(layer, t, out, world, run),
        Expr::Numeric(n) => {
            let number = numeric(layer, n, world, run)?;
            push_text_lent(ValueRef::Num(number), out)?;
            Ok(())
        }
        Expr::Read(from) => text_at(layer, from, out, world, run),
        Expr::Call(f, arguments) => call_text_into(layer, *f, arguments, out, world, run),
        e => {
            let (held, bytes) = eval_apart(layer, e, world, run)?;
            push_text_lent(lend_held(held, &bytes), out)?;
            give_back(&mut run.spare, bytes);
            Ok(())
        }
    }
}

/// Appends the text of the value of a place. A key that is a field is not copied.
#[cycle(evaluate)]
pub(crate) fn text_at<W: World>(
    layer: Layer<'_>,
    from: &Lvalue,
    out: &mut Vec<u8>,
    world: &mut W,
    run: &mut Run<'_>,
) -> Result<(), Halt>
    ensures left { run.new.left ≤ run.old.left }
    ensures outcome { Yields (λ _. out.new.items)
        (as_text out.old.items
        (eval W.calls (eres_in layer.entry) (enter_in W.calls layer.entry)
        (codes.read (place_view from.now)))
        (moment (W.state world.old) run.old)) result (moment (W.state world.new) run.new) }
{
    if let Some(answer) = leaf_read_text(from, out, world, run) {
        return answer;
    }
    let target = place(layer, from, world, run)?;
    push_place_text(&target, out, world, run)?;
    give_back_target(&mut run.spare, target);
    Ok(())
}

/// The text of an expression.
#[cycle(evaluate)]
#[inline(always)]
pub(crate) fn text<W: World>(
    layer: Layer<'_>,
    e: &Expr,
    world: &mut W,
    run: &mut Run<'_>,
) -> Result<Vec<u8>, Halt>
    ensures left { run.new.left ≤ run.old.left }
    ensures outcome { Yields (λ text. text.items)
        (as_text [] (eval W.calls (eres_in layer.entry) (enter_in W.calls layer.entry)
        (view e.now))
        (moment (W.state world.old) run.old)) result (moment (W.state world.new) run.new) }
{
    let mut text = take_buffer(run.alloc, &mut run.spare);
    text_into(layer, e, &mut text, world, run)?;
    Ok(text)
}

/// The value of an expression.
#[cycle(evaluate)]
pub(crate) fn value<W: World>(
    layer: Layer<'_>,
    e: &Expr,
    world: &mut W,
    run: &mut Run<'_>,
) -> Result<Value, Halt>
    ensures left { run.new.left ≤ run.old.left }
    ensures outcome { Yields shown
        (eval W.calls (eres_in layer.entry) (enter_in W.calls layer.entry) (view e.now)
        (moment (W.state world.old) run.old)) result (moment (W.state world.new) run.new) }
{
    if let Some(number) = plain_value(e, world, run) {
        return Ok(Value::Num(number));
    }
    match e {
        Expr::Leaf(leaf) => leaf_copy(leaf, world, run),
        Expr::Numeric(n) => Ok(Value::Num(numeric(layer, n, world, run)?)),
        Expr::Choice(c, a, b) => {
            let holds = holds(layer, c, world, run)?;
            if holds {
                value(layer, a, world, run)
            } else {
                value(layer, b, world, run)
            }
        }
        Expr::Textual(t) => {
            let mut text = take_buffer(run.alloc, &mut run.spare);
            textual(layer, t, &mut text, world, run)?;
            Ok(Value::Text(text))
        }
        Expr::Call(f, arguments) => invoke(layer, *f, arguments, world, run),
        e => {
            let (held, bytes) = eval_apart(layer, e, world, run)?;
            Ok(value_with(&mut run.spare, held, bytes))
        }
    }
}

/// Stores the value of an expression in a buffer of its own.
#[cycle(evaluate)]
pub(crate) fn eval_apart<W: World>(
    layer: Layer<'_>,
    e: &Expr,
    world: &mut W,
    run: &mut Run<'_>,
) -> Result<(Held, Vec<u8>), Halt>
    ensures left { run.new.left ≤ run.old.left }
    ensures outcome { Yields (λ r. held_value r.0 r.1.items)
        (eval W.calls (eres_in layer.entry) (enter_in W.calls layer.entry) (view e.now)
        (moment (W.state world.old) run.old)) result (moment (W.state world.new) run.new) }
{
    let mut bytes = take_buffer(run.alloc, &mut run.spare);
    let held = eval(layer, e, &mut bytes, world, run)?;
    Ok((held, bytes))
}
