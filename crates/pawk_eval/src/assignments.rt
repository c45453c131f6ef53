//! Statements that change a place: additions, counts and assignments.
//!
//! POSIX.1-2017, awk, "Expressions in awk".

ghost use Rattle.std.specs.Prelude.{◌≤◌};
ghost use Rattle.pawk_code.specs.ExpressionViews.{place_view, view};
ghost use Rattle.pawk_code.specs.Statements as actions;
ghost use Rattle.pawk_store.specs.Parts.{bind};
ghost use Rattle.pawk_store.specs.Meaning.{act, aim_of};
ghost use Rattle.pawk_store.specs.Places.{add_at};
ghost use Rattle.pawk_runtime.specs.Moments.{moment};
ghost use Rattle.pawk_runtime.specs.Yields.{Yields};
ghost use Rattle.pawk_eval.specs.Amounts.{amount_of};
ghost use Rattle.pawk_eval.specs.Contexts.{enter_in, eres_in};

use crate::amount::{Amount, amount_number};
use crate::expressions::{eval, number};
use crate::layer::Layer;
use crate::numbers::numeric;
use crate::places::{element_parts, key, place};
use pawk_code::expression::{Expr, Lvalue};
use pawk_code::word::Sign;
use pawk_runtime::{
    Run, add_to_key, add_to_number, add_to_place, assign_in_place, give_back, give_back_target,
    leaf_add, leaf_set, leaf_tally, numeric_element, table_of, take_buffer, write_place,
};
use pawk_value::{ValueRef, lend_held};
use pawk_world::{Halt, World};

/// Adds an amount to a place, or takes it away.
#[cycle(evaluate)]
#[inline(always)]
pub(crate) fn add<W: World>(
    layer: Layer<'_>,
    sign: Sign,
    to: &Lvalue,
    amount: Amount<'_>,
    world: &mut W,
    run: &mut Run<'_>,
) -> Result<(), Halt>
    ensures left { run.new.left ≤ run.old.left }
    ensures outcome { Yields (λ _. tt)
        (bind (aim_of W.calls (eres_in layer.entry) (enter_in W.calls layer.entry)
        (place_view to.now)) (λ aim. bind
        (amount_of W.calls (eres_in layer.entry) (enter_in W.calls layer.entry)
        amount.entry) (add_at W.calls sign aim))
        (moment (W.state world.old) run.old)) result (moment (W.state world.new) run.new) }
{
    match amount {
        Amount::One => {
            if let Some(answer) = leaf_tally(sign, to, world, run) {
                return answer;
            }
        }
        Amount::Of(e) => {
            if let Lvalue::Global(slot) = to {
                let number = number(layer, e, world, run)?;
                return world.add_scalar(*slot, sign, number);
            }
            if let Some(answer) = leaf_add(sign, to, e, world, run) {
                return answer;
            }
        }
    }
    add_elsewhere(layer, sign, to, amount, world, run)
}

/// Adds an amount to a place that is not known at once, or takes it away. A key that is a number is not copied.
#[cycle(evaluate)]
#[inline(never)]
pub(crate) fn add_elsewhere<W: World>(
    layer: Layer<'_>,
    sign: Sign,
    to: &Lvalue,
    amount: Amount<'_>,
    world: &mut W,
    run: &mut Run<'_>,
) -> Result<(), Halt>
    ensures left { run.new.left ≤ run.old.left }
    ensures outcome { Yields (λ _. tt)
        (bind (aim_of W.calls (eres_in layer.entry) (enter_in W.calls layer.entry)
        (place_view to.now)) (λ aim. bind
        (amount_of W.calls (eres_in layer.entry) (enter_in W.calls layer.entry)
        amount.entry) (add_at W.calls sign aim))
        (moment (W.state world.old) run.old)) result (moment (W.state world.new) run.new) }
{
    if let Some((array, n)) = numeric_element(to) {
        let key = numeric(layer, n, world, run)?;
        let table = table_of(&run.frame, array);
        let number = amount_number(layer, amount, world, run)?;
        return add_to_number(sign, table, key, number, world, run);
    }
    if let Some((array, keys)) = element_parts(to) {
        let key = key(layer, keys, world, run)?;
        let table = table_of(&run.frame, array);
        let number = amount_number(layer, amount, world, run)?;
        add_to_key(sign, table, &key, number, world, run)?;
        give_back(&mut run.spare, key);
        return Ok(());
    }
    add_to_target(layer, sign, to, amount, world, run)
}

/// Adds an amount to a place that is stored first, or takes it away.
#[cycle(evaluate)]
#[inline(never)]
pub(crate) fn add_to_target<W: World>(
    layer: Layer<'_>,
    sign: Sign,
    to: &Lvalue,
    amount: Amount<'_>,
    world: &mut W,
    run: &mut Run<'_>,
) -> Result<(), Halt>
    ensures left { run.new.left ≤ run.old.left }
    ensures outcome { Yields (λ _. tt)
        (bind (aim_of W.calls (eres_in layer.entry) (enter_in W.calls layer.entry)
        (place_view to.now)) (λ aim. bind
        (amount_of W.calls (eres_in layer.entry) (enter_in W.calls layer.entry)
        amount.entry) (add_at W.calls sign aim))
        (moment (W.state world.old) run.old)) result (moment (W.state world.new) run.new) }
{
    let target = place(layer, to, world, run)?;
    let number = amount_number(layer, amount, world, run)?;
    add_to_place(sign, &target, number, world, run)?;
    give_back_target(&mut run.spare, target);
    Ok(())
}

/// Assigns the value of an expression to a place.
#[cycle(evaluate)]
#[inline(always)]
pub(crate) fn set<W: World>(
    layer: Layer<'_>,
    to: &Lvalue,
    e: &Expr,
    world: &mut W,
    run: &mut Run<'_>,
) -> Result<(), Halt>
    ensures left { run.new.left ≤ run.old.left }
    ensures outcome { Yields (λ _. tt)
        (act W.calls (eres_in layer.entry) (enter_in W.calls layer.entry)
        (actions.set (place_view to.now) (view e.now))
        (moment (W.state world.old) run.old)) result (moment (W.state world.new) run.new) }
{
    if let Lvalue::Global(slot) = to {
        if let Expr::Numeric(n) = e {
            let number = numeric(layer, n, world, run)?;
            return world.set_scalar(*slot, ValueRef::Num(number));
        }
    }
    if assign_in_place(to, e, world, run)? {
        return Ok(());
    }
    set_elsewhere(layer, to, e, world, run)
}

/// Assigns the value of an expression, which is stored first, to a place. A key that is a number is
/// not copied where the value is one too.
#[cycle(evaluate)]
#[inline(never)]
pub(crate) fn set_elsewhere<W: World>(
    layer: Layer<'_>,
    to: &Lvalue,
    e: &Expr,
    world: &mut W,
    run: &mut Run<'_>,
) -> Result<(), Halt>
    ensures left { run.new.left ≤ run.old.left }
    ensures outcome { Yields (λ _. tt)
        (act W.calls (eres_in layer.entry) (enter_in W.calls layer.entry)
        (actions.set (place_view to.now) (view e.now))
        (moment (W.state world.old) run.old)) result (moment (W.state world.new) run.new) }
{
    if let Some(answer) = leaf_set(to, e, world, run) {
        return answer;
    }
    let target = place(layer, to, world, run)?;
    let mut bytes = take_buffer(run.alloc, &mut run.spare);
    let held = eval(layer, e, &mut bytes, world, run)?;
    write_place(&target, lend_held(held, &bytes), world, run)?;
    give_back(&mut run.spare, bytes);
    give_back_target(&mut run.spare, target);
    Ok(())
}
