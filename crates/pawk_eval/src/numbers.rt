//! What gives numbers.
//!
//! POSIX.1-2017, awk, "Expressions in awk" and "Functions".

ghost use Rattle.std.specs.Prelude.{◌≤◌, Ok};
ghost use Rattle.pawk_code.specs.Expressions as codes;
ghost use Rattle.pawk_code.specs.ExpressionViews.{
  fields_view,
  function_view,
  numeric_view,
  pattern_view,
  place_view,
  view,
};
ghost use Rattle.pawk_world.specs.Sums.{arith_by};
ghost use Rattle.pawk_store.specs.Parts.{as_number, bind, settle};
ghost use Rattle.pawk_store.specs.Meaning.{aim_of, eval, function_of, number_of};
ghost use Rattle.pawk_store.specs.Places.{change_at};
ghost use Rattle.pawk_runtime.specs.Moments.{moment};
ghost use Rattle.pawk_runtime.specs.Yields.{Yields};
ghost use Rattle.pawk_eval.specs.Amounts.{amount_of};
ghost use Rattle.pawk_eval.specs.Contexts.{enter_in, eres_in, replacement_view};

use crate::amount::{Amount, amount_number};
use crate::expressions::{number, text};
use crate::layer::Layer;
use crate::operands::operand;
use crate::places::place;
use crate::replacement::Replacement;
use pawk_builtins::{EreReference, step_side, step_sign};
use pawk_code::expression::{Expr, FieldsBy, Lvalue, Numeric, NumericFunction, Pattern};
use pawk_code::name::Array;
use pawk_runtime::{
    LEVELS, Run, SplitSeparator, arithmetic_after, change_place, combine, find_first, give_back,
    give_back_target, leaf_find, leaf_function, place_in, quick_number, result_of, set_match_place,
    split_into, substitute, table_of,
};
use pawk_value::Op;
use pawk_world::{Halt, World, op_of};

/// What gives a number.
#[cycle(evaluate)]
#[inline(always)]
pub(crate) fn numeric<W: World>(
    layer: Layer<'_>,
    n: &Numeric,
    world: &mut W,
    run: &mut Run<'_>,
) -> Result<i64, Halt>
    ensures left { run.new.left ≤ run.old.left }
    ensures outcome { Yields (λ number. number)
        (number_of W.calls (eres_in layer.entry) (enter_in W.calls layer.entry)
        (numeric_view n.now)
        (moment (W.state world.old) run.old)) result (moment (W.state world.new) run.new) }
{
    match n {
        Numeric::Arithmetic(op, a, b) => arithmetic(layer, *op, a, b, world, run),
        Numeric::Sign(sign, a) => { arithmetic_with(layer, op_of(*sign), 0, a, world, run) }
        Numeric::Change(op, to, a) => {
            let numbers = change(layer, *op, to, Amount::Of(a), world, run)?;
            Ok(numbers.1)
        }
        Numeric::Step(step, to) => {
            let op = op_of(step_sign(*step));
            let numbers = change(layer, op, to, Amount::One, world, run)?;
            Ok(step_side(*step, numbers.0, numbers.1))
        }
        Numeric::Function(f) => function(layer, f, world, run),
        Numeric::Split(e, array, by) => split(layer, e, *array, by, world, run),
        Numeric::Replace(count, pattern, e, to) => {
            let parts = Replacement {
                count: *count,
                pattern,
                text: e,
                place: to,
            };
            replace(layer, parts, world, run)
        }
        Numeric::Find(e, pattern) => find(layer, e, pattern, world, run),
    }
}

/// The result of an operation. The number of a leaf is not stored.
#[cycle(evaluate)]
pub(crate) fn arithmetic<W: World>(
    layer: Layer<'_>,
    op: Op,
    a: &Expr,
    b: &Expr,
    world: &mut W,
    run: &mut Run<'_>,
) -> Result<i64, Halt>
    ensures left { run.new.left ≤ run.old.left }
    ensures outcome { Yields (λ number. number)
        (number_of W.calls (eres_in layer.entry) (enter_in W.calls layer.entry)
        (codes.arithmetic op (view a.now) (view b.now))
        (moment (W.state world.old) run.old)) result (moment (W.state world.new) run.new) }
{
    if let Some(x) = quick_number(a, LEVELS, world, run) {
        if let Some(y) = quick_number(b, LEVELS, world, run) {
            return Ok(result_of(op, x, y)?);
        }
        return arithmetic_with(layer, op, x, b, world, run);
    }
    if let Expr::Numeric(n) = a {
        let x = numeric(layer, n, world, run)?;
        return arithmetic_with(layer, op, x, b, world, run);
    }
    let number_a = number(layer, a, world, run)?;
    if let Ok(x) = number_a {
        return arithmetic_with(layer, op, x, b, world, run);
    }
    let number_b = number(layer, b, world, run)?;
    Ok(combine(op, number_a, number_b)?)
}

/// The result of an operation on a number and that of an expression.
#[cycle(evaluate)]
pub(crate) fn arithmetic_with<W: World>(
    layer: Layer<'_>,
    op: Op,
    x: i64,
    b: &Expr,
    world: &mut W,
    run: &mut Run<'_>,
) -> Result<i64, Halt>
    ensures left { run.new.left ≤ run.old.left }
    ensures outcome { Yields (λ number. number)
        (bind (as_number (eval W.calls (eres_in layer.entry)
        (enter_in W.calls layer.entry) (view b.now)))
        (λ y. settle (arith_by op (Ok x) y))
        (moment (W.state world.old) run.old)) result (moment (W.state world.new) run.new) }
{
    if let Expr::Leaf(y) = b {
        return arithmetic_after(op, x, y, world, run);
    }
    if let Expr::Numeric(n) = b {
        let y = numeric(layer, n, world, run)?;
        return Ok(result_of(op, x, y)?);
    }
    let y = number(layer, b, world, run)?;
    Ok(combine(op, Ok(x), y)?)
}

/// Changes a place by an operation with an amount, and gives its old and its new number.
///
/// POSIX.1-2017, awk, "Expressions in awk" (assignment, increment and decrement).
#[cycle(evaluate)]
pub(crate) fn change<W: World>(
    layer: Layer<'_>,
    op: Op,
    to: &Lvalue,
    amount: Amount<'_>,
    world: &mut W,
    run: &mut Run<'_>,
) -> Result<(i64, i64), Halt>
    ensures left { run.new.left ≤ run.old.left }
    ensures outcome { Yields (λ numbers. numbers)
        (bind (aim_of W.calls (eres_in layer.entry) (enter_in W.calls layer.entry)
        (place_view to.now)) (λ aim. bind
        (amount_of W.calls (eres_in layer.entry) (enter_in W.calls layer.entry)
        amount.entry) (change_at W.calls op aim))
        (moment (W.state world.old) run.old)) result (moment (W.state world.new) run.new) }
{
    let target = place(layer, to, world, run)?;
    let y = amount_number(layer, amount, world, run)?;
    let numbers = change_place(op, &target, y, world, run)?;
    give_back_target(&mut run.spare, target);
    Ok(numbers)
}

/// The number that a built-in function of values gives. Nothing is copied where `length` has a leaf, and
/// where `index` has two.
///
/// POSIX.1-2017, awk, "Arithmetic Functions" and "String Functions".
#[cycle(evaluate)]
pub(crate) fn function<W: World>(
    layer: Layer<'_>,
    f: &NumericFunction,
    world: &mut W,
    run: &mut Run<'_>,
) -> Result<i64, Halt>
    ensures left { run.new.left ≤ run.old.left }
    ensures outcome { Yields (λ number. number)
        (function_of W.calls (eres_in layer.entry) (enter_in W.calls layer.entry)
        (function_view f.now)
        (moment (W.state world.old) run.old)) result (moment (W.state world.new) run.new) }
{
    if let Some(answer) = leaf_function(f, world, run) {
        return answer;
    }
    match f {
        NumericFunction::Length(e) => {
            let text = text(layer, e, world, run)?;
            let length = text.len() as i64;
            give_back(&mut run.spare, text);
            Ok(length)
        }
        NumericFunction::Index(e, sought) => {
            let text_e = text(layer, e, world, run)?;
            let text_sought = text(layer, sought, world, run)?;
            let place = place_in(&text_e, &text_sought);
            give_back(&mut run.spare, text_e);
            give_back(&mut run.spare, text_sought);
            Ok(place)
        }
        NumericFunction::Whole(e) => {
            let whole = number(layer, e, world, run)?;
            Ok(whole?)
        }
    }
}

/// Splits a text into an array, and gives how many pieces there are.
///
/// POSIX.1-2017, awk, "String Functions" (`split`).
#[cycle(evaluate)]
pub(crate) fn split<W: World>(
    layer: Layer<'_>,
    e: &Expr,
    array: Array,
    by: &FieldsBy,
    world: &mut W,
    run: &mut Run<'_>,
) -> Result<i64, Halt>
    ensures left { run.new.left ≤ run.old.left }
    ensures outcome { Yields (λ count. count)
        (number_of W.calls (eres_in layer.entry) (enter_in W.calls layer.entry)
        (codes.split (view e.now) array (fields_view by.now))
        (moment (W.state world.old) run.old)) result (moment (W.state world.new) run.new) }
{
    let subject = text(layer, e, world, run)?;
    let separator = match by {
        FieldsBy::Fs | FieldsBy::Fixed(_) => Vec::new(run.alloc),
        FieldsBy::Value(e) => text(layer, e, world, run)?,
    };
    let table = table_of(&run.frame, array);
    let by = SplitSeparator {
        eres: layer.context.code.expressions.as_slice(),
        by,
        text: &separator,
    };
    let count = split_into(table, by, &subject, world, run)?;
    give_back(&mut run.spare, subject);
    give_back(&mut run.spare, separator);
    Ok(count)
}

/// Replaces matches in the text of a place, and gives how many.
///
/// POSIX.1-2017, awk, "String Functions" (`sub`, `gsub`).
#[cycle(evaluate)]
pub(crate) fn replace<W: World>(
    layer: Layer<'_>,
    parts: Replacement<'_>,
    world: &mut W,
    run: &mut Run<'_>,
) -> Result<i64, Halt>
    ensures left { run.new.left ≤ run.old.left }
    ensures outcome { Yields (λ count. count)
        (number_of W.calls (eres_in layer.entry) (enter_in W.calls layer.entry)
        (replacement_view parts.entry)
        (moment (W.state world.old) run.old)) result (moment (W.state world.new) run.new) }
{
    let ere = operand(layer, parts.pattern, world, run)?;
    let replacement = text(layer, parts.text, world, run)?;
    let target = place(layer, parts.place, world, run)?;
    let expression = EreReference {
        eres: layer.context.code.expressions.as_slice(),
        pattern: parts.pattern,
        text: &ere,
    };
    let count = substitute(parts.count, expression, &replacement, &target, world, run)?;
    give_back(&mut run.spare, ere);
    give_back(&mut run.spare, replacement);
    give_back_target(&mut run.spare, target);
    Ok(count)
}

/// Finds the first match in a text, sets RSTART and RLENGTH, and gives RSTART.
///
/// POSIX.1-2017, awk, "String Functions" (`match`).
#[cycle(evaluate)]
pub(crate) fn find<W: World>(
    layer: Layer<'_>,
    e: &Expr,
    pattern: &Pattern,
    world: &mut W,
    run: &mut Run<'_>,
) -> Result<i64, Halt>
    ensures left { run.new.left ≤ run.old.left }
    ensures outcome { Yields (λ begin. begin)
        (number_of W.calls (eres_in layer.entry) (enter_in W.calls layer.entry)
        (codes.find (view e.now) (pattern_view pattern.now))
        (moment (W.state world.old) run.old)) result (moment (W.state world.new) run.new) }
{
    let eres = layer.context.code.expressions.as_slice();
    if let Some(answer) = leaf_find(eres, e, pattern, world, run) {
        return answer;
    }
    let text = text(layer, e, world, run)?;
    let ere = operand(layer, pattern, world, run)?;
    let expression = EreReference {
        eres,
        pattern,
        text: &ere,
    };
    let found = find_first(expression, &text, world, run)?;
    give_back(&mut run.spare, text);
    give_back(&mut run.spare, ere);
    set_match_place(found, world, run)
}
