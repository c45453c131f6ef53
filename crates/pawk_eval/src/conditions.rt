//! What gives 1 or 0.
//!
//! POSIX.1-2017, awk, "Expressions in awk".

ghost use Rattle.std.specs.Prelude.{◌≤◌};
ghost use Rattle.pawk_code.specs.Expressions as codes;
ghost use Rattle.pawk_code.specs.Expressions.{exprs};
ghost use Rattle.pawk_code.specs.ExpressionViews.{pattern_view, test_view, view, views};
ghost use Rattle.pawk_store.specs.Meaning as spec;
ghost use Rattle.pawk_store.specs.Meaning.{truth_of};
ghost use Rattle.pawk_store.specs.Parts.{as_truth, bind, settle};
ghost use Rattle.pawk_runtime.specs.Moments.{moment};
ghost use Rattle.pawk_runtime.specs.Yields.{Yields};
ghost use Rattle.pawk_eval.specs.Contexts.{enter_in, eres_in};

use crate::expressions::{eval, text, truth};
use crate::layer::Layer;
use crate::numbers::numeric;
use crate::operands::operand;
use crate::places::key;
use pawk_builtins::{EreReference, related, same_truth};
use pawk_code::expression::{Expr, Pattern, Test};
use pawk_code::name::Array;
use pawk_code::word::Relation;
use pawk_runtime::{
    Run, compare_leaves, compare_number, element_exists, find_first, give_back, leaf_member,
    plain_number, quick_match, quick_test, related_numbers, table_of, take_buffer,
};
use pawk_value::lend_held;
use pawk_world::{Halt, World};

/// Whether an expression is true.
///
/// It halts as [`execute`](crate::execute) does, and with the fault of its conversion.
///
/// POSIX.1-2017, awk, "Expressions in awk".
#[cycle(evaluate)]
#[inline(always)]
pub fn holds<W: World>(
    layer: Layer<'_>,
    e: &Expr,
    world: &mut W,
    run: &mut Run<'_>,
) -> Result<bool, Halt>
    ensures left { run.new.left ≤ run.old.left }
    ensures outcome { Yields (λ holds. holds)
        (bind (as_truth (spec.eval W.calls (eres_in layer.entry)
        (enter_in W.calls layer.entry) (view e.now))) settle
        (moment (W.state world.old) run.old)) result (moment (W.state world.new) run.new) }
{
    if let Some(holds) = quick_test(layer.context.code.expressions.as_slice(), e, world, run) {
        return Ok(holds);
    }
    let truth = truth(layer, e, world, run)?;
    Ok(truth?)
}

/// What gives 1 or 0.
#[cycle(evaluate)]
#[inline(always)]
pub(crate) fn test<W: World>(
    layer: Layer<'_>,
    t: &Test,
    world: &mut W,
    run: &mut Run<'_>,
) -> Result<bool, Halt>
    ensures left { run.new.left ≤ run.old.left }
    ensures outcome { Yields (λ holds. holds)
        (truth_of W.calls (eres_in layer.entry) (enter_in W.calls layer.entry)
        (test_view t.now)
        (moment (W.state world.old) run.old)) result (moment (W.state world.new) run.new) }
{
    match t {
        Test::Compare(relation, a, b) => compare(layer, *relation, a, b, world, run),
        Test::And(a, b) => { Ok(holds(layer, a, world, run)? && holds(layer, b, world, run)?) }
        Test::Or(a, b) => { Ok(holds(layer, a, world, run)? || holds(layer, b, world, run)?) }
        Test::Not(a) => Ok(!holds(layer, a, world, run)?),
        Test::Match(wanted, a, pattern) => matches(layer, *wanted, a, pattern, world, run),
        Test::In(array, keys) => member(layer, *array, keys, world, run),
    }
}

/// How two expressions compare. Nothing of leaves and numbers is copied.
#[cycle(evaluate)]
#[inline(always)]
pub(crate) fn compare<W: World>(
    layer: Layer<'_>,
    relation: Relation,
    a: &Expr,
    b: &Expr,
    world: &mut W,
    run: &mut Run<'_>,
) -> Result<bool, Halt>
    ensures left { run.new.left ≤ run.old.left }
    ensures outcome { Yields (λ holds. holds)
        (truth_of W.calls (eres_in layer.entry) (enter_in W.calls layer.entry)
        (codes.compare relation (view a.now) (view b.now))
        (moment (W.state world.old) run.old)) result (moment (W.state world.new) run.new) }
{
    if let Expr::Leaf(x) = a {
        if let Expr::Leaf(y) = b {
            return compare_leaves(relation, x, y, world, run);
        }
    }
    if let Expr::Leaf(y) = b {
        if let Expr::Numeric(n) = a {
            let x = numeric(layer, n, world, run)?;
            return compare_number(relation, x, y, world, run);
        }
    }
    if let Expr::Leaf(leaf) = a {
        if let Expr::Numeric(n) = b {
            if let Some(x) = plain_number(leaf, world, run) {
                let y = numeric(layer, n, world, run)?;
                return Ok(related_numbers(relation, x, y));
            }
        }
    }
    compare_values(layer, relation, a, b, world, run)
}

/// How two expressions compare, whose values are stored.
#[cycle(evaluate)]
pub(crate) fn compare_values<W: World>(
    layer: Layer<'_>,
    relation: Relation,
    a: &Expr,
    b: &Expr,
    world: &mut W,
    run: &mut Run<'_>,
) -> Result<bool, Halt>
    ensures left { run.new.left ≤ run.old.left }
    ensures outcome { Yields (λ holds. holds)
        (truth_of W.calls (eres_in layer.entry) (enter_in W.calls layer.entry)
        (codes.compare relation (view a.now) (view b.now))
        (moment (W.state world.old) run.old)) result (moment (W.state world.new) run.new) }
{
    let mut left = take_buffer(run.alloc, &mut run.spare);
    let x = eval(layer, a, &mut left, world, run)?;
    let mut right = take_buffer(run.alloc, &mut run.spare);
    let y = eval(layer, b, &mut right, world, run)?;
    let holds = related(relation, lend_held(x, &left), lend_held(y, &right))?;
    give_back(&mut run.spare, left);
    give_back(&mut run.spare, right);
    Ok(holds)
}

/// Whether a text matches, or, where no match is wanted, does not match. Nothing of a field or a variable is copied.
///
/// POSIX.1-2017, awk, "Regular Expressions".
#[cycle(evaluate)]
#[inline(never)]
pub(crate) fn matches<W: World>(
    layer: Layer<'_>,
    wanted: bool,
    e: &Expr,
    pattern: &Pattern,
    world: &mut W,
    run: &mut Run<'_>,
) -> Result<bool, Halt>
    ensures left { run.new.left ≤ run.old.left }
    ensures outcome { Yields (λ holds. holds)
        (truth_of W.calls (eres_in layer.entry) (enter_in W.calls layer.entry)
        (codes.matches wanted (view e.now) (pattern_view pattern.now))
        (moment (W.state world.old) run.old)) result (moment (W.state world.new) run.new) }
{
    let eres = layer.context.code.expressions.as_slice();
    if let Some(holds) = quick_match(eres, wanted, e, pattern, world, run) {
        return Ok(holds);
    }
    let text = text(layer, e, world, run)?;
    let ere = operand(layer, pattern, world, run)?;
    let expression = EreReference {
        eres,
        pattern,
        text: &ere,
    };
    let found = find_first(expression, &text, world, run)?;
    give_back(&mut run.spare, text);
    give_back(&mut run.spare, ere);
    Ok(same_truth(wanted, found.is_some()))
}

/// Whether an array has an element. A key that is a field or a number is not copied.
///
/// POSIX.1-2017, awk, "Expressions in awk" (`in`).
#[cycle(evaluate)]
#[inline(never)]
pub(crate) fn member<W: World>(
    layer: Layer<'_>,
    array: Array,
    keys: &[Expr],
    world: &mut W,
    run: &mut Run<'_>,
) -> Result<bool, Halt>
    ensures left { run.new.left ≤ run.old.left }
    ensures outcome { Yields (λ holds. holds)
        (truth_of W.calls (eres_in layer.entry) (enter_in W.calls layer.entry)
        (codes.member array (exprs (views keys.now)))
        (moment (W.state world.old) run.old)) result (moment (W.state world.new) run.new) }
{
    if let Some(answer) = leaf_member(array, keys, world, run) {
        return answer;
    }
    let key = key(layer, keys, world, run)?;
    let exists = element_exists(table_of(&run.frame, array), &key, world, run)?;
    give_back(&mut run.spare, key);
    Ok(exists)
}
