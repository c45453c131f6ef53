//! Leaves of expressions: what is read without an effect and without a fault.

ghost use Rattle.std.specs.Prelude.{◌≡◌, ◌≤◌, ◌++◌, [], IfOk, IfSome, Ok, OnOk, length, pos};
ghost use Rattle.pawk_world.specs.Sums.{arith_by};
ghost use Rattle.pawk_value.specs.Held.{added, held_value};
ghost use Rattle.pawk_value.specs.Conversion.{text_of};
ghost use Rattle.pawk_value.specs.Value.{Num, lent_value, shown};
ghost use Rattle.pawk_code.specs.ExpressionViews.{leaf_view};
ghost use Rattle.pawk_code.specs.declared.leaf.Special.TheVariants.{Nf};
ghost use Rattle.pawk_store.specs.RecordStates.{special_value};
ghost use Rattle.pawk_store.specs.StateViews.{state_of};
ghost use Rattle.pawk_store.specs.Parts.{as_number, as_text, as_truth, bind, give, local_at, settle};
ghost use Rattle.pawk_store.specs.Builtins.{related};
ghost use Rattle.pawk_store.specs.Builtins as builtins;
ghost use Rattle.pawk_store.specs.Meaning.{value_of_leaf};
ghost use Rattle.pawk_store.specs.Meaning as meaning;
ghost use Rattle.pawk_runtime.specs.Moments.{holds_of, moment};
ghost use Rattle.pawk_runtime.specs.Ready.{IsReady};
ghost use Rattle.pawk_runtime.specs.Yields.{Yields};

use crate::arithmetic::result_of;
use crate::run::{Parameter, Run, take_buffer, value_with};
use itoa::Buffer;
use pawk_builtins::{holds_for, index};
use pawk_code::leaf::{Leaf, Special};
use pawk_code::word::Relation;
use pawk_store::RecordState;
use pawk_value::{
    Fault, Held, Op, Value, ValueRef, compare_lent, hold, lend, push_text_lent, text_in,
    to_num_lent, truth_lent,
};
use pawk_world::{Halt, World};
use std::alloc::AllocError;

/// Makes a leaf ready to be lent. The state stays.
#[inline(always)]
pub(crate) fn prepare_leaf(leaf: &Leaf, state: &mut RecordState<'_>) -> Result<(), AllocError>
    ensures same { state_of state.new ≡ state_of state.old }
    ensures more { state.old.line.found ≤ state.new.line.found }
    ensures ready { OnOk result (IsReady leaf.now state.new) }
{
    match leaf {
        Leaf::Special(variable) => state.prepare_special(*variable),
        Leaf::Field(n) => state.line.prepare(*n),
        Leaf::Number(_) | Leaf::Text(_) | Leaf::Global(_) | Leaf::Local(_) => Ok(()),
    }
}

/// How many fields the record has (`NF`); they need not be looked for. The state stays.
///
/// Memory is refused also where it is 2^63 or more, which no memory holds.
fn field_count(state: &mut RecordState<'_>) -> Result<i64, AllocError>
    ensures same { state_of state.new ≡ state_of state.old }
    ensures number { IfOk result (λ number. special_value Nf (state_of state.old) ≡ Num number) }
{
    let count = state.line.field_count()?;
    match i64::try_from(count) {
        Ok(number) => Ok(number),
        Err(_) => Err(AllocError),
    }
}

/// The value of a leaf, which is lent.
#[inline(always)]
pub(crate) fn lend_leaf<'a, W: World>(
    leaf: &'a Leaf,
    world: &'a W,
    run: &'a Run<'_>,
) -> ValueRef<'a>
    requires { IsReady leaf.now run.now.state }
    ensures { lent_value result ≡ meaning.leaf_value W.calls (leaf_view leaf.now)
        (moment (W.state world.now) run.now) }
{
    match leaf {
        Leaf::Number(number) => ValueRef::Num(*number),
        Leaf::Text(text) => ValueRef::Text(text.as_slice()),
        Leaf::Global(slot) => world.scalar(*slot),
        Leaf::Local(number) => lend_parameter(run.frame.as_slice(), *number),
        Leaf::Special(variable) => run.state.special(*variable),
        Leaf::Field(n) => run.state.line.field(*n),
    }
}

/// The value of a parameter, which is lent; none where there is no such parameter, or it is an
/// array.
#[inline(always)]
pub(crate) fn lend_parameter(frame: &[Parameter], number: usize) -> ValueRef<'_>
    ensures { lent_value result ≡ local_at (holds_of frame.now) number }
{
    match frame.get(number) {
        Some(Parameter::Value(value)) => lend(value),
        _ => ValueRef::Uninit,
    }
}

/// The number that a value is, if it is one.
#[inline(always)]
fn number_in(value: ValueRef<'_>) -> Option<i64>
    ensures { IfSome result (λ number. lent_value value.entry ≡ Num number) }
{
    match value {
        ValueRef::Num(number) => Some(number),
        _ => None,
    }
}

/// The number that a leaf is, if it is one for which nothing has to be looked for.
#[inline(always)]
pub fn plain_number<W: World>(leaf: &Leaf, world: &W, run: &Run<'_>) -> Option<i64>
    ensures { IfSome result (λ number. meaning.leaf_value W.calls (leaf_view leaf.now)
        (moment (W.state world.now) run.now) ≡ Num number) }
{
    match leaf {
        Leaf::Number(number) => Some(*number),
        Leaf::Global(slot) => number_in(world.scalar(*slot)),
        Leaf::Local(number) => number_in(lend_parameter(run.frame.as_slice(), *number)),
        Leaf::Special(Special::Nr) => i64::try_from(run.state.nr).ok(),
        Leaf::Special(Special::Fnr) => i64::try_from(run.state.fnr).ok(),
        Leaf::Special(Special::Nf) => i64::try_from(run.state.line.found_count()?).ok(),
        _ => None,
    }
}

/// The number of a leaf, or the fault of its conversion.
#[inline(always)]
pub fn leaf_number<W: World>(
    leaf: &Leaf,
    world: &W,
    run: &mut Run<'_>,
) -> Result<Result<i64, Fault>, Halt>
    ensures left { run.new.left ≤ run.old.left }
    ensures outcome { Yields (λ number. number)
        (as_number (value_of_leaf W.calls (leaf_view leaf.now))
        (moment (W.state world.now) run.old)) result (moment (W.state world.now) run.new) }
{
    if let Leaf::Field(_) = leaf {
        return lent_number(leaf, world, run);
    }
    if let Some(number) = plain_number(leaf, world, run) {
        return Ok(Ok(number));
    }
    lent_number(leaf, world, run)
}

/// The number of a leaf, as [`leaf_number`], which is looked for.
#[inline(always)]
pub fn lent_number<W: World>(
    leaf: &Leaf,
    world: &W,
    run: &mut Run<'_>,
) -> Result<Result<i64, Fault>, Halt>
    ensures same { moment (W.state world.now) run.new ≡ moment (W.state world.now) run.old }
    ensures left { run.new.left ≤ run.old.left }
    ensures outcome { Yields (λ number. number)
        (as_number (value_of_leaf W.calls (leaf_view leaf.now))
        (moment (W.state world.now) run.old)) result (moment (W.state world.now) run.new) }
{
    if let Leaf::Field(n) = leaf {
        run.state.line.prepare(*n)?;
        return Ok(to_num_lent(run.state.line.field(*n)));
    }
    if let Leaf::Special(Special::Nf) = leaf {
        return Ok(Ok(field_count(&mut run.state)?));
    }
    prepare_leaf(leaf, &mut run.state)?;
    Ok(to_num_lent(lend_leaf(leaf, world, run)))
}

/// The truth of a leaf, or the fault of its conversion.
pub fn leaf_truth<W: World>(
    leaf: &Leaf,
    world: &W,
    run: &mut Run<'_>,
) -> Result<Result<bool, Fault>, Halt>
    ensures left { run.new.left ≤ run.old.left }
    ensures outcome { Yields (λ truth. truth)
        (as_truth (value_of_leaf W.calls (leaf_view leaf.now))
        (moment (W.state world.now) run.old)) result (moment (W.state world.now) run.new) }
{
    if let Leaf::Special(Special::Nf) = leaf {
        return Ok(truth_lent(ValueRef::Num(field_count(&mut run.state)?)));
    }
    prepare_leaf(leaf, &mut run.state)?;
    Ok(truth_lent(lend_leaf(leaf, world, run)))
}

/// The length of the text of a leaf in bytes. Nothing is copied.
///
/// POSIX.1-2017, awk, "String Functions" (`length`).
#[inline(always)]
pub fn leaf_length<W: World>(leaf: &Leaf, world: &W, run: &mut Run<'_>) -> Result<i64, Halt>
    ensures same { moment (W.state world.now) run.new ≡ moment (W.state world.now) run.old }
    ensures left { run.new.left ≤ run.old.left }
    ensures outcome { Yields (λ number. number)
        (bind (as_text [] (value_of_leaf W.calls (leaf_view leaf.now))) (λ s. give (pos (length s)))
        (moment (W.state world.now) run.old)) result (moment (W.state world.now) run.new) }
{
    prepare_leaf(leaf, &mut run.state)?;
    let mut buffer = Buffer::new();
    Ok(text_in(lend_leaf(leaf, world, run), &mut buffer).len() as i64)
}

/// Appends the text of a value that is seldom in a field.
#[inline(never)]
fn push_other_text(value: ValueRef<'_>, out: &mut Vec<u8>) -> Result<(), AllocError>
    ensures { OnOk result
        (out.new.items ≡ out.old.items ++ text_of (lent_value value.entry)) }
{
    push_text_lent(value, out)
}

/// Appends the text of a leaf.
#[inline(always)]
pub fn leaf_text<W: World>(
    leaf: &Leaf,
    out: &mut Vec<u8>,
    world: &W,
    run: &mut Run<'_>,
) -> Result<(), Halt>
    ensures left { run.new.left ≤ run.old.left }
    ensures outcome { Yields (λ _. out.new.items)
        (as_text out.old.items (value_of_leaf W.calls (leaf_view leaf.now))
        (moment (W.state world.now) run.old)) result (moment (W.state world.now) run.new) }
{
    if let Leaf::Field(n) = leaf {
        run.state.line.prepare(*n)?;
        match run.state.line.field(*n) {
            ValueRef::Maybe(text) => out.extend_from_slice(text)?,
            value => push_other_text(value, out)?,
        }
        return Ok(());
    }
    if let Leaf::Special(Special::Nf) = leaf {
        push_text_lent(ValueRef::Num(field_count(&mut run.state)?), out)?;
        return Ok(());
    }
    prepare_leaf(leaf, &mut run.state)?;
    push_text_lent(lend_leaf(leaf, world, run), out)?;
    Ok(())
}

/// Stores the value of a leaf: its bytes are appended to `out`.
pub fn leaf_value<W: World>(
    leaf: &Leaf,
    out: &mut Vec<u8>,
    world: &W,
    run: &mut Run<'_>,
) -> Result<Held, Halt>
    ensures appended { OnOk result
        (out.new.items ≡ out.old.items ++ added out.old.items out.new.items) }
    ensures left { run.new.left ≤ run.old.left }
    ensures outcome { Yields (λ h. held_value h (added out.old.items out.new.items))
        (value_of_leaf W.calls (leaf_view leaf.now)
        (moment (W.state world.now) run.old)) result (moment (W.state world.now) run.new) }
{
    if let Leaf::Special(Special::Nf) = leaf {
        return Ok(hold(ValueRef::Num(field_count(&mut run.state)?), out)?);
    }
    prepare_leaf(leaf, &mut run.state)?;
    Ok(hold(lend_leaf(leaf, world, run), out)?)
}

/// The value of a leaf, copied.
#[inline(always)]
pub fn leaf_copy<W: World>(leaf: &Leaf, world: &W, run: &mut Run<'_>) -> Result<Value, Halt>
    ensures left { run.new.left ≤ run.old.left }
    ensures outcome { Yields shown (value_of_leaf W.calls (leaf_view leaf.now)
        (moment (W.state world.now) run.old)) result (moment (W.state world.now) run.new) }
{
    if let Some(number) = plain_number(leaf, world, run) {
        return Ok(Value::Num(number));
    }
    if let Leaf::Special(Special::Nf) = leaf {
        return Ok(Value::Num(field_count(&mut run.state)?));
    }
    prepare_leaf(leaf, &mut run.state)?;
    let mut bytes = take_buffer(run.alloc, &mut run.spare);
    let held = hold(lend_leaf(leaf, world, run), &mut bytes)?;
    Ok(value_with(&mut run.spare, held, bytes))
}

/// How two leaves compare. Nothing is copied.
///
/// POSIX.1-2017, awk, "Expressions in awk".
#[inline(always)]
pub fn compare_leaves<W: World>(
    relation: Relation,
    left: &Leaf,
    right: &Leaf,
    world: &W,
    run: &mut Run<'_>,
) -> Result<bool, Halt>
    ensures left { run.new.left ≤ run.old.left }
    ensures outcome { Yields (λ holds. holds)
        (bind (value_of_leaf W.calls (leaf_view left.now)) (λ x.
        bind (value_of_leaf W.calls (leaf_view right.now)) (λ y. settle (related relation x y)))
        (moment (W.state world.now) run.old)) result (moment (W.state world.now) run.new) }
{
    if let Some(x) = plain_number(left, world, run) {
        return compare_number(relation, x, right, world, run);
    }
    compare_lent_leaves(relation, left, right, world, run)
}

/// How two leaves compare, which are looked for.
#[inline(always)]
fn compare_lent_leaves<W: World>(
    relation: Relation,
    left: &Leaf,
    right: &Leaf,
    world: &W,
    run: &mut Run<'_>,
) -> Result<bool, Halt>
    ensures left { run.new.left ≤ run.old.left }
    ensures outcome { Yields (λ holds. holds)
        (bind (value_of_leaf W.calls (leaf_view left.now)) (λ x.
        bind (value_of_leaf W.calls (leaf_view right.now)) (λ y. settle (related relation x y)))
        (moment (W.state world.now) run.old)) result (moment (W.state world.now) run.new) }
{
    if let Leaf::Field(n) = left {
        if let Leaf::Number(y) = right {
            run.state.line.prepare(*n)?;
            let order = compare_lent(run.state.line.field(*n), ValueRef::Num(*y))?;
            return Ok(holds_for(relation, order));
        }
    }
    if let Leaf::Special(Special::Nf) = left {
        let x = field_count(&mut run.state)?;
        return compare_number(relation, x, right, world, run);
    }
    prepare_leaf(left, &mut run.state)?;
    prepare_leaf(right, &mut run.state)?;
    let order = compare_lent(lend_leaf(left, world, run), lend_leaf(right, world, run))?;
    Ok(holds_for(relation, order))
}

/// How two numbers compare.
///
/// POSIX.1-2017, awk, "Expressions in awk".
pub fn related_numbers(relation: Relation, x: i64, y: i64) -> bool
    ensures { related relation (Num x) (Num y) ≡ Ok result }
{
    holds_for(relation, x.cmp(&y))
}

/// How a number and a leaf compare. Nothing is copied.
///
/// POSIX.1-2017, awk, "Expressions in awk".
#[inline(always)]
pub fn compare_number<W: World>(
    relation: Relation,
    x: i64,
    right: &Leaf,
    world: &W,
    run: &mut Run<'_>,
) -> Result<bool, Halt>
    ensures left { run.new.left ≤ run.old.left }
    ensures outcome { Yields (λ holds. holds)
        (bind (value_of_leaf W.calls (leaf_view right.now)) (λ y. settle (related relation (Num x) y))
        (moment (W.state world.now) run.old)) result (moment (W.state world.now) run.new) }
{
    if let Some(y) = plain_number(right, world, run) {
        return Ok(related_numbers(relation, x, y));
    }
    compare_lent_after(relation, x, right, world, run)
}

/// How a number and a leaf compare, which is looked for.
fn compare_lent_after<W: World>(
    relation: Relation,
    x: i64,
    right: &Leaf,
    world: &W,
    run: &mut Run<'_>,
) -> Result<bool, Halt>
    ensures left { run.new.left ≤ run.old.left }
    ensures outcome { Yields (λ holds. holds)
        (bind (value_of_leaf W.calls (leaf_view right.now)) (λ y. settle (related relation (Num x) y))
        (moment (W.state world.now) run.old)) result (moment (W.state world.now) run.new) }
{
    if let Leaf::Special(Special::Nf) = right {
        let y = field_count(&mut run.state)?;
        return Ok(related_numbers(relation, x, y));
    }
    prepare_leaf(right, &mut run.state)?;
    let value = lend_leaf(right, world, run);
    if let ValueRef::Num(y) = value {
        return Ok(related_numbers(relation, x, y));
    }
    let order = compare_lent(ValueRef::Num(x), value)?;
    Ok(holds_for(relation, order))
}

/// The result of an operation on a number and the number of a leaf.
#[inline(always)]
pub fn arithmetic_after<W: World>(
    op: Op,
    x: i64,
    right: &Leaf,
    world: &W,
    run: &mut Run<'_>,
) -> Result<i64, Halt>
    ensures left { run.new.left ≤ run.old.left }
    ensures outcome { Yields (λ number. number)
        (bind (as_number (value_of_leaf W.calls (leaf_view right.now)))
        (λ y. settle (arith_by op (Ok x) y))
        (moment (W.state world.now) run.old)) result (moment (W.state world.now) run.new) }
{
    if let Some(y) = plain_number(right, world, run) {
        return Ok(result_of(op, x, y)?);
    }
    let y = lent_number(right, world, run)?;
    Ok(result_of(op, x, y?)?)
}

/// The place where one text first occurs in another, in bytes counted from 1; 0 where it does not.
///
/// POSIX.1-2017, awk, "String Functions" (`index`).
pub fn place_in(text: &[u8], sought: &[u8]) -> i64
    ensures { result ≡ pos (builtins.index text.now sought.now) }
{
    index(text, sought) as i64
}

/// The place where the text of one leaf first occurs in that of another, in bytes counted from 1; 0
/// where it does not. Nothing is copied.
///
/// POSIX.1-2017, awk, "String Functions" (`index`).
#[inline(always)]
pub fn place_in_leaf<W: World>(
    leaf: &Leaf,
    sought: &Leaf,
    world: &W,
    run: &mut Run<'_>,
) -> Result<i64, Halt>
    ensures same { moment (W.state world.now) run.new ≡ moment (W.state world.now) run.old }
    ensures left { run.new.left ≤ run.old.left }
    ensures outcome { Yields (λ number. number)
        (bind (as_text [] (value_of_leaf W.calls (leaf_view leaf.now))) (λ s.
        bind (as_text [] (value_of_leaf W.calls (leaf_view sought.now))) (λ t.
        give (pos (builtins.index s t))))
        (moment (W.state world.now) run.old)) result (moment (W.state world.now) run.new) }
{
    prepare_leaf(leaf, &mut run.state)?;
    prepare_leaf(sought, &mut run.state)?;
    let mut buffer = Buffer::new();
    let mut other = Buffer::new();
    let text = text_in(lend_leaf(leaf, world, run), &mut buffer);
    Ok(place_in(text, text_in(lend_leaf(sought, world, run), &mut other)))
}
