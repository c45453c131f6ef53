//! How places are changed.

ghost use Rattle.std.specs.Prelude.{◌≡◌, ◌≤◌, ◌<◌, ◌^◌, [], IfSome, Ok, OnOk, pos, slice_set};
ghost use Rattle.pawk_value.specs.Value.{Num, lent_value};
ghost use Rattle.pawk_value.specs.Conversion.{text_of};
ghost use Rattle.pawk_code.specs.Expressions.{field};
ghost use Rattle.pawk_code.specs.ExpressionViews.{leaf_view};
ghost use Rattle.pawk_builtins.specs.Replaces.{Left};
ghost use Rattle.pawk_store.specs.Builtins.{Replaced};
ghost use Rattle.pawk_store.specs.Meaning.{place_of_match, put_replaced, set_match, value_of_leaf};
ghost use Rattle.pawk_store.specs.Places.{
  add_at,
  cell,
  change_at,
  element_of,
  field_value,
  parameter,
  write_at,
};
ghost use Rattle.pawk_world.specs.Worlds.{element};
ghost use Rattle.pawk_store.specs.Parts.{as_number, as_text, bind};
ghost use Rattle.pawk_store.specs.Parts as parts;
ghost use Rattle.pawk_runtime.specs.Moments.{aim_view, hold_of, holds_of, moment, table_view};
ghost use Rattle.pawk_runtime.specs.Yields.{Yields};

use crate::leaves::{leaf_number, lend_parameter};
use crate::locals;
use crate::reading::old_number;
use crate::run::{Parameter, Run, take_buffer};
use crate::scalars::scalar_text;
use crate::target::{ArrayReference, Target, element_target, give_back_target};
use itoa::Buffer;
use pawk_code::leaf::Leaf;
use pawk_code::slots::{FS, OFS};
use pawk_code::word::Sign;
use pawk_value::{
    Fault, LENGTH_LIMIT, Op, Value, ValueRef, arith, assign, copy_lent, push_text_lent, text_in,
    to_num_lent,
};
use pawk_world::{Halt, World, op_of};
use std::alloc::{AllocError, Global};

/// Gives a parameter a value, in the space that it has for its text.
fn assign_parameter(
    alloc: Global,
    parameter: &mut Parameter,
    value: ValueRef<'_>,
) -> Result<(), AllocError>
    ensures { OnOk result (hold_of parameter.new ≡ parts.value (lent_value value.entry)) }
{
    match parameter {
        Parameter::Value(old) => assign(alloc, old, value),
        Parameter::Global(_) | Parameter::Local(_) => {
            *parameter = Parameter::Value(copy_lent(alloc, value)?);
            Ok(())
        }
    }
}

/// Gives the parameter of a number a value, if there is one.
fn set_parameter(
    alloc: Global,
    frame: &mut Vec<Parameter>,
    number: usize,
    value: ValueRef<'_>,
) -> Result<(), AllocError>
    ensures { OnOk result (holds_of frame.new.items
        ≡ slice_set (holds_of frame.old.items) number (parts.value (lent_value value.entry))) }
{
    if number < frame.len() {
        assign_parameter(alloc, &mut frame[number], value)?;
    }
    Ok(())
}

/// Gives a parameter a number.
#[inline(always)]
fn become_number(parameter: &mut Parameter, number: i64)
    ensures { hold_of parameter.new ≡ parts.value (Num number) }
{
    *parameter = Parameter::Value(Value::Num(number));
}

/// Gives the parameter of a place in a frame a number, if there is one.
#[inline(always)]
fn put_number(frame: &mut Vec<Parameter>, place: usize, number: i64)
    ensures { holds_of frame.new.items
        ≡ slice_set (holds_of frame.old.items) place (parts.value (Num number)) }
{
    if place < frame.len() {
        become_number(&mut frame[place], number);
    }
}

/// Assigns a number to a parameter.
#[inline(always)]
pub(crate) fn set_parameter_number<W: World>(
    place: usize,
    number: i64,
    world: &W,
    run: &mut Run<'_>,
) -> Result<(), Halt>
    ensures left { run.new.left ≤ run.old.left }
    ensures outcome { Yields (λ _. tt)
        (write_at W.calls (parameter place) (Num number)
        (moment (W.state world.now) run.old)) result (moment (W.state world.now) run.new) }
{
    put_number(&mut run.frame, place, number);
    Ok(())
}

/// Assigns a value to the record: its fields are those by FS as it is now.
fn assign_record<W: World>(value: ValueRef<'_>, world: &W, run: &mut Run<'_>) -> Result<(), Halt>
    ensures left { run.new.left ≤ run.old.left }
    ensures outcome { Yields (λ _. tt)
        (field_value W.calls 0 (lent_value value.entry)
        (moment (W.state world.now) run.old)) result (moment (W.state world.now) run.new) }
{
    let mut number = Buffer::new();
    let mut separator = Buffer::new();
    let paragraph = run.state.is_paragraph();
    let text = text_in(value, &mut number);
    let fs = scalar_text(FS, world, &mut separator);
    run.state.line.assign_text(text, fs, paragraph)?;
    Ok(())
}

/// Assigns a value to the field with index `n`; 0 is the record.
fn assign_field<W: World>(
    n: usize,
    value: ValueRef<'_>,
    world: &W,
    run: &mut Run<'_>,
) -> Result<(), Halt>
    ensures left { run.new.left ≤ run.old.left }
    ensures outcome { Yields (λ _. tt)
        (field_value W.calls n (lent_value value.entry)
        (moment (W.state world.now) run.old)) result (moment (W.state world.now) run.new) }
{
    if n == 0 {
        return assign_record(value, world, run);
    }
    let mut separator = Buffer::new();
    let ofs = scalar_text(OFS, world, &mut separator);
    run.state.line.assign_field(n, value, ofs)?;
    Ok(())
}

/// Assigns a value to a place.
///
/// Faults of assigning a field or the record: `field`, `length`, `fs`, `ere`.
///
/// POSIX.1-2017, awk, "Expressions in awk" and "Variables and Special Variables".
pub fn write_place<W: World>(
    target: &Target,
    value: ValueRef<'_>,
    world: &mut W,
    run: &mut Run<'_>,
) -> Result<(), Halt>
    ensures left { run.new.left ≤ run.old.left }
    ensures outcome { Yields (λ _. tt)
        (write_at W.calls (aim_view target.now) (lent_value value.entry)
        (moment (W.state world.old) run.old)) result (moment (W.state world.new) run.new) }
{
    match target {
        Target::Parameter(number) => {
            Ok(set_parameter(run.alloc, &mut run.frame, *number, value)?)
        }
        Target::Scalar(slot) => world.set_scalar(*slot, value),
        Target::Element(slot, key) => world.set_element(*slot, key.as_slice(), value),
        Target::LocalElement(number, key) => Ok(locals::set_element(
            &mut run.arrays,
            *number,
            key.as_slice(),
            value,
        )?),
        Target::Field(n) => assign_field(*n, value, world, run),
        Target::Nowhere => Ok(()),
    }
}

/// Changes a place by an operation with an amount, and gives the old number and the new one. The old
/// value is converted first; then a fault of the amount's conversion comes, then one of the operation.
pub fn change_place<W: World>(
    op: Op,
    target: &Target,
    amount: Result<i64, Fault>,
    world: &mut W,
    run: &mut Run<'_>,
) -> Result<(i64, i64), Halt>
    ensures left { run.new.left ≤ run.old.left }
    ensures outcome { Yields (λ numbers. numbers)
        (change_at W.calls op (aim_view target.now) amount
        (moment (W.state world.old) run.old)) result (moment (W.state world.new) run.new) }
{
    let number = old_number(target, world, run)?;
    let old = number?;
    let amount = amount?;
    let new = arith(op, old, amount)?;
    write_place(target, ValueRef::Num(new), world, run)?;
    Ok((old, new))
}

/// Adds an amount to a parameter, or takes it away, as [`change_place`] does; the value is dropped.
pub fn add_to_parameter<W: World>(
    sign: Sign,
    number: usize,
    amount: Result<i64, Fault>,
    world: &mut W,
    run: &mut Run<'_>,
) -> Result<(), Halt>
    ensures left { run.new.left ≤ run.old.left }
    ensures outcome { Yields (λ _. tt)
        (add_at W.calls sign (parameter number) amount
        (moment (W.state world.old) run.old)) result (moment (W.state world.new) run.new) }
{
    let old = to_num_lent(lend_parameter(run.frame.as_slice(), number))?;
    let amount = amount?;
    let new = arith(op_of(sign), old, amount)?;
    put_number(&mut run.frame, number, new);
    Ok(())
}

/// Adds an amount to a place, or takes it away, as [`change_place`] does; the value is dropped.
pub fn add_to_place<W: World>(
    sign: Sign,
    target: &Target,
    amount: Result<i64, Fault>,
    world: &mut W,
    run: &mut Run<'_>,
) -> Result<(), Halt>
    ensures left { run.new.left ≤ run.old.left }
    ensures outcome { Yields (λ _. tt)
        (add_at W.calls sign (aim_view target.now) amount
        (moment (W.state world.old) run.old)) result (moment (W.state world.new) run.new) }
{
    match target {
        Target::Scalar(slot) => world.add_scalar(*slot, sign, amount),
        Target::Element(slot, key) => world.add_element(*slot, key.as_slice(), sign, amount),
        Target::Parameter(number) => add_to_parameter(sign, *number, amount, world, run),
        _ => {
            let _numbers = change_place(op_of(sign), target, amount, world, run)?;
            Ok(())
        }
    }
}

/// Adds an amount to the element of an array with this key, or takes it away, as [`add_to_place`] does.
#[inline(always)]
pub fn add_to_key<W: World>(
    sign: Sign,
    table: ArrayReference,
    key: &[u8],
    amount: Result<i64, Fault>,
    world: &mut W,
    run: &mut Run<'_>,
) -> Result<(), Halt>
    ensures left { run.new.left ≤ run.old.left }
    ensures outcome { Yields (λ _. tt)
        (add_at W.calls sign (element_of (table_view table) key.now) amount
        (moment (W.state world.old) run.old)) result (moment (W.state world.new) run.new) }
{
    if let ArrayReference::Global(slot) = table {
        return world.add_element(slot, key, sign, amount);
    }
    let mut bytes = take_buffer(run.alloc, &mut run.spare);
    bytes.extend_from_slice(key)?;
    add_to_place(sign, &element_target(table, bytes), amount, world, run)
}

/// Adds an amount to the element of an array whose key is the text of a number.
#[inline(always)]
pub fn add_to_number<W: World>(
    sign: Sign,
    table: ArrayReference,
    key: i64,
    amount: Result<i64, Fault>,
    world: &mut W,
    run: &mut Run<'_>,
) -> Result<(), Halt>
    ensures left { run.new.left ≤ run.old.left }
    ensures outcome { Yields (λ _. tt)
        (add_at W.calls sign (element_of (table_view table) (text_of (Num key))) amount
        (moment (W.state world.old) run.old)) result (moment (W.state world.new) run.new) }
{
    let mut buffer = Buffer::new();
    add_to_key(
        sign,
        table,
        buffer.format(key).as_bytes(),
        amount,
        world,
        run,
    )
}

/// Adds an amount to the element of an array whose key is the text of a field, which is not copied.
#[inline(always)]
pub fn add_to_field_key<W: World>(
    sign: Sign,
    table: ArrayReference,
    n: usize,
    amount: Result<i64, Fault>,
    world: &mut W,
    run: &mut Run<'_>,
) -> Result<(), Halt>
    ensures left { run.new.left ≤ run.old.left }
    ensures outcome { Yields (λ _. tt)
        (bind (as_text [] (value_of_leaf W.calls (field n)))
        (λ key. add_at W.calls sign (element_of (table_view table) key) amount)
        (moment (W.state world.old) run.old)) result (moment (W.state world.new) run.new) }
{
    run.state.line.prepare(n)?;
    if let ArrayReference::Global(slot) = table {
        if let ValueRef::Maybe(key) = run.state.line.field(n) {
            return world.add_element(slot, key, sign, amount);
        }
    }
    add_to_laid_key(sign, table, n, amount, world, run)
}

/// Adds the number of a leaf to the element whose key is the text of a field, or takes it away. The key
/// is not copied.
#[inline(never)]
pub fn add_leaf_at_field<W: World>(
    sign: Sign,
    table: ArrayReference,
    n: usize,
    amount: &Leaf,
    world: &mut W,
    run: &mut Run<'_>,
) -> Result<(), Halt>
    ensures left { run.new.left ≤ run.old.left }
    ensures outcome { Yields (λ _. tt)
        (bind (as_text [] (value_of_leaf W.calls (field n)))
        (λ key. bind (as_number (value_of_leaf W.calls (leaf_view amount.now)))
        (add_at W.calls sign (element_of (table_view table) key)))
        (moment (W.state world.old) run.old)) result (moment (W.state world.new) run.new) }
{
    let amount = leaf_number(amount, world, run)?;
    add_to_field_key(sign, table, n, amount, world, run)
}

/// Adds 1 to the element whose key is the text of a field, or takes it away. The key is not copied.
#[inline(never)]
pub fn tally_at_field<W: World>(
    sign: Sign,
    table: ArrayReference,
    n: usize,
    world: &mut W,
    run: &mut Run<'_>,
) -> Result<(), Halt>
    ensures left { run.new.left ≤ run.old.left }
    ensures outcome { Yields (λ _. tt)
        (bind (as_text [] (value_of_leaf W.calls (field n)))
        (λ key. add_at W.calls sign (element_of (table_view table) key) (Ok (pos 1)))
        (moment (W.state world.old) run.old)) result (moment (W.state world.new) run.new) }
{
    add_to_field_key(sign, table, n, Ok(1), world, run)
}

/// Adds an amount to the element of an array whose key is the text of a field, which is copied.
#[inline(never)]
fn add_to_laid_key<W: World>(
    sign: Sign,
    table: ArrayReference,
    n: usize,
    amount: Result<i64, Fault>,
    world: &mut W,
    run: &mut Run<'_>,
) -> Result<(), Halt>
    ensures left { run.new.left ≤ run.old.left }
    ensures outcome { Yields (λ _. tt)
        (bind (as_text [] (value_of_leaf W.calls (field n)))
        (λ key. add_at W.calls sign (element_of (table_view table) key) amount)
        (moment (W.state world.old) run.old)) result (moment (W.state world.new) run.new) }
{
    run.state.line.prepare(n)?;
    let mut bytes = take_buffer(run.alloc, &mut run.spare);
    push_text_lent(run.state.line.field(n), &mut bytes)?;
    let target = element_target(table, bytes);
    add_to_place(sign, &target, amount, world, run)?;
    give_back_target(&mut run.spare, target);
    Ok(())
}

/// Assigns a number to the element of a global array whose key is the text of a number.
pub fn set_at_number<W: World>(
    slot: usize,
    key: i64,
    value: i64,
    world: &mut W,
    run: &mut Run<'_>,
) -> Result<(), Halt>
    ensures left { run.new.left ≤ run.old.left }
    ensures outcome { Yields (λ _. tt)
        (write_at W.calls (cell (element slot (text_of (Num key)))) (Num value)
        (moment (W.state world.old) run.old)) result (moment (W.state world.new) run.new) }
{
    let mut buffer = Buffer::new();
    world.set_element(slot, buffer.format(key).as_bytes(), ValueRef::Num(value))
}

/// Assigns to a place the text in which `count` matches were replaced, if there are some, and gives how
/// many.
///
/// Fault `length` where the text is longer than a text may be, and those of assigning.
///
/// POSIX.1-2017, awk, "String Functions" (`sub`, `gsub`).
pub fn put_text<W: World>(
    target: &Target,
    count: usize,
    text: &[u8],
    world: &mut W,
    run: &mut Run<'_>,
) -> Result<i64, Halt>
    requires few { count < 2 ^ 63 }
    ensures left { run.new.left ≤ run.old.left }
    ensures outcome { (r : Replaced) → Left text.now count (Ok r)
        → Yields (λ number. number) (put_replaced W.calls (aim_view target.now) r
        (moment (W.state world.old) run.old)) result (moment (W.state world.new) run.new) }
{
    if count == 0 {
        return Ok(0);
    }
    if text.len() > LENGTH_LIMIT {
        return Err(Halt::Fault(Fault::Length));
    }
    write_place(target, ValueRef::Text(text), world, run)?;
    Ok(count as i64)
}

/// Sets RSTART and RLENGTH to where a match is, and gives RSTART.
///
/// POSIX.1-2017, awk, "String Functions" (`match`).
pub fn set_match_place<W: World>(
    found: Option<(usize, usize)>,
    world: &W,
    run: &mut Run<'_>,
) -> Result<i64, Halt>
    requires { IfSome found (λ m. (m.0 ≤ m.1) × (m.1 < 2 ^ 63)) }
    ensures left { run.new.left ≤ run.old.left }
    ensures outcome { Yields (λ begin. begin) (set_match (place_of_match found)
        (moment (W.state world.now) run.old)) result (moment (W.state world.now) run.new) }
{
    let (begin, length) = match found {
        Some((begin, end)) => (
            (begin as i64).checked_add(1).ok_or(AllocError)?,
            (end - begin) as i64,
        ),
        None => (0, -1),
    };
    run.state.rstart = begin;
    run.state.rlength = length;
    Ok(begin)
}
