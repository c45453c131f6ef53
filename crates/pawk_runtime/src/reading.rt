//! How places are read.

ghost use Rattle.std.specs.Prelude.{◌≡◌, ◌≤◌, ◌++◌, [], drop, length, take, OnOk};
ghost use Rattle.pawk_value.specs.Conversion.{text_of};
ghost use Rattle.pawk_value.specs.Held.{added, held_value};
ghost use Rattle.pawk_code.specs.Expressions.{field};
ghost use Rattle.pawk_store.specs.Parts.{as_number, as_text, bind};
ghost use Rattle.pawk_store.specs.Meaning.{value_of_leaf};
ghost use Rattle.pawk_store.specs.Places.{cell, element_of, old_at, read_at};
ghost use Rattle.pawk_world.specs.Worlds.{element};
ghost use Rattle.pawk_runtime.specs.Moments.{aim_view, moment, table_view};
ghost use Rattle.pawk_runtime.specs.Yields.{Yields};

use crate::leaves::lend_parameter;
use crate::locals;
use crate::run::{Run, give_back, take_buffer};
use crate::target::{ArrayReference, Target};
use itoa::Buffer;
use pawk_value::{Fault, Held, ValueRef, hold, lend_held, push_text_lent, text_in, to_num_lent};
use pawk_world::{Halt, World};
use std::alloc::AllocError;

/// Stores the value of a place, which creates an element: its bytes are appended to `out`.
///
/// POSIX.1-2017, awk, "Variables and Special Variables".
pub fn read_place<W: World>(
    target: &Target,
    out: &mut Vec<u8>,
    world: &mut W,
    run: &mut Run<'_>,
) -> Result<Held, Halt>
    ensures appended { OnOk result
        (out.new.items ≡ out.old.items ++ added out.old.items out.new.items) }
    ensures left { run.new.left ≤ run.old.left }
    ensures outcome { Yields (λ h. held_value h (added out.old.items out.new.items))
        (read_at W.calls (aim_view target.now)
        (moment (W.state world.old) run.old)) result (moment (W.state world.new) run.new) }
{
    match target {
        Target::Parameter(number) => {
            Ok(hold(lend_parameter(run.frame.as_slice(), *number), out)?)
        }
        Target::Scalar(slot) => Ok(hold(world.scalar(*slot), out)?),
        Target::Element(slot, key) => world.element(*slot, key.as_slice(), out),
        Target::LocalElement(number, key) => Ok(locals::read_element(
            &mut run.arrays,
            *number,
            key.as_slice(),
            out,
        )?),
        Target::Field(n) => {
            run.state.line.prepare(*n)?;
            Ok(hold(run.state.line.field(*n), out)?)
        }
        Target::Nowhere => Ok(Held::Uninit),
    }
}

/// The number of the value of a place, which is stored.
fn laid_number<W: World>(
    target: &Target,
    world: &mut W,
    run: &mut Run<'_>,
) -> Result<Result<i64, Fault>, Halt>
    ensures left { run.new.left ≤ run.old.left }
    ensures outcome { Yields (λ number. number)
        (as_number (read_at W.calls (aim_view target.now))
        (moment (W.state world.old) run.old)) result (moment (W.state world.new) run.new) }
{
    let mut bytes = take_buffer(run.alloc, &mut run.spare);
    let held = read_place(target, &mut bytes, world, run)?;
    let number = to_num_lent(lend_held(held, bytes.as_slice()));
    give_back(&mut run.spare, bytes);
    Ok(number)
}

/// The number of the value of a place, or the fault of its conversion; the value of a field is not copied.
/// An element is created.
///
/// POSIX.1-2017, awk, "Expressions in awk".
pub fn read_number<W: World>(
    target: &Target,
    world: &mut W,
    run: &mut Run<'_>,
) -> Result<Result<i64, Fault>, Halt>
    ensures left { run.new.left ≤ run.old.left }
    ensures outcome { Yields (λ number. number)
        (as_number (read_at W.calls (aim_view target.now))
        (moment (W.state world.old) run.old)) result (moment (W.state world.new) run.new) }
{
    if let Target::Field(n) = target {
        run.state.line.prepare(*n)?;
        return Ok(to_num_lent(run.state.line.field(*n)));
    }
    laid_number(target, world, run)
}

/// Leaves the text of a value whose bytes were appended after `start` others.
fn leave_text(held: Held, start: usize, out: &mut Vec<u8>) -> Result<(), AllocError>
    requires { start ≤ length out.old.items }
    ensures { OnOk result (out.new.items ≡ take start out.old.items
        ++ text_of (held_value held (drop start out.old.items))) }
{
    match held {
        Held::Text | Held::Maybe => Ok(()),
        Held::Uninit => {
            out.truncate(start);
            Ok(())
        }
        Held::Num(number) => {
            out.truncate(start);
            push_text_lent(ValueRef::Num(number), out)
        }
    }
}

/// Appends the text of the value of a place, which is stored there.
fn push_laid_text<W: World>(
    target: &Target,
    out: &mut Vec<u8>,
    world: &mut W,
    run: &mut Run<'_>,
) -> Result<(), Halt>
    ensures left { run.new.left ≤ run.old.left }
    ensures outcome { Yields (λ _. out.new.items)
        (as_text out.old.items (read_at W.calls (aim_view target.now))
        (moment (W.state world.old) run.old)) result (moment (W.state world.new) run.new) }
{
    let start = out.len();
    let held = read_place(target, out, world, run)?;
    leave_text(held, start, out)?;
    Ok(())
}

/// Appends the text of the value of a place; that of a field is copied once. An element is created.
///
/// POSIX.1-2017, awk, "Expressions in awk".
pub fn push_place_text<W: World>(
    target: &Target,
    out: &mut Vec<u8>,
    world: &mut W,
    run: &mut Run<'_>,
) -> Result<(), Halt>
    ensures left { run.new.left ≤ run.old.left }
    ensures outcome { Yields (λ _. out.new.items)
        (as_text out.old.items (read_at W.calls (aim_view target.now))
        (moment (W.state world.old) run.old)) result (moment (W.state world.new) run.new) }
{
    if let Target::Field(n) = target {
        run.state.line.prepare(*n)?;
        push_text_lent(run.state.line.field(*n), out)?;
        return Ok(());
    }
    push_laid_text(target, out, world, run)
}

/// Stores the value of the element whose key is the text of a field, which is not copied: its
/// bytes are appended to `out`. The element is created.
///
/// POSIX.1-2017, awk, "Variables and Special Variables".
pub fn read_field_element<W: World>(
    table: ArrayReference,
    n: usize,
    out: &mut Vec<u8>,
    world: &mut W,
    run: &mut Run<'_>,
) -> Result<Held, Halt>
    ensures appended { OnOk result
        (out.new.items ≡ out.old.items ++ added out.old.items out.new.items) }
    ensures left { run.new.left ≤ run.old.left }
    ensures outcome { Yields (λ h. held_value h (added out.old.items out.new.items))
        (bind (as_text [] (value_of_leaf W.calls (field n)))
        (λ key. read_at W.calls (element_of (table_view table) key))
        (moment (W.state world.old) run.old)) result (moment (W.state world.new) run.new) }
{
    run.state.line.prepare(n)?;
    let mut buffer = Buffer::new();
    let key = text_in(run.state.line.field(n), &mut buffer);
    match table {
        ArrayReference::None => Ok(Held::Uninit),
        ArrayReference::Global(slot) => world.element(slot, key, out),
        ArrayReference::Local(number) => {
            Ok(locals::read_element(&mut run.arrays, number, key, out)?)
        }
    }
}

/// Appends the text of the element whose key is the text of a field, which is not copied. The element
/// is created.
///
/// POSIX.1-2017, awk, "Variables and Special Variables".
pub fn push_field_element<W: World>(
    table: ArrayReference,
    n: usize,
    out: &mut Vec<u8>,
    world: &mut W,
    run: &mut Run<'_>,
) -> Result<(), Halt>
    ensures left { run.new.left ≤ run.old.left }
    ensures outcome { Yields (λ _. out.new.items)
        (bind (as_text [] (value_of_leaf W.calls (field n)))
        (λ key. as_text out.old.items (read_at W.calls (element_of (table_view table) key)))
        (moment (W.state world.old) run.old)) result (moment (W.state world.new) run.new) }
{
    let start = out.len();
    let held = read_field_element(table, n, out, world, run)?;
    leave_text(held, start, out)?;
    Ok(())
}

/// The number of the element whose key is the text of a field, which is not copied, or the fault of its
/// conversion. The element is created.
///
/// POSIX.1-2017, awk, "Variables and Special Variables".
pub fn field_element_number<W: World>(
    table: ArrayReference,
    n: usize,
    world: &mut W,
    run: &mut Run<'_>,
) -> Result<Result<i64, Fault>, Halt>
    ensures left { run.new.left ≤ run.old.left }
    ensures outcome { Yields (λ number. number)
        (bind (as_text [] (value_of_leaf W.calls (field n)))
        (λ key. as_number (read_at W.calls (element_of (table_view table) key)))
        (moment (W.state world.old) run.old)) result (moment (W.state world.new) run.new) }
{
    let mut bytes = take_buffer(run.alloc, &mut run.spare);
    let held = read_field_element(table, n, &mut bytes, world, run)?;
    let number = to_num_lent(lend_held(held, bytes.as_slice()));
    give_back(&mut run.spare, bytes);
    Ok(number)
}

/// The number of the old value of an element that is assigned, which is created.
fn old_element_number<W: World>(
    slot: usize,
    key: &[u8],
    world: &mut W,
    run: &mut Run<'_>,
) -> Result<Result<i64, Fault>, Halt>
    ensures left { run.new.left ≤ run.old.left }
    ensures outcome { Yields (λ number. number)
        (as_number (old_at W.calls (cell (element slot key.now)))
        (moment (W.state world.old) run.old)) result (moment (W.state world.new) run.new) }
{
    let mut bytes = take_buffer(run.alloc, &mut run.spare);
    let held = world.old_element(slot, key, &mut bytes)?;
    let number = to_num_lent(lend_held(held, bytes.as_slice()));
    give_back(&mut run.spare, bytes);
    Ok(number)
}

/// The number of the old value of a place that is assigned, or the fault of its conversion. An
/// element is created.
pub(crate) fn old_number<W: World>(
    target: &Target,
    world: &mut W,
    run: &mut Run<'_>,
) -> Result<Result<i64, Fault>, Halt>
    ensures left { run.new.left ≤ run.old.left }
    ensures outcome { Yields (λ number. number)
        (as_number (old_at W.calls (aim_view target.now))
        (moment (W.state world.old) run.old)) result (moment (W.state world.new) run.new) }
{
    match target {
        Target::Parameter(number) => {
            Ok(to_num_lent(lend_parameter(run.frame.as_slice(), *number)))
        }
        Target::Scalar(slot) => Ok(to_num_lent(world.scalar(*slot))),
        Target::Element(slot, key) => old_element_number(*slot, key.as_slice(), world, run),
        Target::LocalElement(number, key) => Ok(locals::element_number(
            &mut run.arrays,
            *number,
            key.as_slice(),
        )?),
        Target::Field(n) => {
            run.state.line.prepare(*n)?;
            Ok(to_num_lent(run.state.line.field(*n)))
        }
        Target::Nowhere => Ok(Ok(0)),
    }
}
