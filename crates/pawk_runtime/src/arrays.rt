//! What is done with whole arrays and with the keys of them.

ghost use Rattle.std.specs.Prelude.{◌≤◌, [], IfOk};
ghost use Rattle.pawk_value.specs.Conversion.{text_of};
ghost use Rattle.pawk_value.specs.Value.{Num};
ghost use Rattle.pawk_array.specs.Texts.{AreWithin};
ghost use Rattle.pawk_code.specs.Expressions.{field};
ghost use Rattle.pawk_code.specs.ExpressionViews.{fields_view};
ghost use Rattle.pawk_builtins.specs.ExpressionViews.{texts_of};
ghost use Rattle.pawk_builtins.specs.Pieces.{pieces_in};
ghost use Rattle.pawk_store.specs.Parts.{as_text, bind, settle};
ghost use Rattle.pawk_store.specs.Meaning.{fill_from, pieces_of, split_into, value_of_leaf};
ghost use Rattle.pawk_store.specs.Places.{clear_of, holds_in, keys_of, remove_in};
ghost use Rattle.pawk_runtime.specs.Moments.{moment, table_view};
ghost use Rattle.pawk_runtime.specs.Yields.{Yields};

use crate::locals;
use crate::run::Run;
use crate::scalars::scalar_text;
use crate::target::ArrayReference;
use itoa::Buffer;
use pawk_array::Texts;
use pawk_code::expression::FieldsBy;
use pawk_code::slots::FS;
use pawk_value::text_in;
use pawk_world::{Halt, World};
use std::ops::Range;

/// What `split` separates by.
#[derive(Clone, Copy)]
pub struct SplitSeparator<'e> {
    /// What is between the slashes of the program, by numbers.
    pub eres: &'e [Vec<u8>],
    /// Where the separator comes from.
    pub by: &'e FieldsBy,
    /// What it is, where it is a value.
    pub text: &'e [u8],
}

/// Whether an array has an element of this key. None is made.
///
/// POSIX.1-2017, awk, "Expressions in awk" (`in`).
pub fn element_exists<W: World>(
    table: ArrayReference,
    key: &[u8],
    world: &mut W,
    run: &mut Run<'_>,
) -> Result<bool, Halt>
    ensures left { run.new.left ≤ run.old.left }
    ensures outcome { Yields (λ holds. holds)
        (holds_in W.calls (table_view table) key.now
        (moment (W.state world.old) run.old)) result (moment (W.state world.new) run.new) }
{
    match table {
        ArrayReference::None => Ok(false),
        ArrayReference::Global(slot) => world.holds(slot, key),
        ArrayReference::Local(number) => {
            Ok(locals::element_exists(run.arrays.as_slice(), number, key))
        }
    }
}

/// Whether an array has an element whose key is the text of a number, which is not copied.
///
/// POSIX.1-2017, awk, "Expressions in awk" (`in`).
pub fn number_exists<W: World>(
    table: ArrayReference,
    key: i64,
    world: &mut W,
    run: &mut Run<'_>,
) -> Result<bool, Halt>
    ensures left { run.new.left ≤ run.old.left }
    ensures outcome { Yields (λ holds. holds)
        (holds_in W.calls (table_view table) (text_of (Num key))
        (moment (W.state world.old) run.old)) result (moment (W.state world.new) run.new) }
{
    let mut buffer = Buffer::new();
    element_exists(table, buffer.format(key).as_bytes(), world, run)
}

/// Whether an array has an element whose key is the text of a field, which is not copied.
///
/// POSIX.1-2017, awk, "Expressions in awk" (`in`).
#[inline(always)]
pub fn field_exists<W: World>(
    table: ArrayReference,
    n: usize,
    world: &mut W,
    run: &mut Run<'_>,
) -> Result<bool, Halt>
    ensures left { run.new.left ≤ run.old.left }
    ensures outcome { Yields (λ holds. holds)
        (bind (as_text [] (value_of_leaf W.calls (field n)))
        (λ key. holds_in W.calls (table_view table) key)
        (moment (W.state world.old) run.old)) result (moment (W.state world.new) run.new) }
{
    run.state.line.prepare(n)?;
    let mut buffer = Buffer::new();
    let key = text_in(run.state.line.field(n), &mut buffer);
    match table {
        ArrayReference::None => Ok(false),
        ArrayReference::Global(slot) => world.holds(slot, key),
        ArrayReference::Local(number) => {
            Ok(locals::element_exists(run.arrays.as_slice(), number, key))
        }
    }
}

/// Takes an element away, if it is there.
///
/// POSIX.1-2017, awk, "Actions" (`delete`).
pub fn remove_element<W: World>(
    table: ArrayReference,
    key: &[u8],
    world: &mut W,
    run: &mut Run<'_>,
) -> Result<(), Halt>
    ensures left { run.new.left ≤ run.old.left }
    ensures outcome { Yields (λ _. tt)
        (remove_in W.calls (table_view table) key.now
        (moment (W.state world.old) run.old)) result (moment (W.state world.new) run.new) }
{
    match table {
        ArrayReference::None => Ok(()),
        ArrayReference::Global(slot) => world.remove(slot, key),
        ArrayReference::Local(number) => Ok(locals::remove_element(&mut run.arrays, number, key)?),
    }
}

/// Takes all elements of an array away.
pub fn clear_array<W: World>(
    table: ArrayReference,
    world: &mut W,
    run: &mut Run<'_>,
) -> Result<(), Halt>
    ensures left { run.new.left ≤ run.old.left }
    ensures outcome { Yields (λ _. tt)
        (clear_of W.calls (table_view table)
        (moment (W.state world.old) run.old)) result (moment (W.state world.new) run.new) }
{
    match table {
        ArrayReference::None => Ok(()),
        ArrayReference::Global(slot) => world.clear(slot),
        ArrayReference::Local(number) => {
            locals::clear_array(&mut run.arrays, number);
            Ok(())
        }
    }
}

/// All keys of an array, in the order of their bytes.
pub fn array_keys<W: World>(
    table: ArrayReference,
    world: &mut W,
    run: &mut Run<'_>,
) -> Result<Texts, Halt>
    ensures left { run.new.left ≤ run.old.left }
    ensures outcome { Yields (λ keys. keys)
        (keys_of W.calls (table_view table)
        (moment (W.state world.old) run.old)) result (moment (W.state world.new) run.new) }
{
    match table {
        ArrayReference::None => Ok(Texts::new(run.alloc)),
        ArrayReference::Global(slot) => world.keys(slot),
        ArrayReference::Local(number) => Ok(locals::array_keys(
            run.alloc,
            run.arrays.as_slice(),
            number,
        )?),
    }
}

/// Where the pieces of a text lie, by FS as it is now where that separates.
fn find_pieces<W: World>(
    separator: SplitSeparator<'_>,
    text: &[u8],
    world: &W,
    run: &mut Run<'_>,
) -> Result<Vec<Range<usize>>, Halt>
    ensures left { run.new.left ≤ run.old.left }
    ensures within { IfOk result (λ ranges. AreWithin text.now ranges.items) }
    ensures outcome { Yields (λ ranges. pieces_in text.now ranges.items)
        (bind (pieces_of W.calls (texts_of separator.entry.eres.now)
        (fields_view separator.entry.by.now) separator.entry.text.now text.now) settle
        (moment (W.state world.now) run.old)) result (moment (W.state world.now) run.new) }
{
    match separator.by {
        FieldsBy::Fs => {
            let mut buffer = Buffer::new();
            let fs = scalar_text(FS, world, &mut buffer);
            Ok(run.matchers.split_by(fs, text)?)
        }
        FieldsBy::Fixed(number) => {
            Ok(run.matchers.split_between(separator.eres, *number, text)?)
        }
        FieldsBy::Value(_) => Ok(run.matchers.split_by(separator.text, text)?),
    }
}

/// Puts the pieces of a text at the keys 1, 2 and so on.
fn fill_array<W: World>(
    table: ArrayReference,
    text: &[u8],
    pieces: Vec<Range<usize>>,
    world: &mut W,
    run: &mut Run<'_>,
) -> Result<(), Halt>
    requires { AreWithin text.now pieces.items }
    ensures left { run.new.left ≤ run.old.left }
    ensures outcome { Yields (λ _. tt)
        (fill_from W.calls (table_view table) 1 (pieces_in text.now pieces.items)
        (moment (W.state world.old) run.old)) result (moment (W.state world.new) run.new) }
{
    match table {
        ArrayReference::None => Ok(()),
        ArrayReference::Global(slot) => world.fill(slot, text, pieces),
        ArrayReference::Local(number) => {
            Ok(locals::fill_array(&mut run.arrays, number, text, pieces)?)
        }
    }
}

/// Empties an array, splits a text, and puts the pieces at the keys 1, 2 and so on. Gives how many
/// there are.
///
/// Faults `fs` and `ere` of the separator come when the array is empty already.
///
/// POSIX.1-2017, awk, "String Functions" (`split`).
pub fn split_into<W: World>(
    table: ArrayReference,
    separator: SplitSeparator<'_>,
    text: &[u8],
    world: &mut W,
    run: &mut Run<'_>,
) -> Result<i64, Halt>
    ensures left { run.new.left ≤ run.old.left }
    ensures outcome { Yields (λ count. count)
        (split_into W.calls (table_view table)
        (pieces_of W.calls (texts_of separator.entry.eres.now)
        (fields_view separator.entry.by.now) separator.entry.text.now text.now)
        (moment (W.state world.old) run.old)) result (moment (W.state world.new) run.new) }
{
    clear_array(table, world, run)?;
    let pieces = find_pieces(separator, text, world, run)?;
    let count = pieces.len() as i64;
    fill_array(table, text, pieces, world, run)?;
    Ok(count)
}
