//! Local arrays, by their numbers.

ghost use Rattle.std.specs.Prelude.{◌≡◌, ◌++◌, [], IfOk, OnOk, is_some, slice_set};
ghost use Rattle.pawk_value.specs.Conversion.{num_of};
ghost use Rattle.pawk_value.specs.Held.{added, held_value};
ghost use Rattle.pawk_value.specs.Value.{lent_value};
ghost use Rattle.pawk_array.specs.Entries.{found, keys, put, touched, value_of, with_pieces, without};
ghost use Rattle.pawk_array.specs.Texts.{AreWithin};
ghost use Rattle.pawk_store.specs.Places.{table_at};

use pawk_array::{AssociativeArray, Texts};
use pawk_value::{Fault, Held, ValueRef, hold, to_num_lent};
use std::alloc::{AllocError, Global};
use std::ops::Range;

/// Stores the value of an element, which creates it: its bytes are appended to `out`.
pub(crate) fn read_element(
    arrays: &mut Vec<AssociativeArray>,
    number: usize,
    key: &[u8],
    out: &mut Vec<u8>,
) -> Result<Held, AllocError>
    ensures appended { OnOk result
        (out.new.items ≡ out.old.items ++ added out.old.items out.new.items) }
    ensures value { IfOk result (λ h. held_value h (added out.old.items out.new.items)
        ≡ value_of (found key.now (table_at arrays.old.items number))) }
    ensures arrays { OnOk result (arrays.new.items
        ≡ slice_set arrays.old.items number (touched key.now (table_at arrays.old.items number))) }
{
    match arrays.get_mut(number) {
        Some(elements) => hold(elements.touch(key)?, out),
        None => Ok(Held::Uninit),
    }
}

/// The number of an element, or the fault of its conversion; the element is created.
pub(crate) fn element_number(
    arrays: &mut Vec<AssociativeArray>,
    number: usize,
    key: &[u8],
) -> Result<Result<i64, Fault>, AllocError>
    ensures value { IfOk result (λ x.
        x ≡ num_of (value_of (found key.now (table_at arrays.old.items number)))) }
    ensures arrays { OnOk result (arrays.new.items
        ≡ slice_set arrays.old.items number (touched key.now (table_at arrays.old.items number))) }
{
    match arrays.get_mut(number) {
        Some(elements) => Ok(to_num_lent(elements.touch(key)?)),
        None => Ok(Ok(0)),
    }
}

/// Gives an element a value.
pub(crate) fn set_element(
    arrays: &mut Vec<AssociativeArray>,
    number: usize,
    key: &[u8],
    value: ValueRef<'_>,
) -> Result<(), AllocError>
    ensures { OnOk result (arrays.new.items ≡ slice_set arrays.old.items number
        (put key.now (lent_value value.entry) (table_at arrays.old.items number))) }
{
    if number < arrays.len() {
        arrays[number].set(key, value)?;
    }
    Ok(())
}

/// Whether an array has an element of this key. None is made.
pub(crate) fn element_exists(arrays: &[AssociativeArray], number: usize, key: &[u8]) -> bool
    ensures { result ≡ is_some (found key.now (table_at arrays.now number)) }
{
    match arrays.get(number) {
        Some(elements) => elements.contains(key),
        None => false,
    }
}

/// Takes an element away, if it is there.
pub(crate) fn remove_element(
    arrays: &mut Vec<AssociativeArray>,
    number: usize,
    key: &[u8],
) -> Result<(), AllocError>
    ensures { OnOk result (arrays.new.items ≡ slice_set arrays.old.items number
        (without key.now (table_at arrays.old.items number))) }
{
    if number < arrays.len() {
        arrays[number].remove(key)?;
    }
    Ok(())
}

/// Gives the elements 1, 2 and so on the pieces of a text, as candidates.
pub(crate) fn fill_array(
    arrays: &mut Vec<AssociativeArray>,
    number: usize,
    text: &[u8],
    pieces: Vec<Range<usize>>,
) -> Result<(), AllocError>
    requires { AreWithin text.now pieces.items }
    ensures { OnOk result (arrays.new.items ≡ slice_set arrays.old.items number
        (with_pieces 0 text.now pieces.items (table_at arrays.old.items number))) }
{
    if number < arrays.len() {
        arrays[number].fill(text, pieces)?;
    }
    Ok(())
}

/// Takes all elements away.
pub(crate) fn clear_array(arrays: &mut Vec<AssociativeArray>, number: usize)
    ensures { arrays.new.items ≡ slice_set arrays.old.items number [] }
{
    if number < arrays.len() {
        arrays[number].clear();
    }
}

/// All keys of an array, in the order of their bytes.
pub(crate) fn array_keys(
    alloc: Global,
    arrays: &[AssociativeArray],
    number: usize,
) -> Result<Texts, AllocError>
    ensures { IfOk result (λ all. all ≡ keys (table_at arrays.now number)) }
{
    match arrays.get(number) {
        Some(elements) => elements.keys(alloc),
        None => Ok(Texts::new(alloc)),
    }
}
