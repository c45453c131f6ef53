//! What the globals of a run begin with.

ghost use Rattle.std.specs.Prelude.{◌≡◌, ◌++◌, ℕ, List, [], map, replicate, IfOk, OnOk};
ghost use Rattle.pawk_value.specs.Value.{lent_value, shown};
ghost use Rattle.pawk_store.specs.Openings.{texts_of, pairs_of, names_with, with_name};
ghost use Rattle.pawk_store.specs.Openings.{Knows, with_assignments};
ghost use Rattle.pawk_store.specs.Openings as spec;

use pawk_array::{AssociativeArray, Seed};
use pawk_settings::Assignment;
use pawk_value::{Value, ValueRef, copy_lent};
use std::alloc::{AllocError, Global};

/// What a scalar of this name begins with.
fn first_value(name: &[u8]) -> ValueRef<'static>
    ensures { lent_value result ≡ spec.first_value name.now }
{
    if name == b"FS".as_slice() || name == b"OFS".as_slice() {
        ValueRef::Text(b" ")
    } else if name == b"ORS".as_slice() || name == b"RS".as_slice() {
        ValueRef::Text(b"\n")
    } else if name == b"SUBSEP".as_slice() {
        ValueRef::Text(b"\x1c")
    } else if name == b"CONVFMT".as_slice() || name == b"OFMT".as_slice() {
        ValueRef::Text(b"%.6g")
    } else {
        ValueRef::Uninit
    }
}

/// What names are assigned last.
pub(crate) fn last_assigned(
    alloc: Global,
    seed: Seed,
    assignments: &[Assignment],
) -> Result<AssociativeArray, AllocError>
    ensures { IfOk result (λ last. last ≡ with_assignments (pairs_of assignments.now) []) }
{
    let mut last = AssociativeArray::new(alloc, seed);
    for assignment in assignments {
        let value = ValueRef::Maybe(assignment.value.as_slice());
        last.set(assignment.name.as_slice(), value)?;
    }
    Ok(last)
}

/// What a scalar of this name has when the run begins.
fn opening_value<'a>(last: &'a AssociativeArray, name: &[u8]) -> ValueRef<'a>
    ensures { (pairs : List (List ℕ × List ℕ)) → last.now ≡ with_assignments pairs []
        → lent_value result ≡ spec.opening_value pairs name.now }
{
    match last.get(name) {
        Some(value) => value,
        None => first_value(name),
    }
}

/// Appends what scalars of these names have when the run begins.
pub(crate) fn push_opening_values(
    alloc: Global,
    last: &AssociativeArray,
    names: &[Vec<u8>],
    scalars: &mut Vec<Value>,
) -> Result<(), AllocError>
    ensures { OnOk result ((pairs : List (List ℕ × List ℕ))
        → last.now ≡ with_assignments pairs []
        → map shown scalars.new.items ≡ map shown scalars.old.items
        ++ map (spec.opening_value pairs) (texts_of names.now)) }
{
    for name in names {
        let value = copy_lent(alloc, opening_value(last, name.as_slice()))?;
        scalars.push(value)?;
    }
    Ok(())
}

/// The names of a program, for looking names up among them.
fn known_names(alloc: Global, seed: Seed, names: &[Vec<u8>]) -> Result<AssociativeArray, AllocError>
    ensures { IfOk result (λ known. Knows known (texts_of names.now)) }
{
    let mut known = AssociativeArray::new(alloc, seed);
    for name in names {
        known.set(name.as_slice(), ValueRef::Uninit)?;
    }
    Ok(known)
}

/// Appends a name that is not known yet, which makes it known.
fn push_name(
    alloc: Global,
    known: &mut AssociativeArray,
    extras: &mut Vec<Vec<u8>>,
    name: &[u8],
) -> Result<(), AllocError>
    ensures { OnOk result ((names : List (List ℕ))
        → Knows known.old (names ++ texts_of extras.old.items)
        → Knows known.new (names ++ texts_of extras.new.items)
        × (names ++ texts_of extras.new.items
        ≡ with_name (names ++ texts_of extras.old.items) name.now)) }
{
    if known.contains(name) {
        return Ok(());
    }
    known.set(name, ValueRef::Uninit)?;
    let name = Vec::from_slice(alloc, name)?;
    extras.push(name)?;
    Ok(())
}

/// The names that are assigned and are not those of the program, each once.
pub(crate) fn extra_names(
    alloc: Global,
    seed: Seed,
    names: &[Vec<u8>],
    assignments: &[Assignment],
) -> Result<Vec<Vec<u8>>, AllocError>
    ensures { IfOk result (λ extras. texts_of names.now ++ texts_of extras.items
        ≡ names_with (texts_of names.now) (pairs_of assignments.now)) }
{
    let mut known = known_names(alloc, seed, names)?;
    let mut extras = Vec::new(alloc);
    for assignment in assignments {
        push_name(alloc, &mut known, &mut extras, assignment.name.as_slice())?;
    }
    Ok(extras)
}

/// `count` arrays without elements.
pub(crate) fn empty_arrays(
    alloc: Global,
    seed: Seed,
    count: usize,
) -> Result<Vec<AssociativeArray>, AllocError>
    ensures { IfOk result (λ arrays. arrays.items ≡ replicate count []) }
{
    let mut arrays = Vec::new(alloc);
    for _ in 0..count {
        arrays.push(AssociativeArray::new(alloc, seed))?;
    }
    Ok(arrays)
}
