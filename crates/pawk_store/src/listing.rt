//! The globals of a run by their names.

ghost use Rattle.std.specs.Prelude.{◌≡◌, ◌<◌, ◌^◌, map, IfOk, OnOk};
ghost use Rattle.std.specs.FinMap.Entries.{put};
ghost use Rattle.pawk_array.specs.Entries.{order};
ghost use Rattle.pawk_store.specs.Openings.{texts_of, pairs_of};
ghost use Rattle.pawk_store.specs.Listings as spec;
ghost use Rattle.pawk_store.specs.ListingViews.{content_of, named_of, globals_in, special_of};

use crate::globals::Globals;
use crate::openings::extra_names;
use crate::specials::Specials;
use pawk_array::Element;
use pawk_settings::Assignment;
use pawk_value::{ValueRef, lend};
use pawk_world::World;
use std::alloc::{AllocError, Global};
use std::collections::BTreeMap;

/// What a global has.
#[derive(Drop)]
pub enum Content<'a> {
    /// The value of a scalar.
    Value(ValueRef<'a>),
    /// The elements of an array, in the order of the bytes of their keys.
    Elements(Vec<Element<'a>>),
}

/// A global: its name and what it has.
#[derive(Drop)]
pub struct Named<'a> {
    pub name: Vec<u8>,
    pub content: Content<'a>,
}

/// Puts a global in its place.
fn put<'a>(
    alloc: Global,
    globals: &mut BTreeMap<Vec<u8>, Content<'a>>,
    name: &[u8],
    content: Content<'a>,
) -> Result<(), AllocError>
    ensures { OnOk result (globals_in globals.new
        ≡ put order name.now (content_of content.entry) (globals_in globals.old)) }
{
    let name = Vec::from_slice(alloc, name)?;
    globals.insert(name, content)?;
    Ok(())
}

/// Puts the scalars of these names, whose slots begin with this one.
fn put_scalars<'a>(
    alloc: Global,
    globals: &'a Globals,
    first: usize,
    names: &[Vec<u8>],
    all: &mut BTreeMap<Vec<u8>, Content<'a>>,
) -> Result<(), AllocError>
    requires { first < 2 ^ 63 }
    ensures { OnOk result (globals_in all.new ≡ spec.with_all
        (spec.scalars_from first (texts_of names.now) globals.now) (globals_in all.old)) }
{
    for (index, name) in names.iter().enumerate() {
        let value = globals.scalar(first + index);
        put(alloc, all, name.as_slice(), Content::Value(value))?;
    }
    Ok(())
}

/// Puts the arrays of these names.
fn put_arrays<'a>(
    alloc: Global,
    globals: &'a Globals,
    names: &[Vec<u8>],
    all: &mut BTreeMap<Vec<u8>, Content<'a>>,
) -> Result<(), AllocError>
    ensures { OnOk result (globals_in all.new ≡ spec.with_all
        (spec.arrays_from 0 (texts_of names.now) globals.now) (globals_in all.old)) }
{
    for (index, name) in names.iter().enumerate() {
        let elements = globals.elements(alloc, index)?;
        put(alloc, all, name.as_slice(), Content::Elements(elements))?;
    }
    Ok(())
}

/// Puts the variables that the run sets.
fn put_specials<'a>(
    alloc: Global,
    specials: &'a Specials,
    all: &mut BTreeMap<Vec<u8>, Content<'a>>,
) -> Result<(), AllocError>
    ensures { OnOk result (globals_in all.new ≡ spec.with_all
        (spec.specials (special_of specials.now)) (globals_in all.old)) }
{
    put(
        alloc,
        all,
        b"NR",
        Content::Value(ValueRef::Num(specials.nr)),
    )?;
    put(
        alloc,
        all,
        b"NF",
        Content::Value(ValueRef::Num(specials.nf)),
    )?;
    put(
        alloc,
        all,
        b"FNR",
        Content::Value(ValueRef::Num(specials.fnr)),
    )?;
    put(
        alloc,
        all,
        b"FILENAME",
        Content::Value(lend(&specials.filename)),
    )?;
    put(
        alloc,
        all,
        b"RSTART",
        Content::Value(ValueRef::Num(specials.rstart)),
    )?;
    put(
        alloc,
        all,
        b"RLENGTH",
        Content::Value(ValueRef::Num(specials.rlength)),
    )
}

/// The globals of a map, in its order.
fn in_order<'a>(
    alloc: Global,
    globals: BTreeMap<Vec<u8>, Content<'a>>,
) -> Result<Vec<Named<'a>>, AllocError>
    ensures { IfOk result (λ all. map named_of all.items ≡ globals_in globals.entry) }
{
    let mut all = Vec::with_capacity(alloc, globals.len())?;
    for (name, content) in globals {
        all.push(Named { name, content })?;
    }
    Ok(all)
}

/// The names of a program's globals, by their slots, and the assignments that were made before the run.
#[derive(Clone, Copy)]
pub struct Names<'a> {
    pub scalars: &'a [Vec<u8>],
    pub arrays: &'a [Vec<u8>],
    pub assignments: &'a [Assignment],
}

impl Globals {
    /// Every global by its name, in the order of the bytes of the names: the scalars and the arrays of
    /// the program, the scalars that were assigned before the run, and the variables that the run sets.
    pub fn list<'a>(
        &'a self,
        alloc: Global,
        names: Names<'_>,
        specials: &'a Specials,
    ) -> Result<Vec<Named<'a>>, AllocError>
        ensures { IfOk result (λ all. map named_of all.items ≡ spec.listing
            (texts_of names.entry.scalars.now) (texts_of names.entry.arrays.now)
            (pairs_of names.entry.assignments.now) (special_of specials.now) self.now) }
    {
        let extras = extra_names(alloc, self.seed, names.scalars, names.assignments)?;
        let mut all = BTreeMap::new(alloc);
        put_scalars(alloc, self, 0, names.scalars, &mut all)?;
        put_scalars(
            alloc,
            self,
            names.scalars.len(),
            extras.as_slice(),
            &mut all,
        )?;
        put_arrays(alloc, self, names.arrays, &mut all)?;
        put_specials(alloc, specials, &mut all)?;
        in_order(alloc, all)
    }
}
