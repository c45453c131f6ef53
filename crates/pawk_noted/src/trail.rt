//! A trace that contracts alone see.

ghost use Rattle.std.specs.Prelude.{◌≡◌, ◌++◌, [], List};
ghost use Rattle.std.specs.Borrow.{ftrue};
ghost use Rattle.pawk_commute.specs.Traces.{Event};
ghost use Rattle.pawk_noted.specs.Reports.{reported};

use pawk_code::word::Sign;
use pawk_store::Globals;
use pawk_value::{Fault, ValueRef};
use pawk_world::Halt;
use std::marker::Model;
use std::ops::Range;

/// A global scalar by its slot, or an element of a global array by the array's slot and its key.
#[derive(Clone, Copy)]
pub(crate) enum CellRef<'a> {
    Scalar(usize),
    Element(usize, &'a [u8]),
}

/// What a call does to the globals.
#[derive(Clone, Copy)]
pub(crate) enum Report<'a> {
    /// A value is put into a cell.
    Put(CellRef<'a>, ValueRef<'a>),
    /// A text is put after the text of a scalar of these globals.
    Append(usize, &'a Globals, &'a [u8]),
    /// The pieces of a text are put into an array.
    Fill(usize, &'a [u8], &'a [Range<usize>]),
    /// An amount is added to a cell, or taken away, if the call did so.
    Add(CellRef<'a>, Sign, Result<i64, Fault>, Result<(), Halt>),
    /// A reference creates an element.
    Create(usize, &'a [u8]),
}

/// What calls did to the globals, in their order. It takes no memory, since contracts alone see it.
#[derive(Drop)]
pub(crate) struct Trail {
    pub(crate) ghost events: { List Event },
}

impl Model for Trail {
    ghost also_owns = { λ _. ftrue };
}

impl Trail {
    /// Nothing was done yet.
    pub(crate) fn new() -> Trail
        ensures { result.events ≡ [] }
    {
        Trail {}
    }

    /// Goes on with what one more call does.
    #[inline(always)]
    pub(crate) fn with(_before: &Trail, _report: &Report<'_>) -> Trail
        ensures { result.events ≡ _before.now.events ++ reported _report.now }
    {
        Trail {}
    }
}
