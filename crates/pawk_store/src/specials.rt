//! What the variables that a run sets have.

ghost use Rattle.std.specs.Prelude.{◌≡◌, IfOk};
ghost use Rattle.pawk_code.specs.declared.leaf.Special.{Special};
ghost use Rattle.pawk_value.specs.Value.{lent_value};
ghost use Rattle.pawk_store.specs.ListingViews.{special_of};
ghost use Rattle.pawk_store.specs.RecordStates.{special_value};
ghost use Rattle.pawk_store.specs.StateViews.{state_of};

use crate::state::{RecordState, check_number};
use pawk_code::leaf::Special;
use pawk_value::{Value, copy_lent};
use std::alloc::{AllocError, Global};

/// What the variables that a run sets had at a moment (POSIX.1-2017, awk, "Variables and Special
/// Variables").
#[derive(Drop)]
pub struct Specials {
    pub nr: i64,
    pub nf: i64,
    pub fnr: i64,
    pub filename: Value,
    pub rstart: i64,
    pub rlength: i64,
}

impl RecordState<'_> {
    /// What the variables that the run sets have now. The state stays, but for what was found of the
    /// fields, which are only counted where that is enough.
    ///
    /// Memory is refused also where NR, FNR or NF is 2^63 or more, which no memory holds.
    pub fn specials(&mut self, alloc: Global) -> Result<Specials, AllocError>
        ensures same { state_of self.new ≡ state_of self.old }
        ensures values { IfOk result (λ s. (v : Special) → special_of s v
            ≡ special_value v (state_of self.old)) }
    {
        self.prepare_special(Special::Nr)?;
        self.prepare_special(Special::Fnr)?;
        let nf = self.line.field_count()?;
        check_number(nf as u64)?;
        Ok(Specials {
            nr: self.nr as i64,
            nf: nf as i64,
            fnr: self.fnr as i64,
            filename: copy_lent(alloc, self.special(Special::Filename))?,
            rstart: self.rstart,
            rlength: self.rlength,
        })
    }
}
