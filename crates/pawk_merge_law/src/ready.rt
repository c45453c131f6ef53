//! Whether records may be run in chunks.

ghost use Rattle.std.specs.Prelude.{◌↔◌, IsTrue, IfOk};
ghost use Rattle.pawk_admit.specs.Roles.{roles_view};
ghost use Rattle.pawk_commute.specs.Settings.{FitSlots};
ghost use Rattle.pawk_merge_law.specs.Ready.{MayRunFrom};

use crate::numbers::{read_adders, read_scalars};
use pawk_admit::Roles;
use pawk_commute::law::admission_allows;
use pawk_store::Globals;
use std::alloc::AllocError;

/// Whether there is a slot for each role.
fn fit_slots(roles: &Roles, globals: &Globals) -> bool
    ensures { IsTrue result
        ↔ FitSlots (roles_view roles.now).scalars (roles_view roles.now).arrays globals.now }
{
    roles.scalars.len() <= globals.scalar_count() && roles.arrays.len() <= globals.array_count()
}

/// Whether the records of an admissible program whose names have these roles may be run in chunks
/// over these globals: they may, unless there is a role without a slot. The numbers of all scalars
/// and of the elements of all adders are read; the keys of those elements are copied, for which
/// memory may be refused.
///
/// POSIX.1-2017, awk, "Overall Program Structure".
pub fn may_run(roles: &Roles, globals: &Globals) -> Result<bool, AllocError>
    ensures slots { IfOk result (λ may. IsTrue may
        ↔ FitSlots (roles_view roles.now).scalars (roles_view roles.now).arrays globals.now) }
    ensures ready { IfOk result (λ may.
        IsTrue may → MayRunFrom (roles_view roles.now) globals.now) }
{
    admission_allows();
    globals.order_law();
    read_scalars(globals);
    read_adders(globals, roles)?;
    Ok(fit_slots(roles, globals))
}
