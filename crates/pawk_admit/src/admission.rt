//! Which programs may run in chunks.

ghost use Rattle.std.specs.Prelude.{◌≡◌, ◌≤◌, IfOk, IfErr, map, vec_len};
ghost use Rattle.pawk_code.specs.ProgramViews.{code_view};
ghost use Rattle.pawk_admit.specs.Reaches.{Occurs};
ghost use Rattle.pawk_admit.specs.Admission.{IsAdmissible, IsAnswer, AreRoles};
ghost use Rattle.pawk_admit.specs.Roles.{roles_view};
ghost use Rattle.pawk_admit.specs.Decisions as spec;

use crate::decision::first_reason;
use crate::marks::{Marks, Tables};
use crate::reach::occurrences;
use crate::reason::Reason;
use crate::role::{Role, Roles};
use pawk_code::program::Code;
use std::alloc::{AllocError, Global};

/// The role of a scalar with which this is done.
fn scalar_role(marks: Marks) -> Role
    ensures { result ≡ spec.scalar_role marks }
{
    if marks.sets {
        Role::Setter
    } else if marks.adds {
        Role::Adder
    } else {
        Role::Fixed
    }
}

/// The role of an array with which this is done.
fn array_role(marks: Marks) -> Role
    ensures { result ≡ spec.array_role marks }
{
    if marks.sets {
        Role::Setter
    } else if marks.adds {
        Role::Adder
    } else if marks.looks && !marks.others {
        Role::Reader
    } else {
        Role::Fixed
    }
}

/// The roles of the scalars of a table.
fn scalar_roles(alloc: Global, table: &[Marks]) -> Result<Vec<Role>, AllocError>
    ensures { IfOk result (λ roles. roles.items ≡ map spec.scalar_role table.now) }
{
    table.iter().map(|marks| scalar_role(*marks)).collect(alloc)
}

/// The roles of the arrays of a table.
fn array_roles(alloc: Global, table: &[Marks]) -> Result<Vec<Role>, AllocError>
    ensures { IfOk result (λ roles. roles.items ≡ map spec.array_role table.now) }
{
    table.iter().map(|marks| array_role(*marks)).collect(alloc)
}

/// Whether a program may run in chunks: the role of each of its globals, else the first reason
/// against it, or that memory was refused. There are at least as many roles as slots.
pub fn admit(alloc: Global, code: &Code) -> Result<Roles, Reason>
    ensures admissible { IfOk result (λ roles. IsAdmissible (code_view code.now)) }
    ensures roles { IfOk result (λ roles.
        AreRoles (Occurs (code_view code.now)) (roles_view roles)) }
    ensures scalars { IfOk result (λ roles. vec_len code.now.scalars ≤ vec_len roles.scalars) }
    ensures arrays { IfOk result (λ roles. vec_len code.now.arrays ≤ vec_len roles.arrays) }
    ensures reason { IfErr result (IsAnswer (Occurs (code_view code.now))) }
{
    let list = occurrences(alloc, code)?;
    let tables = Tables::new(alloc, &list, code.scalars.len(), code.arrays.len())?;
    if let Some(reason) = first_reason(&list, &tables) {
        return Err(reason);
    }
    Ok(Roles {
        scalars: scalar_roles(alloc, &tables.scalars)?,
        arrays: array_roles(alloc, &tables.arrays)?,
    })
}
