//! Copies of what globals have.

ghost use Rattle.std.specs.Prelude.{◌≡◌, map, IfOk};
ghost use Rattle.pawk_value.specs.Value.{shown};

use pawk_array::AssociativeArray;
use pawk_value::{Value, copy_value};
use std::alloc::{AllocError, Global};

/// Copies of values that hold their own bytes.
pub(crate) fn copy_scalars(alloc: Global, scalars: &[Value]) -> Result<Vec<Value>, AllocError>
    ensures { IfOk result (λ copy. map shown copy.items ≡ map shown scalars.now) }
{
    let mut copy = Vec::with_capacity(alloc, scalars.len())?;
    for scalar in scalars {
        copy.push(copy_value(alloc, scalar)?)?;
    }
    Ok(copy)
}

/// Copies of arrays that hold their own bytes.
pub(crate) fn copy_arrays(
    alloc: Global,
    arrays: &[AssociativeArray],
) -> Result<Vec<AssociativeArray>, AllocError>
    ensures { IfOk result (λ copy. copy.items ≡ arrays.now) }
{
    let mut copy = Vec::with_capacity(alloc, arrays.len())?;
    for array in arrays {
        copy.push(array.copy(alloc)?)?;
    }
    Ok(copy)
}
