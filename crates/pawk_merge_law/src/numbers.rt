//! The numbers that globals have.

ghost use Rattle.std.specs.Prelude.{◌≡◌, ℕ, List, All, OnOk};
ghost use Rattle.pawk_value.specs.Value.{lent_value};
ghost use Rattle.pawk_value.specs.Conversion.{num_of};
ghost use Rattle.pawk_world.specs.Worlds.{scalar, element};
ghost use Rattle.pawk_store.specs.Globals.{value_at};
ghost use Rattle.pawk_admit.specs.declared.role.Role.TheVariants.{Adder};
ghost use Rattle.pawk_admit.specs.Roles.{role_of_array, roles_view};
ghost use Rattle.pawk_commute.specs.Settings.{FitsIfOk};

use pawk_admit::{Role, Roles};
use pawk_array::Texts;
use pawk_store::Globals;
use pawk_value::{ValueRef, to_num_lent};
use pawk_world::World;
use std::alloc::AllocError;

/// Reads the number of a value; it is one of 64 bits.
fn read_number(value: ValueRef<'_>)
    ensures { FitsIfOk (num_of (lent_value value.entry)) }
{
    let _number = to_num_lent(value);
}

/// Reads the number of each scalar.
pub(crate) fn read_scalars(globals: &Globals)
    ensures { (n : ℕ) → FitsIfOk (num_of (value_at (scalar n) globals.now)) }
{
    for slot in 0..globals.scalar_count() {
        read_number(globals.scalar(slot));
    }
}

/// Reads the numbers of the elements of an array that have these keys.
fn read_keys(globals: &Globals, array: usize, keys: &Texts)
    ensures { All (λ key. FitsIfOk (num_of (value_at (element array key) globals.now))) keys.now }
{
    for number in 0..keys.len() {
        let value = globals.get(array, keys.text(number));
        read_number(value.unwrap_or(ValueRef::Uninit));
    }
}

/// Reads the number of each element of an array.
fn read_elements(globals: &Globals, array: usize) -> Result<(), AllocError>
    ensures { OnOk result ((key : List ℕ) →
        FitsIfOk (num_of (value_at (element array key) globals.now))) }
{
    let keys = globals.keys_of(array)?;
    read_keys(globals, array, &keys);
    Ok(())
}

/// Reads the number of each element of the arrays that are adders.
pub(crate) fn read_adders(globals: &Globals, roles: &Roles) -> Result<(), AllocError>
    ensures { OnOk result ((n : ℕ) → role_of_array (roles_view roles.now) n ≡ Adder →
        (key : List ℕ) → FitsIfOk (num_of (value_at (element n key) globals.now))) }
{
    for array in 0..roles.arrays.len() {
        if let Role::Adder = roles.arrays[array] {
            read_elements(globals, array)?;
        }
    }
    Ok(())
}
