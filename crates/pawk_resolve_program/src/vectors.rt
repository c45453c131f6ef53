//! Vectors that grow.

ghost use Rattle.std.specs.Prelude.{◌≡◌, ◌++◌, ◌∷◌, [], OnOk, IsOkAnd};
ghost use Rattle.std.specs.Option.{option_to_list};

use std::alloc::AllocError;

/// Adds what may be there.
pub fn add<T: Drop>(all: &mut Vec<T>, new: Option<T>) -> Result<(), AllocError>
    ensures { OnOk result (all.new.items ≡ all.old.items ++ option_to_list new) }
{
    if let Some(new) = new {
        all.push(new)?;
    }
    Ok(())
}

/// Adds a result, unless memory was refused to it.
pub fn push_result<T: Drop>(all: &mut Vec<T>, new: Result<T, AllocError>) -> Result<(), AllocError>
    ensures { OnOk result (IsOkAnd new (λ x. all.new.items ≡ all.old.items ++ x ∷ [])) }
{
    all.push(new?)?;
    Ok(())
}
