//! What occurs in the rules of a program and in the functions that they reach.

ghost use Rattle.std.specs.Prelude.{◌≡◌, ◌++◌, ◌↔◌, true, OnOk, IfOk, Contains, map, slice_set, slice_index_or};
ghost use Rattle.std.specs.Bool.{MatchBool};
ghost use Rattle.pawk_code.specs.ProgramViews.{code_view, function_view};
ghost use Rattle.pawk_admit.specs.declared.occurrence.Occurrence.{Occurrence as Occurrence_of_text};
ghost use Rattle.pawk_admit.specs.Occurrences.{of_function};
ghost use Rattle.pawk_admit.specs.Reaches.{Occurs};

use crate::occurrence::Occurrence;
use crate::statement::{function, rules};
use pawk_code::program::{Code, Function};
use std::alloc::{AllocError, Global};

/// Adds what occurs in the function of this slot, unless the flags say that it was added.
fn reach(
    list: &mut Vec<Occurrence>,
    flags: &mut Vec<bool>,
    functions: &[Function],
    slot: usize,
) -> Result<(), AllocError>
    ensures flags { OnOk result (flags.new.items ≡ slice_set flags.old.items slot true) }
    ensures list { OnOk result (MatchBool (slice_index_or flags.old.items slot true)
        (list.new.items ≡ list.old.items)
        (list.new.items ≡ list.old.items ++ of_function (map function_view functions.now) slot)) }
{
    if slot < flags.len() && !flags[slot] {
        flags[slot] = true;
        function(list, functions, slot)?;
    }
    Ok(())
}

/// What occurs in the rules of a program and in the functions that they reach; each function once.
pub fn occurrences(alloc: Global, code: &Code) -> Result<Vec<Occurrence>, AllocError>
    ensures { IfOk result (λ list. (o : Occurrence_of_text) →
        Contains list.items o ↔ Occurs (code_view code.now) o) }
{
    let mut list = Vec::new(alloc);
    rules(&mut list, &code.rules)?;
    let mut flags = vec![in alloc; false; code.functions.len()]?;
    let mut next = 0;
    while next < list.len() {
        if let Occurrence::Call(slot) = list[next] {
            reach(&mut list, &mut flags, &code.functions, slot)?;
        }
        next += 1;
    }
    Ok(list)
}
