//! What a run never changes.

ghost use Rattle.std.specs.Prelude.{◌≡◌, MatchOption, Some, None, slice_get};
ghost use Rattle.pawk_code.specs.ProgramViews.{function_view};
ghost use Rattle.pawk_eval.specs.Contexts.{functions_of};

use pawk_code::program::{Code, Function};

/// What a part of a run looks at and never changes.
#[derive(Clone, Copy)]
pub struct Context<'p> {
    /// The functions of the program, by their slots, and what is between its slashes, by numbers.
    pub code: &'p Code,
}

impl<'p> Context<'p> {
    /// The function of a slot, if there is one.
    pub(crate) fn function(self, slot: usize) -> Option<&'p Function>
        ensures { MatchOption result
            (slice_get (functions_of self.entry) slot ≡ None)
            (λ f. slice_get (functions_of self.entry) slot ≡ Some (function_view f.now)) }
    {
        self.code.functions.get(slot)
    }
}
