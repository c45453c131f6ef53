//! Laws of whole runs.

ghost use Rattle.std.specs.Prelude.{◌≢◌, ℕ, List};
ghost use Rattle.pawk_code.specs.Programs.{Code};
ghost use Rattle.pawk_input.specs.Input.{File};
ghost use Rattle.pawk_store.specs.Runs.{disallowed};
ghost use Rattle.pawk_routes.specs.Routes.{whole_run};

use pawk_store::law::{Policy, never_disallows};

/// The globals of a run, which allow all that is asked of them.
struct PlainStore;

impl Policy for PlainStore {
    ghost use Rattle.pawk_store.specs.Globals.{Globals, calls as answers};

    ghost Setting = { Unit {0} };

    ghost State = { Globals };

    ghost calls = { λ _. answers };

    ghost permits = { λ _ _ _. Unit {0} };
}

/// No whole run is disallowed, since globals answer each request. A law, which takes and leaves
/// nothing.
pub(crate) fn never_disallowed()
    ensures { (code : Code) (budget : ℕ) (assignments : List (List ℕ × List ℕ))
        (files : List File) → (whole_run code budget assignments files).ending ≢ disallowed }
{
    never_disallows::<PlainStore>();
}
