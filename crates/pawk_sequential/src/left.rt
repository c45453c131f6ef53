//! How a part of a run is left.

ghost use Rattle.std.specs.Prelude.{◌≡◌, IfOk};
ghost use Rattle.pawk_runtime.specs.Moments.{moment};
ghost use Rattle.pawk_store.specs.Parts.{Outcome};
ghost use Rattle.pawk_store.specs.Records.{end_of};
ghost use Rattle.pawk_sequential.specs.Ends.{EndsBy, HaltsBy, end_view};

use pawk_runtime::Run;
use pawk_store::Left;
use pawk_world::{Halt, World};
use std::alloc::AllocError;

/// How a part is left that halted; `exit` gives the last status.
#[inline(always)]
fn left_of<W: World>(halt: Halt, world: &W, run: &mut Run<'_>) -> Result<Left, AllocError>
    ensures { IfOk result (λ left. (outcome : Outcome W.State (Unit {0})) →
        HaltsBy outcome halt (moment (W.state world.now) run.old)
        → end_of outcome ≡ end_view (W.state world.now) run.new left) }
{
    match halt {
        Halt::Fault(fault) => Ok(Left::Fault(fault)),
        Halt::Clash => Ok(Left::Clash),
        Halt::Next => Ok(Left::Through),
        Halt::NextFile => Ok(Left::NextFile),
        Halt::Exit(status) => {
            run.state.status = status;
            Ok(Left::Exit(status))
        }
        Halt::Memory => Err(AllocError),
    }
}

/// How a part is left whose result this is.
#[inline(always)]
pub(crate) fn left_by<W: World>(
    ending: Result<(), Halt>,
    world: &W,
    run: &mut Run<'_>,
) -> Result<Left, AllocError>
    ensures { IfOk result (λ left. (outcome : Outcome W.State (Unit {0})) →
        EndsBy outcome ending (moment (W.state world.now) run.old)
        → end_of outcome ≡ end_view (W.state world.now) run.new left) }
{
    match ending {
        Ok(()) => Ok(Left::Through),
        Err(halt) => left_of(halt, world, run),
    }
}
