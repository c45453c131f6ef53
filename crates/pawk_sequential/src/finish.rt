//! How a run finished.

ghost use Rattle.std.specs.Prelude.{◌≡◌, IfOk};
ghost use Rattle.pawk_store.specs.StateViews.{state_of};
ghost use Rattle.pawk_sequential.specs.RunEnds.{AreSpecials};

use crate::ending::Ending;
use crate::output::Output;
use pawk_runtime::Run;
use pawk_store::Specials;
use std::alloc::AllocError;
use std::mem;

/// What a run leaves beside the globals: its output, what the variables that it set had at its end, and
/// how it ended.
#[derive(Drop)]
pub struct Finish {
    pub output: Output,
    pub specials: Specials,
    pub ending: Ending,
}

impl Finish {
    /// What a run leaves that ended so; the output is taken out of it.
    pub(crate) fn of(run: &mut Run<'_>, ending: Ending) -> Result<Finish, AllocError>
        ensures output { IfOk result (λ finish. finish.output ≡ run.old.output.items) }
        ensures ending { IfOk result (λ finish. finish.ending ≡ ending) }
        ensures specials { IfOk result (λ finish.
            AreSpecials finish.specials (state_of run.old.state)) }
    {
        let alloc = run.alloc;
        let specials = run.state.specials(alloc)?;
        let output = mem::replace(&mut run.output, Vec::new(alloc));
        Ok(Finish {
            output: Output::whole(alloc, output)?,
            specials,
            ending,
        })
    }
}
