//! Runs of one thread.

ghost use Rattle.std.specs.Prelude.{◌≡◌, [], length, IfOk};
ghost use Rattle.pawk_code.specs.ProgramViews.{code_view};
ghost use Rattle.pawk_input.specs.Input.{files_of};
ghost use Rattle.pawk_store.specs.Globals.{calls};
ghost use Rattle.pawk_store.specs.Openings.{opened, pairs_of};
ghost use Rattle.pawk_store.specs.RecordStates.{opening};
ghost use Rattle.pawk_store.specs.StateViews.{state_of};
ghost use Rattle.pawk_store.specs.Runs as spec;
ghost use Rattle.pawk_sequential.specs.RunEnds.{Answers, outcome_of};

use crate::Job;
use crate::ending::Ending;
use crate::finish::Finish;
use crate::output::Output;
use crate::whole::run_program;
use pawk_input::Input;
use pawk_runtime::Run;
use pawk_settings::Assignment;
use pawk_store::{Globals, RecordState, Specials};
use std::alloc::{AllocError, Global};

/// What a run leaves.
#[derive(Drop)]
pub struct Outcome {
    pub output: Output,
    /// The globals but for the variables that the run sets.
    pub globals: Globals,
    /// What the variables that the run sets had at its end.
    pub specials: Specials,
    pub ending: Ending,
}

impl Outcome {
    /// What a run leaves that finished so over these globals.
    pub fn of(finish: Finish, globals: Globals) -> Outcome
        ensures { result ≡ outcome_of finish globals }
    {
        let Finish {
            output,
            specials,
            ending,
        } = finish;
        Outcome {
            output,
            globals,
            specials,
            ending,
        }
    }
}

/// What a run begins with: no output, no record.
///
/// POSIX.1-2017, awk, "Variables and Special Variables".
pub fn opening_run<'a>(alloc: Global, job: Job<'_>) -> Result<Run<'a>, AllocError>
    ensures { IfOk result (λ run. (run.output.items ≡ [])
        × (state_of run.state ≡ opening (length (code_view job.entry.code.now).rules))) }
{
    let state = RecordState::new(alloc, job.code.rules.len())?;
    let run = Run::new(alloc, state, job.budget, job.code.expressions.len())?;
    Ok(run)
}

/// Runs a program on one thread, with these assignments made before. The input's names and bytes stay as
/// they are.
///
/// POSIX.1-2017, awk, "Overall Program Structure".
pub fn run_one(
    alloc: Global,
    job: Job<'_>,
    assignments: &[Assignment],
    input: &mut Input,
) -> Result<Outcome, AllocError>
    ensures outcome { IfOk result (Answers (spec.run calls (code_view job.entry.code.now).expressions
        (code_view job.entry.code.now) job.entry.budget (files_of input.old)
        (opened (code_view job.entry.code.now).scalars
        (length (code_view job.entry.code.now).arrays) (pairs_of assignments.now))
        (opening (length (code_view job.entry.code.now).rules)))) }
    ensures same { files_of input.new ≡ files_of input.old }
{
    let names = job.code.scalars.as_slice();
    let arrays = job.code.arrays.len();
    let mut globals = Globals::open(alloc, job.seed, names, arrays, assignments)?;
    let run = opening_run(alloc, job)?;
    let finish = run_program(job, input, &mut globals, run)?;
    Ok(Outcome::of(finish, globals))
}
