//! Whole runs.

ghost use Rattle.std.specs.Prelude.{◌≡◌, ◌≢◌, ◌↔◌, Err, IfOk, IsTrue};
ghost use Rattle.pawk_code.specs.ProgramViews.{code_view};
ghost use Rattle.pawk_input.specs.Input.{files_of};
ghost use Rattle.pawk_store.specs.Openings.{pairs_of};
ghost use Rattle.pawk_admit.specs.Admission.{AreRoles, IsAdmissible};
ghost use Rattle.pawk_admit.specs.Reaches.{Occurs};
ghost use Rattle.pawk_admit.specs.Roles.{roles_view};
ghost use Rattle.pawk_sequential.specs.RunEnds.{Answers};
ghost use Rattle.pawk_board.specs.Limits.{IsCrew};
ghost use Rattle.pawk_routes.specs.Prologue.{Goes, end_of};
ghost use Rattle.pawk_routes.specs.Cuttings.{HasNoPlan, IsSized};
ghost use Rattle.pawk_routes.specs.Routes.{HasRecords, IsRoute, begin_end, whole_run};

use crate::chunked::run_plan;
use crate::law::never_disallowed;
use pawk_admit::{Reason, Roles, admit};
use pawk_chunks::{Chunked, Gate};
use pawk_input::Input;
use pawk_routes::{Prologue, Refusal, Report, Route, Way, begin, go_on, has_records, plan_of};
use pawk_sequential::{Ending, Job, Outcome, run_one};
use pawk_settings::Assignment;
use std::alloc::Global;
use std::sync::Wait;
use std::thread::Threads;

/// Whether an admission was refused because memory was refused.
fn is_memory(reason: Reason) -> bool
    ensures { IsTrue result ↔ reason ≡ Reason.Memory }
{
    match reason {
        Reason::Memory => true,
        _ => false,
    }
}

/// Runs the records of a program that may run in chunks, and what follows them; nothing where it has to
/// be run again, one record after the other.
fn run_admitted<G: Gate + Sync, R: Threads + Wait>(
    rt: &R,
    job: Job<'_>,
    prologue: Prologue<'_>,
    roles: &Roles,
    input: &mut Input,
    way: Way<'_>,
    gate: &G,
) -> Result<Option<(Outcome, Route)>, Refusal>
    requires sized { IsSized way.cutting.now }
    requires workers { IsCrew way.workers }
    requires records { HasRecords (code_view job.code.now) (end_of prologue) }
    requires unread { prologue.run.state.nr ≡ 0 }
    requires admissible { IsAdmissible (code_view job.code.now) }
    requires roles { AreRoles (Occurs (code_view job.code.now)) (roles_view roles.now) }
    ensures went { IfOk result (Goes (code_view job.entry.code.now) job.entry.budget
        (files_of input.old) (end_of prologue.entry)) }
    ensures accepted { IfOk result (λ _. ¬ HasNoPlan (code_view job.entry.code.now)
        (end_of prologue.entry) (files_of input.old) way.entry.cutting.now) }
    ensures refused { result ≡ Err Refusal.Cutting → HasNoPlan (code_view job.entry.code.now)
        (end_of prologue.entry) (files_of input.old) way.entry.cutting.now }
    ensures same { files_of input.new ≡ files_of input.old }
{
    let mut prologue = prologue;
    let Some(rs) = prologue.make_ready(input)? else {
        let outcome = go_on(job, prologue, input)?;
        return Ok(Some((outcome, Route::Redo)));
    };
    let plan = plan_of(rt, prologue.run.alloc, input, rs.as_slice(), way, gate)?;
    let source = Chunked {
        input,
        plan: &plan,
        rs: rs.as_slice(),
    };
    match run_plan(rt, job, prologue, roles, source, way.workers, gate)? {
        Some(outcome) => Ok(Some((outcome, Route::Parallel))),
        None => Ok(None),
    }
}

/// Runs a program, its records in chunks where it may; nothing where it has to be run again, one record
/// after the other.
fn run_once<G: Gate + Sync, R: Threads + Wait>(
    rt: &R,
    alloc: Global,
    job: Job<'_>,
    assignments: &[Assignment],
    input: &mut Input,
    way: Way<'_>,
    gate: &G,
) -> Result<Option<(Outcome, Route)>, Refusal>
    requires sized { IsSized way.cutting.now }
    requires workers { IsCrew way.workers }
    ensures went { IfOk result (Goes (code_view job.entry.code.now) job.entry.budget
        (files_of input.old)
        (begin_end (code_view job.entry.code.now) job.entry.budget (pairs_of assignments.now))) }
    ensures accepted { IfOk result (λ _. ¬ HasNoPlan (code_view job.entry.code.now)
        (begin_end (code_view job.entry.code.now) job.entry.budget (pairs_of assignments.now))
        (files_of input.old) way.entry.cutting.now) }
    ensures refused { result ≡ Err Refusal.Cutting → HasNoPlan (code_view job.entry.code.now)
        (begin_end (code_view job.entry.code.now) job.entry.budget (pairs_of assignments.now))
        (files_of input.old) way.entry.cutting.now }
    ensures same { files_of input.new ≡ files_of input.old }
{
    let prologue = begin(alloc, job, assignments)?;
    if !has_records(job, &prologue) {
        let outcome = go_on(job, prologue, input)?;
        return Ok(Some((outcome, Route::NoMain)));
    }
    match admit(alloc, job.code) {
        Ok(roles) => run_admitted(rt, job, prologue, &roles, input, way, gate),
        Err(reason) => {
            if is_memory(reason) {
                return Err(Refusal::Memory);
            }
            let finish = go_on(job, prologue, input)?;
            Ok(Some((finish, Route::NotAdmitted(reason))))
        }
    }
}

/// Runs a program with these assignments made before, its records in chunks by threads where it may, and
/// reports how it went. What it leaves is what a run of one thread leaves, whatever the cutting and the
/// number of workers, 1 to 64. It never is disallowed, since globals answer each request.
///
/// One worker is this thread, each other a thread of its own; all have ended when this returns. The gate is
/// called round each chunk that is run, on its worker's thread. Where the chunks are not merged, the program is run again from its begin,
/// on this thread. The input's names and bytes stay as they are.
///
/// `Cutting` comes only where the records may be run in chunks and the cutting has no plan, and where it
/// has none nothing is run; `Thread` comes where a worker could not be started, which the gate did not allow,
/// `Memory` where memory was refused.
///
/// POSIX.1-2017, awk, "Overall Program Structure".
pub fn run<G: Gate + Sync, R: Threads + Wait>(
    rt: &R,
    alloc: Global,
    job: Job<'_>,
    assignments: &[Assignment],
    input: &mut Input,
    way: Way<'_>,
    gate: &G,
) -> Result<(Outcome, Report), Refusal>
    requires sized { IsSized way.cutting.now }
    requires workers { IsCrew way.workers }
    ensures outcome { IfOk result (λ r. Answers (whole_run (code_view job.entry.code.now)
        job.entry.budget (pairs_of assignments.now) (files_of input.old)) r.0) }
    ensures allowed { IfOk result (λ r. r.0.ending ≢ Ending.Disallowed) }
    ensures route { IfOk result (λ r. IsRoute (code_view job.entry.code.now)
        job.entry.budget (files_of input.old)
        (begin_end (code_view job.entry.code.now) job.entry.budget (pairs_of assignments.now))
        r.1.route) }
    ensures accepted { IfOk result (λ _. ¬ HasNoPlan (code_view job.entry.code.now)
        (begin_end (code_view job.entry.code.now) job.entry.budget (pairs_of assignments.now))
        (files_of input.old) way.entry.cutting.now) }
    ensures refused { result ≡ Err Refusal.Cutting → HasNoPlan (code_view job.entry.code.now)
        (begin_end (code_view job.entry.code.now) job.entry.budget (pairs_of assignments.now))
        (files_of input.old) way.entry.cutting.now }
    ensures same { files_of input.new ≡ files_of input.old }
{
    never_disallowed();
    match run_once(rt, alloc, job, assignments, input, way, gate)? {
        Some((outcome, route)) => Ok((outcome, Report { route })),
        None => {
            let outcome = run_one(alloc, job, assignments, input)?;
            let route = Route::Redo;
            Ok((outcome, Report { route }))
        }
    }
}
