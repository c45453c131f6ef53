//! Records run in chunks.

ghost use Rattle.std.specs.Prelude.{◌≡◌, ◌≢◌, ◌≤◌, length, Err, IfErr, IfOk, MatchOption};
ghost use Rattle.pawk_board.specs.Limits.{most_chunks};
ghost use Rattle.pawk_code.specs.ProgramViews.{code_view};
ghost use Rattle.pawk_input.specs.Input.{files_of, items};
ghost use Rattle.pawk_input.specs.Plan.{IsPlanOf};
ghost use Rattle.pawk_store.specs.Globals.{calls};
ghost use Rattle.pawk_store.specs.Runs.{records_by_rs};
ghost use Rattle.pawk_admit.specs.Admission.{AreRoles, IsAdmissible};
ghost use Rattle.pawk_admit.specs.Reaches.{Occurs};
ghost use Rattle.pawk_admit.specs.Roles.{roles_view};
ghost use Rattle.pawk_merge_law.specs.Phases.{FaultsOrCreates};
ghost use Rattle.pawk_board.specs.Limits.{IsCrew};
ghost use Rattle.pawk_chunks.specs.Task.{IsChunked};
ghost use Rattle.pawk_sequential.specs.RunEnds.{Answers};
ghost use Rattle.pawk_routes.specs.Prologue.{IsMerged, IsTaken, end_of};
ghost use Rattle.pawk_routes.specs.Routes.{phase_after};

use crate::merging::{go_on_merged, lacks_memory};
use pawk_admit::Roles;
use pawk_chunks::{Chunked, Gate, Opening, run_chunks};
use pawk_merge::{Merged, merge};
use pawk_merge_law::gathered_law::results_merge;
use pawk_merge_law::may_run;
use pawk_routes::{Prologue, Refusal};
use pawk_sequential::{Job, Outcome};
use pawk_store::RecordState;
use std::mem;
use std::sync::Wait;
use std::thread::Threads;

/// Runs the records of an input in the chunks of a plan, and merges what they left into the globals; nothing
/// where the chunks are not merged.
fn merge_plan<'a, G: Gate + Sync, R: Threads + Wait>(
    rt: &R,
    job: Job<'_>,
    prologue: &mut Prologue<'a>,
    roles: &Roles,
    source: Chunked<'_, 'a>,
    workers: usize,
    gate: &G,
) -> Result<Option<Merged<'a>>, Refusal>
    requires chunked { IsChunked source }
    requires planned { IsPlanOf source.rs.now (files_of source.input.now) source.plan.now }
    requires few { length source.plan.now ≤ most_chunks }
    requires workers { IsCrew workers }
    requires taken { IsTaken source.rs.now (end_of prologue.now) }
    requires admissible { IsAdmissible (code_view job.code.now) }
    requires roles { AreRoles (Occurs (code_view job.code.now)) (roles_view roles.now) }
    ensures refused { IfErr result (λ e. e ≢ Refusal.Cutting) }
    ensures went { IfOk result (λ o. MatchOption o
        (FaultsOrCreates (phase_after (code_view job.entry.code.now) (roles_view roles.now)
        job.entry.budget (end_of prologue.old))
        (items source.entry.rs.now (files_of source.entry.input.now)))
        (λ merged. IsMerged (code_view job.entry.code.now) job.entry.budget
        source.entry.rs.now (files_of source.entry.input.now)
        (end_of prologue.old) prologue.new merged
        × ¬ FaultsOrCreates (phase_after (code_view job.entry.code.now) (roles_view roles.now)
        job.entry.budget (end_of prologue.old))
        (items source.entry.rs.now (files_of source.entry.input.now)))) }
{
    let alloc = prologue.run.alloc;
    if !may_run(roles, &prologue.globals)? {
        return Err(Refusal::Memory);
    }
    let opening = Opening {
        job,
        globals: &prologue.globals,
        roles,
        state: &prologue.run.state,
    };
    let results = run_chunks(rt, alloc, opening, source, workers, gate)?;
    results_merge();
    let state = mem::replace(&mut prologue.run.state, RecordState::new(alloc, 0)?);
    match merge(alloc, &mut prologue.globals, state, results) {
        Ok(merged) => Ok(Some(merged)),
        Err(stop) => {
            if lacks_memory(stop) {
                Err(Refusal::Memory)
            } else {
                Ok(None)
            }
        }
    }
}

/// Runs the records of an input in the chunks of a plan, and goes on after them; nothing where the
/// chunks are not merged.
pub(crate) fn run_plan<'a, G: Gate + Sync, R: Threads + Wait>(
    rt: &R,
    job: Job<'_>,
    prologue: Prologue<'a>,
    roles: &Roles,
    source: Chunked<'_, 'a>,
    workers: usize,
    gate: &G,
) -> Result<Option<Outcome>, Refusal>
    requires chunked { IsChunked source }
    requires planned { IsPlanOf source.rs.now (files_of source.input.now) source.plan.now }
    requires few { length source.plan.now ≤ most_chunks }
    requires workers { IsCrew workers }
    requires taken { IsTaken source.rs.now (end_of prologue) }
    requires admissible { IsAdmissible (code_view job.code.now) }
    requires roles { AreRoles (Occurs (code_view job.code.now)) (roles_view roles.now) }
    ensures refused { IfErr result (λ e. e ≢ Refusal.Cutting) }
    ensures went { IfOk result (λ o. MatchOption o
        (FaultsOrCreates (phase_after (code_view job.entry.code.now) (roles_view roles.now)
        job.entry.budget (end_of prologue.entry))
        (items source.entry.rs.now (files_of source.entry.input.now)))
        (λ outcome. Answers (records_by_rs calls (code_view job.entry.code.now).expressions
        (code_view job.entry.code.now) job.entry.budget source.entry.rs.now
        (files_of source.entry.input.now) (end_of prologue.entry)) outcome
        × ¬ FaultsOrCreates (phase_after (code_view job.entry.code.now) (roles_view roles.now)
        job.entry.budget (end_of prologue.entry))
        (items source.entry.rs.now (files_of source.entry.input.now)))) }
{
    let mut prologue = prologue;
    match merge_plan(rt, job, &mut prologue, roles, source, workers, gate)? {
        Some(merged) => Ok(Some(go_on_merged(job, prologue, merged)?)),
        None => Ok(None),
    }
}
