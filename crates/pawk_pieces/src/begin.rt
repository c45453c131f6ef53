//! The begin of a run whose input flows.

ghost use Rattle.std.specs.Prelude.{◌≡◌, [], IfOk, MatchResult};
ghost use Rattle.pawk_code.specs.ProgramViews.{code_view};
ghost use Rattle.pawk_input.specs.Input.{files_of};
ghost use Rattle.pawk_store.specs.Openings.{pairs_of};
ghost use Rattle.pawk_store.specs.StateViews.{state_of};
ghost use Rattle.pawk_admit.specs.Admission.{AreRoles, IsAdmissible, IsFirst};
ghost use Rattle.pawk_admit.specs.Reaches.{Occurs};
ghost use Rattle.pawk_admit.specs.Roles.{roles_view};
ghost use Rattle.pawk_merge_law.specs.Ready.{MayRunFrom};
ghost use Rattle.pawk_pieces.specs.Begins.{Begins};

use crate::flow::Flow;
use crate::law::PlainStore;
use crate::operands::assign;
use crate::refusal::PieceRefusal;
use pawk_admit::{Reason, Roles, admit};
use pawk_input::Input;
use pawk_merge_law::may_run;
use pawk_merge_law::window_law::{faults_follow, files_follow};
use pawk_routes::{Prologue, Route, begin, go_on, has_records};
use pawk_sequential::{Job, Outcome};
use pawk_settings::Assignment;
use pawk_store::RecordState;
use std::alloc::{AllocError, Global};
use std::mem;

/// A run after BEGIN whose records are to come.
#[derive(Drop)]
pub struct Start {
    /// The run before its first piece.
    pub flow: Flow,
    /// What BEGIN wrote.
    pub output: Vec<u8>,
    /// The bytes of `RS`, at most one.
    pub rs: Vec<u8>,
    /// What the records do with each global, where they may be run in chunks, or why they may not.
    pub roles: Result<Roles, Reason>,
}

/// A run after BEGIN.
#[derive(Drop)]
pub enum Begun {
    /// It has ended, and went this way: no record is read.
    Ended(Outcome, Route),
    /// Records are to come.
    Flows(Start),
}

/// No files.
fn no_input(alloc: Global) -> Result<Input, AllocError>
    ensures { IfOk result (λ input. files_of input ≡ []) }
{
    match Input::new(Vec::new(alloc)) {
        Ok(input) => Ok(input),
        Err(_) => Err(AllocError),
    }
}

/// Whether the records may be run in chunks, and what they do with each global then; the error is memory's.
fn roles_of(
    alloc: Global,
    job: Job<'_>,
    prologue: &Prologue<'_>,
) -> Result<Result<Roles, Reason>, AllocError>
    ensures { IfOk result (λ r. MatchResult r
        (λ roles. IsAdmissible (code_view job.entry.code.now)
        × AreRoles (Occurs (code_view job.entry.code.now)) (roles_view roles)
        × MayRunFrom (roles_view roles) prologue.now.globals)
        (λ reason. IsFirst (Occurs (code_view job.entry.code.now)) reason)) }
{
    match admit(alloc, job.code) {
        Ok(roles) => {
            if may_run(&roles, &prologue.globals)? {
                Ok(Ok(roles))
            } else {
                Err(AllocError)
            }
        }
        Err(Reason::Memory) => Err(AllocError),
        Err(reason) => Ok(Err(reason)),
    }
}

/// The run before its first piece, where BEGIN left this and its `RS` is taken.
///
/// The error comes where memory was refused.
fn start_of(
    alloc: Global,
    prologue: Prologue<'_>,
    rs: Vec<u8>,
    roles: Result<Roles, Reason>,
) -> Result<Start, AllocError>
    ensures globals { IfOk result (λ start. start.flow.globals ≡ prologue.entry.globals) }
    ensures state { IfOk result (λ start. start.flow.state ≡ state_of prologue.entry.run.state) }
    ensures output { IfOk result (λ start.
        start.output.items ≡ prologue.entry.run.output.items) }
    ensures rs { IfOk result (λ start. start.rs.items ≡ rs.items) }
    ensures roles { IfOk result (λ start. start.roles ≡ roles) }
{
    let Prologue {
        globals,
        run,
        left: _,
    } = prologue;
    let mut run = run;
    let output = mem::replace(&mut run.output, Vec::new(alloc));
    let state = mem::replace(&mut run.state, RecordState::new(alloc, 0)?);
    let flow = Flow {
        alloc,
        globals,
        state: state.keep(alloc)?,
    };
    Ok(Start {
        flow,
        output,
        rs,
        roles,
    })
}

/// The way of a run whose `RS` has several bytes.
fn route_of(roles: Result<Roles, Reason>) -> Route
    ensures { MatchResult roles (λ _. result ≡ Route.Redo)
        (λ reason. result ≡ Route.NotAdmitted reason) }
{
    match roles {
        Ok(_) => Route::Redo,
        Err(reason) => Route::NotAdmitted(reason),
    }
}

/// Runs BEGIN, with these assignments made before it, and where records are read makes the first assignments among the
/// operands, those before the first file, and then takes `RS`. The run has then ended, whatever its files and the other
/// assignments among them are, or goes on with them; what BEGIN wrote is then given beside it.
///
/// `Memory` comes where memory was refused, and no other refusal.
///
/// POSIX.1-2017, awk, "Overall Program Structure", "OPERANDS" (assignment) and "Variables and Special Variables" (`RS`).
pub fn begin_flow(
    alloc: Global,
    job: Job<'_>,
    assignments: &[Assignment],
    first: &[Assignment],
) -> Result<Begun, PieceRefusal>
    ensures { IfOk result (Begins (code_view job.entry.code.now) job.entry.budget
        (pairs_of assignments.now) (pairs_of first.now)) }
{
    files_follow::<PlainStore>();
    faults_follow();
    let mut input = no_input(alloc)?;
    let mut prologue = begin(alloc, job, assignments)?;
    if !has_records(job, &prologue) {
        let outcome = go_on(job, prologue, &mut input)?;
        return Ok(Begun::Ended(outcome, Route::NoMain));
    }
    assign(job, &mut prologue.globals, first)?;
    let roles = roles_of(alloc, job, &prologue)?;
    let separator = prologue.make_ready(&mut input)?;
    match separator {
        Some(rs) => Ok(Begun::Flows(start_of(alloc, prologue, rs, roles)?)),
        None => {
            let outcome = go_on(job, prologue, &mut input)?;
            Ok(Begun::Ended(outcome, route_of(roles)))
        }
    }
}
