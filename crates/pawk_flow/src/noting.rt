//! Pieces that one worker runs, which notes what references create.

ghost use Rattle.std.specs.Prelude.{◌↔◌, ◌≤◌, length, IfOk, IsTrue};
ghost use Rattle.pawk_code.specs.ProgramViews.{code_view};
ghost use Rattle.pawk_admit.specs.Roles.{roles_view};
ghost use Rattle.pawk_store.specs.LeftViews.{left_view};
ghost use Rattle.pawk_merge_law.specs.Phases.{IsFault, MayRun};
ghost use Rattle.pawk_pieces.specs.Pieces.{GoesInChunks, RunsPiece, phase_between};

use crate::turn::run_piece_over;
use pawk_admit::Roles;
use pawk_merge_law::merge_law::Store;
use pawk_merge_law::trace_changes_nothing;
use pawk_merge_law::window_law::{may_run_on, numbers_alike};
use pawk_noted::NotedGlobals;
use pawk_pieces::{Flow, Job, Left, Piece, PieceEnd, PieceRefusal};

/// Whether records ended in a fault.
fn is_fault(left: Left) -> bool
    ensures { IsTrue result ↔ IsFault (left_view left) }
{
    match left {
        Left::Through => false,
        Left::NextFile => false,
        Left::Exit(_) => false,
        Left::Fault(_) => true,
        Left::Clash => false,
    }
}

/// Runs the next piece of a file one record after the other, where it may be run in chunks, and tells what chunks would: it
/// is stopped where its records end in a fault, or where a reference creates an element of an array that is no reader array.
/// Else the next piece may be run so, too. What the records do with each global is given by the roles. What was lent is
/// unchanged.
///
/// `Memory` comes where memory was refused, and `Input` where the records cannot be counted on.
///
/// POSIX.1-2017, awk, "Overall Program Structure".
pub fn run_piece_noting(
    job: Job<'_>,
    flow: Flow,
    roles: &Roles,
    piece: Piece<'_>,
) -> Result<(Flow, PieceEnd), PieceRefusal>
    requires one_byte { length piece.rs.now ≤ 1 }
    requires ready { MayRun
        (phase_between (code_view job.code.now) (roles_view roles.now) job.budget flow) }
    ensures runs { IfOk result (λ r. RunsPiece (code_view job.entry.code.now) job.entry.budget
        piece.entry flow r.0 r.1) }
    ensures goes { IfOk result (λ r. GoesInChunks (code_view job.entry.code.now)
        (roles_view roles.now) job.entry.budget piece.entry flow r.0 r.1.is_stopped) }
{
    numbers_alike::<Store>();
    trace_changes_nothing();
    may_run_on();
    let Flow {
        alloc,
        globals,
        state,
    } = flow;
    let mut noted = NotedGlobals::new(alloc, globals);
    let (state, end) = run_piece_over(alloc, job, &mut noted, state, piece)?;
    let mut end = end;
    end.is_stopped = is_fault(end.left) || noted.has_created(roles);
    let flow = Flow {
        alloc,
        globals: noted.into_globals(),
        state,
    };
    Ok((flow, end))
}
