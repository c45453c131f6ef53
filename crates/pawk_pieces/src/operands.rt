//! Assignments among the operands of a run.

ghost use Rattle.std.specs.Prelude.{◌≡◌, OnOk, unwrap_or};
ghost use Rattle.std.specs.Option.{option_map};
ghost use Rattle.pawk_value.specs.Value.{Val, Maybe};
ghost use Rattle.pawk_code.specs.ProgramViews.{code_view};
ghost use Rattle.pawk_store.specs.Openings.{pairs_of, value_after};
ghost use Rattle.pawk_world.specs.Worlds.{scalar};
ghost use Rattle.pawk_store.specs.Globals.{with_value};
ghost use Rattle.pawk_pieces.specs.Operands.{AssignedLaw, PlainLaw, ReadyLaw, assigned};

use crate::law::PlainStore;
use pawk_merge_law::admission_allows;
use pawk_merge_law::window_law::{faults_follow, files_follow};
use pawk_sequential::Job;
use pawk_settings::Assignment;
use pawk_store::Globals;
use pawk_value::ValueRef;
use pawk_world::World;
use std::alloc::AllocError;

/// The value that a name is assigned last, if it is assigned one.
fn last_value<'a>(assignments: &'a [Assignment], name: &[u8]) -> Option<&'a [u8]>
    ensures { (v : Val) → value_after (pairs_of assignments.now) name.now v
        ≡ unwrap_or (option_map (λ text. Maybe text.now) result) v }
{
    let mut last = None;
    for assignment in assignments {
        if name == assignment.name.as_slice() {
            last = Some(assignment.value.as_slice());
        }
    }
    last
}

/// Gives a scalar a text from outside; past the last slot it is lost. The error comes where memory was refused.
fn set_text(globals: &mut Globals, slot: usize, text: &[u8]) -> Result<(), AllocError>
    ensures { OnOk result (globals.new ≡ with_value (scalar slot) (Maybe text.now) globals.old) }
{
    match globals.set_scalar(slot, ValueRef::Maybe(text)) {
        Ok(()) => Ok(()),
        Err(_) => Err(AllocError),
    }
}

/// Makes assignments among the operands, in their order: each scalar of the program has what its name is assigned
/// last, a text that is numeric where it looks like a number, or stays as it is. A name that is no scalar of the
/// program changes nothing. Those before the first file are made after BEGIN, those before another file before
/// it is read, and those after the last file before END.
///
/// The error comes where memory was refused; some of them may then be made.
///
/// POSIX.1-2017, awk, "OPERANDS" (assignment).
pub fn assign(
    job: Job<'_>,
    globals: &mut Globals,
    assignments: &[Assignment],
) -> Result<(), AllocError>
    ensures { OnOk result (globals.new ≡ assigned (code_view job.entry.code.now).scalars
        (pairs_of assignments.now) globals.old) }
{
    for (slot, name) in job.code.scalars.iter().enumerate() {
        if let Some(text) = last_value(assignments, name.as_slice()) {
            set_text(globals, slot, text)?;
        }
    }
    Ok(())
}

/// Where nothing is assigned among the files, the run over them is the run of the files, and goes its way. A law,
/// which takes and leaves nothing.
///
/// POSIX.1-2017, awk, "OPERANDS".
pub fn plain_operands_run()
    ensures { PlainLaw }
{
    files_follow::<PlainStore>();
    faults_follow();
    admission_allows();
}

/// No assignment changes nothing, and assignments one after the other are those of both together. A law, which takes
/// and leaves nothing.
///
/// POSIX.1-2017, awk, "OPERANDS" (assignment).
pub fn assignments_follow()
    ensures { AssignedLaw }
{}

/// Records that may be run in chunks may be run so after assignments. A law, which takes and leaves nothing.
///
/// POSIX.1-2017, awk, "OPERANDS" (assignment).
pub fn assignments_keep_ready()
    ensures { ReadyLaw }
{}
