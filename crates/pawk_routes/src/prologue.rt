//! A run after BEGIN.

ghost use Rattle.std.specs.Prelude.{◌≡◌, ◌↔◌, ◌<◌, ◌≤◌, length, IfOk, IsTrue, MatchOption};
ghost use Rattle.pawk_code.specs.ProgramViews.{code_view};
ghost use Rattle.pawk_input.specs.Input.{IsReady, files_of};
ghost use Rattle.pawk_store.specs.Globals.{calls};
ghost use Rattle.pawk_store.specs.Openings.{pairs_of};
ghost use Rattle.pawk_store.specs.LeftViews.{left_view};
ghost use Rattle.pawk_store.specs.Runs as spec;
ghost use Rattle.pawk_sequential.specs.RunEnds.{Answers};
ghost use Rattle.pawk_routes.specs.Prologue.{end_of};
ghost use Rattle.pawk_routes.specs.Routes.{HasRecords, begin_end, separator_of};

use pawk_input::Input;
use pawk_sequential::{
    Job, Left, Outcome, Run, make_ready, opening_run, run_after_begin, run_begin,
};
use pawk_settings::Assignment;
use pawk_store::Globals;
use std::alloc::{AllocError, Global};

/// What BEGIN leaves.
#[derive(Drop)]
pub struct Prologue<'a> {
    /// The globals.
    pub globals: Globals,
    /// The record state, and the output.
    pub run: Run<'a>,
    /// How BEGIN was left.
    pub left: Left,
}

impl<'a> Prologue<'a> {
    /// Takes RS as BEGIN left it and makes the input ready for it, and gives its bytes; nothing where they
    /// are several. The input's names and bytes stay as they are. An error where memory is refused.
    ///
    /// POSIX.1-2017, awk, "Variables and Special Variables" (`RS`).
    pub fn make_ready(&mut self, input: &mut Input) -> Result<Option<Vec<u8>>, AllocError>
        ensures taken { IfOk result (λ _. spec.take_separator
            (separator_of (end_of self.old)) (end_of self.old) ≡ end_of self.new) }
        ensures ready { IfOk result (λ found. MatchOption found
            (1 < length (separator_of (end_of self.old)))
            (λ rs. (rs.items ≡ separator_of (end_of self.old))
            × (length rs.items ≤ 1) × IsReady rs.items input.new)) }
        ensures same { files_of input.new ≡ files_of input.old }
    {
        let found = make_ready(&self.globals, input, &mut self.run)?;
        Ok(found)
    }
}

/// Runs BEGIN, with these assignments made before. An error where memory is refused.
///
/// POSIX.1-2017, awk, "Overall Program Structure".
pub fn begin<'a>(
    alloc: Global,
    job: Job<'_>,
    assignments: &[Assignment],
) -> Result<Prologue<'a>, AllocError>
    ensures { IfOk result (λ prologue.
        begin_end (code_view job.entry.code.now) job.entry.budget (pairs_of assignments.now)
        ≡ end_of prologue) }
{
    let names = job.code.scalars.as_slice();
    let arrays = job.code.arrays.len();
    let mut globals = Globals::open(alloc, job.seed, names, arrays, assignments)?;
    let mut run = opening_run(alloc, job)?;
    let left = run_begin(job, &mut globals, &mut run)?;
    Ok(Prologue { globals, run, left })
}

/// Whether records are read after BEGIN that was left so.
pub fn has_records(job: Job<'_>, prologue: &Prologue<'_>) -> bool
    ensures { IsTrue result ↔ HasRecords (code_view job.entry.code.now) (end_of prologue.now) }
{
    match prologue.left {
        Left::Through => job.reads_records(),
        Left::NextFile => false,
        Left::Exit(_) => false,
        Left::Fault(_) => false,
        Left::Clash => false,
    }
}

/// Goes on after BEGIN on this thread, with all records and END, or with END where no record is read. The
/// input's names and bytes stay as they are. An error where memory is refused.
///
/// POSIX.1-2017, awk, "Overall Program Structure".
pub fn go_on(job: Job<'_>, prologue: Prologue<'_>, input: &mut Input) -> Result<Outcome, AllocError>
    ensures outcome { IfOk result (Answers (spec.after_begin calls
        (code_view job.entry.code.now).expressions (code_view job.entry.code.now)
        job.entry.budget (files_of input.old) (left_view prologue.entry.left)
        (end_of prologue.entry))) }
    ensures same { files_of input.new ≡ files_of input.old }
{
    let Prologue { globals, run, left } = prologue;
    let mut globals = globals;
    let finish = run_after_begin(job, left, input, &mut globals, run)?;
    Ok(Outcome::of(finish, globals))
}
