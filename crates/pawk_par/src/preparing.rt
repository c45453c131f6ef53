//! What is reported about a request before anything is read.

ghost use Rattle.std.specs.Prelude.{◌≡◌, IfOk, IfErr};
ghost use Rattle.pawk_syntax.specs.Programs.{parts};
ghost use Rattle.pawk_syntax.specs.Spells.{Spells};
ghost use Rattle.pawk_code.specs.ProgramViews.{code_view};
ghost use Rattle.pawk_settings.specs.SettingsViews.{asked};
ghost use Rattle.pawk_store.specs.Openings.{pairs_of};
ghost use Rattle.pawk_par.specs.Requests.{AreSettings, IsAccepted};
ghost use Rattle.pawk_par.specs.Requests.{WhyNoProgram, WhyNoSettings, WhyUnaccepted};

use crate::refusal::StreamRefusal;
use crate::request::Request;
use pawk_code::program::Code;
use pawk_resolve_program::program::resolve;
use pawk_settings::{Settings, SettingsRefusal};
use pawk_syntax::{Program, SyntaxRefusal, parse};
use std::alloc::Global;

/// The program of a text.
fn read_program(alloc: Global, text: &[u8]) -> Result<Program, StreamRefusal>
    ensures read { IfOk result (λ program. Spells text.now (parts program)) }
    ensures refused { IfErr result (WhyNoProgram text.now) }
{
    match parse(alloc, text) {
        Ok(program) => Ok(program),
        Err(SyntaxRefusal::Memory) => Err(StreamRefusal::Memory),
        Err(why) => Err(StreamRefusal::Program(why)),
    }
}

/// The settings of a run of this program.
fn read_settings(
    alloc: Global,
    request: &Request<'_>,
    program: &Program,
) -> Result<Settings, StreamRefusal>
    ensures accepted { IfOk result (λ settings. AreSettings (parts program.now)
        (asked request.now.assigns.now) request.now.budget (pairs_of settings.assignments.items)) }
    ensures refused { IfErr result (WhyNoSettings (parts program.now)
        (asked request.now.assigns.now) request.now.budget) }
{
    match Settings::new(alloc, program.tree(), request.assigns, request.budget) {
        Ok(settings) => Ok(settings),
        Err(SettingsRefusal::Memory) => Err(StreamRefusal::Memory),
        Err(why) => Err(StreamRefusal::Settings(why)),
    }
}

/// Reads the text of a request as a program, and looks at what it assigns and at its budget: gives the program's
/// code and its settings. Nothing of its input is read for it.
///
/// `Program` comes where the text is refused, with its cause and place; `Settings` where an assignment or the budget
/// is refused, the first at fault; `Memory` where memory was refused. No other refusal comes.
///
/// POSIX.1-2017, awk, "OPTIONS" (-v) and "Grammar".
pub fn prepare(alloc: Global, request: &Request<'_>) -> Result<(Code, Settings), StreamRefusal>
    ensures accepted { IfOk result (λ r.
        IsAccepted request.now (code_view r.0) (pairs_of r.1.assignments.items)) }
    ensures refused { IfErr result (WhyUnaccepted request.now) }
{
    let program = read_program(alloc, request.text)?;
    let settings = read_settings(alloc, request, &program)?;
    let code = resolve(alloc, &program)?;
    Ok((code, settings))
}
