//! Canonical texts.

ghost use Rattle.std.specs.Prelude.{◌≡◌, IfOk};
ghost use Rattle.pawk_syntax_show.specs.ProgramText.{program_text};
ghost use Rattle.pawk_syntax.specs.Programs.{parts};

use crate::program::Program;
use pawk_syntax_show::item;
use std::alloc::{AllocError, Global};

/// The canonical text of a program: each operator in round brackets, single spaces, and each
/// statement and item on lines of its own.
pub fn show(alloc: Global, program: &Program) -> Result<Vec<u8>, AllocError>
    ensures { IfOk result (λ text. text.items ≡ program_text (parts program.now)) }
{
    item::show(alloc, program.tree())
}
