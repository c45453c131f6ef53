//! Texts that are made of leaves alone.
//!
//! POSIX.1-2017, awk, "String Functions".

ghost use Rattle.std.specs.Prelude.{◌≡◌, ◌≤◌, IfOk};
ghost use Rattle.pawk_code.specs.ExpressionViews.{textual_view};
ghost use Rattle.pawk_runtime.specs.Moments.{moment};
ghost use Rattle.pawk_runtime.specs.Texts.{IsQuickText};

use crate::letters::quick_letters;
use crate::run::Run;
use crate::substrings::{quick_substring, quick_suffix};
use pawk_code::expression::Textual;
use pawk_world::World;
use std::alloc::AllocError;

/// Appends what gives a text, where it is a part of a leaf between numbers that are quickly found, or a leaf or a field
/// whose letters change. Says whether it is; if not, nothing is appended.
///
/// POSIX.1-2017, awk, "String Functions" (`substr`, `tolower`, `toupper`).
#[inline(always)]
pub fn quick_text<W: World>(
    t: &Textual,
    out: &mut Vec<u8>,
    world: &W,
    run: &mut Run<'_>,
) -> Result<bool, AllocError>
    ensures same { moment (W.state world.now) run.new ≡ moment (W.state world.now) run.old }
    ensures left { run.new.left ≤ run.old.left }
    ensures text { IfOk result (λ found. IsQuickText W.calls (textual_view t.now)
        (moment (W.state world.now) run.old) out.old.items out.new.items found) }
{
    match t {
        Textual::Suffix(e, from) => quick_suffix(e, from, out, world, run),
        Textual::Substring(e, from, count) => quick_substring(e, from, count, out, world, run),
        Textual::Case(case, e) => quick_letters(*case, e, out, world, run),
        Textual::Join(_) | Textual::Format(_, _) => Ok(false),
    }
}
