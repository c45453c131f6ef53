//! Letters in the texts of expressions that have no effect.
//!
//! POSIX.1-2017, awk, "String Functions" (`tolower`, `toupper`).

ghost use Rattle.std.specs.Prelude.{◌≡◌, ◌≤◌, ◌++◌, IfOk, OnOk};
ghost use Rattle.pawk_value.specs.Conversion.{text_of};
ghost use Rattle.pawk_value.specs.Held.{added};
ghost use Rattle.pawk_code.specs.Expressions as codes;
ghost use Rattle.pawk_code.specs.ExpressionViews.{leaf_view, view};
ghost use Rattle.pawk_store.specs.Builtins.{letters_in};
ghost use Rattle.pawk_store.specs.Meaning.{leaf_value};
ghost use Rattle.pawk_runtime.specs.Moments.{moment};
ghost use Rattle.pawk_runtime.specs.Texts.{IsQuickText};

use crate::leaves::{lend_leaf, prepare_leaf};
use crate::quick::{LEVELS, quick_field};
use crate::run::Run;
use itoa::Buffer;
use pawk_builtins::push_letters;
use pawk_code::expression::{Expr, Lvalue};
use pawk_code::leaf::Leaf;
use pawk_code::word::Case;
use pawk_value::text_in;
use pawk_world::World;
use std::alloc::AllocError;

/// Appends the text of a leaf with its ASCII letters in one case. Nothing else is copied.
fn push_case<W: World>(
    case: Case,
    leaf: &Leaf,
    out: &mut Vec<u8>,
    world: &W,
    run: &mut Run<'_>,
) -> Result<(), AllocError>
    ensures same { moment (W.state world.now) run.new ≡ moment (W.state world.now) run.old }
    ensures left { run.new.left ≤ run.old.left }
    ensures appended { OnOk result
        (out.new.items ≡ out.old.items ++ added out.old.items out.new.items) }
    ensures text { OnOk result (added out.old.items out.new.items
        ≡ letters_in case (text_of (leaf_value W.calls (leaf_view leaf.now)
        (moment (W.state world.now) run.old)))) }
{
    prepare_leaf(leaf, &mut run.state)?;
    let mut buffer = Buffer::new();
    push_letters(case, text_in(lend_leaf(leaf, world, run), &mut buffer), out)
}

/// Appends the text of an expression with its ASCII letters in one case, where the expression is a leaf or a
/// field. Says whether it is; if not, nothing is appended.
///
/// POSIX.1-2017, awk, "String Functions" (`tolower`, `toupper`).
pub(crate) fn quick_letters<W: World>(
    case: Case,
    e: &Expr,
    out: &mut Vec<u8>,
    world: &W,
    run: &mut Run<'_>,
) -> Result<bool, AllocError>
    ensures same { moment (W.state world.now) run.new ≡ moment (W.state world.now) run.old }
    ensures left { run.new.left ≤ run.old.left }
    ensures text { IfOk result (λ found. IsQuickText W.calls (codes.letters case (view e.now))
        (moment (W.state world.now) run.old) out.old.items out.new.items found) }
{
    match e {
        Expr::Leaf(leaf) => push_case(case, leaf, out, world, run)?,
        Expr::Read(Lvalue::Field(index)) => match quick_field(index, LEVELS, world, run) {
            Some(field) => push_case(case, &Leaf::Field(field), out, world, run)?,
            None => return Ok(false),
        },
        _ => return Ok(false),
    }
    Ok(true)
}
