//! Parts of the texts of leaves.
//!
//! POSIX.1-2017, awk, "String Functions" (`substr`).

ghost use Rattle.std.specs.Prelude.{◌≡◌, ◌≤◌, ◌++◌, int_le, pos, IfOk, OnOk};
ghost use Rattle.pawk_value.specs.Conversion.{text_of};
ghost use Rattle.pawk_value.specs.Held.{added};
ghost use Rattle.pawk_code.specs.Expressions as codes;
ghost use Rattle.pawk_code.specs.ExpressionViews.{leaf_view, view};
ghost use Rattle.pawk_store.specs.Builtins.{bytes_where, is_from};
ghost use Rattle.pawk_store.specs.Meaning.{leaf_value};
ghost use Rattle.pawk_runtime.specs.Moments.{moment};
ghost use Rattle.pawk_runtime.specs.Texts.{IsQuickText};

use crate::leaves::{lend_leaf, prepare_leaf};
use crate::quick::{LEVELS, quick_number};
use crate::run::Run;
use itoa::Buffer;
use pawk_builtins::{substring, suffix};
use pawk_code::expression::Expr;
use pawk_code::leaf::Leaf;
use pawk_value::text_in;
use pawk_world::World;
use std::alloc::AllocError;

/// Appends the text of a leaf from a place on, counted from 1. Nothing else is copied.
fn push_suffix<W: World>(
    leaf: &Leaf,
    from: i64,
    out: &mut Vec<u8>,
    world: &W,
    run: &mut Run<'_>,
) -> Result<(), AllocError>
    ensures same { moment (W.state world.now) run.new ≡ moment (W.state world.now) run.old }
    ensures left { run.new.left ≤ run.old.left }
    ensures appended { OnOk result
        (out.new.items ≡ out.old.items ++ added out.old.items out.new.items) }
    ensures text { OnOk result (added out.old.items out.new.items
        ≡ bytes_where (λ p. int_le from (pos p)) 1 (text_of (leaf_value W.calls
        (leaf_view leaf.now) (moment (W.state world.now) run.old)))) }
{
    prepare_leaf(leaf, &mut run.state)?;
    let mut buffer = Buffer::new();
    let text = text_in(lend_leaf(leaf, world, run), &mut buffer);
    out.extend_from_slice(suffix(text, from))
}

/// Appends `count` bytes of the text of a leaf from a place on, counted from 1. Nothing else is copied.
fn push_substring<W: World>(
    leaf: &Leaf,
    from: i64,
    count: i64,
    out: &mut Vec<u8>,
    world: &W,
    run: &mut Run<'_>,
) -> Result<(), AllocError>
    ensures same { moment (W.state world.now) run.new ≡ moment (W.state world.now) run.old }
    ensures left { run.new.left ≤ run.old.left }
    ensures appended { OnOk result
        (out.new.items ≡ out.old.items ++ added out.old.items out.new.items) }
    ensures text { OnOk result (added out.old.items out.new.items
        ≡ bytes_where (is_from from count) 1 (text_of (leaf_value W.calls (leaf_view leaf.now)
        (moment (W.state world.now) run.old)))) }
{
    prepare_leaf(leaf, &mut run.state)?;
    let mut buffer = Buffer::new();
    let text = text_in(lend_leaf(leaf, world, run), &mut buffer);
    out.extend_from_slice(substring(text, from, count))
}

/// Appends the text of an expression from a place on, where the expression is a leaf and the place a number that
/// is quickly found. Says whether they are; if not, nothing is appended.
///
/// POSIX.1-2017, awk, "String Functions" (`substr`).
pub(crate) fn quick_suffix<W: World>(
    e: &Expr,
    from: &Expr,
    out: &mut Vec<u8>,
    world: &W,
    run: &mut Run<'_>,
) -> Result<bool, AllocError>
    ensures same { moment (W.state world.now) run.new ≡ moment (W.state world.now) run.old }
    ensures left { run.new.left ≤ run.old.left }
    ensures text { IfOk result (λ found. IsQuickText W.calls
        (codes.suffix (view e.now) (view from.now))
        (moment (W.state world.now) run.old) out.old.items out.new.items found) }
{
    let Expr::Leaf(leaf) = e else {
        return Ok(false);
    };
    let Some(from) = quick_number(from, LEVELS, world, run) else {
        return Ok(false);
    };
    push_suffix(leaf, from, out, world, run)?;
    Ok(true)
}

/// Appends a given number of bytes of the text of an expression from a place on, where the expression is a leaf and
/// both are numbers that are quickly found. Says whether they are; if not, nothing is appended.
///
/// POSIX.1-2017, awk, "String Functions" (`substr`).
pub(crate) fn quick_substring<W: World>(
    e: &Expr,
    from: &Expr,
    count: &Expr,
    out: &mut Vec<u8>,
    world: &W,
    run: &mut Run<'_>,
) -> Result<bool, AllocError>
    ensures same { moment (W.state world.now) run.new ≡ moment (W.state world.now) run.old }
    ensures left { run.new.left ≤ run.old.left }
    ensures text { IfOk result (λ found. IsQuickText W.calls
        (codes.substring (view e.now) (view from.now) (view count.now))
        (moment (W.state world.now) run.old) out.old.items out.new.items found) }
{
    let Expr::Leaf(leaf) = e else {
        return Ok(false);
    };
    let Some(from) = quick_number(from, LEVELS, world, run) else {
        return Ok(false);
    };
    let Some(count) = quick_number(count, LEVELS, world, run) else {
        return Ok(false);
    };
    push_substring(leaf, from, count, out, world, run)?;
    Ok(true)
}
