//! Prints of expressions that have no effect.
//!
//! POSIX.1-2017, awk, "Output Statements" (`print`).

ghost use Rattle.std.specs.Prelude.{
  ◌≡◌,
  ◌≤◌,
  ◌++◌,
  ℕ,
  List,
  [],
  None,
  false,
  true,
  IfErr,
  IfOk,
  OnOk,
};
ghost use Rattle.std.specs.List.{list_all};
ghost use Rattle.pawk_value.specs.Conversion.{text_of};
ghost use Rattle.pawk_value.specs.Value.{Num, Val};
ghost use Rattle.pawk_world.specs.Halts.{halt_of};
ghost use Rattle.pawk_code.specs.Expressions.{exprs};
ghost use Rattle.pawk_code.specs.Expressions as codes;
ghost use Rattle.pawk_code.specs.ExpressionViews.{leaf_view, numeric_view, view, views};
ghost use Rattle.pawk_store.specs.Meaning.{print_line, texts_of};
ghost use Rattle.pawk_store.specs.Parts.{Hold, Part, bind, gives};
ghost use Rattle.pawk_runtime.specs.Moments.{moment};
ghost use Rattle.pawk_runtime.specs.Plain.{ArePushed, IsPushed, between};
ghost use Rattle.pawk_runtime.specs.Plain as spec;

use crate::leaves::leaf_text;
use crate::outputs::print_alone;
use crate::quick::quick_numeric;
use crate::run::{Run, give_back, take_buffer};
use crate::scalars::{push_separator, scalar_text};
use itoa::Buffer;
use pawk_code::expression::{Expr, Numeric};
use pawk_code::leaf::Leaf;
use pawk_code::slots::OFS;
use pawk_world::{Halt, World};
use std::alloc::AllocError;

/// This number of levels of operations is evaluated before the text of a number is stored as others are.
const TEXT_LEVELS: u32 = 16;

/// Whether an expression is a leaf or gives a number.
fn is_plain(e: &Expr) -> bool
    ensures { result ≡ spec.is_plain (view e.now) }
{
    match e {
        Expr::Leaf(_) => true,
        Expr::Numeric(_) => true,
        _ => false,
    }
}

/// Whether each expression is a leaf or gives a number.
pub fn are_plain(es: &[Expr]) -> bool
    ensures { result ≡ list_all (λ e. spec.is_plain (view e)) es.now }
{
    es.iter().all(|e| is_plain(e))
}

/// Appends the text of a number.
fn push_number(number: i64, out: &mut Vec<u8>) -> Result<(), AllocError>
    ensures { OnOk result (out.new.items ≡ out.old.items ++ text_of (Num number)) }
{
    let mut buffer = Buffer::new();
    out.extend_from_slice(buffer.format(number).as_bytes())
}

/// Appends the text of a leaf.
#[inline(always)]
fn push_leaf<W: World>(
    leaf: &Leaf,
    out: &mut Vec<u8>,
    world: &W,
    run: &mut Run<'_>,
) -> Result<bool, Halt>
    ensures same { OnOk result
        (moment (W.state world.now) run.new ≡ moment (W.state world.now) run.old) }
    ensures left { run.new.left ≤ run.old.left }
    ensures refused { IfErr result (λ e. halt_of e ≡ None) }
    ensures text { IfOk result (λ pushed. pushed ≡ true → IsPushed W.calls
        (codes.leaf (leaf_view leaf.now))
        (moment (W.state world.now) run.old) out.old.items out.new.items) }
{
    leaf_text(leaf, out, world, run)?;
    Ok(true)
}

/// Appends the text of a number that is found without an effect. Says whether it is.
#[inline(always)]
fn push_numeric<W: World>(
    n: &Numeric,
    out: &mut Vec<u8>,
    world: &W,
    run: &mut Run<'_>,
) -> Result<bool, Halt>
    ensures same { OnOk result
        (moment (W.state world.now) run.new ≡ moment (W.state world.now) run.old) }
    ensures left { run.new.left ≤ run.old.left }
    ensures refused { IfErr result (λ e. halt_of e ≡ None) }
    ensures text { IfOk result (λ pushed. pushed ≡ true → IsPushed W.calls
        (codes.numeric (numeric_view n.now))
        (moment (W.state world.now) run.old) out.old.items out.new.items) }
{
    let Some(number) = quick_numeric(n, TEXT_LEVELS, world, run) else {
        return Ok(false);
    };
    push_number(number, out)?;
    Ok(true)
}

/// Appends the text of an expression, where it is a leaf or a number that is found without an effect.
/// Says whether it is.
#[inline(always)]
pub(crate) fn push_plain<W: World>(
    e: &Expr,
    out: &mut Vec<u8>,
    world: &W,
    run: &mut Run<'_>,
) -> Result<bool, Halt>
    ensures same { OnOk result
        (moment (W.state world.now) run.new ≡ moment (W.state world.now) run.old) }
    ensures left { run.new.left ≤ run.old.left }
    ensures refused { IfErr result (λ e. halt_of e ≡ None) }
    ensures text { IfOk result (λ pushed. pushed ≡ true → IsPushed W.calls (view e.now)
        (moment (W.state world.now) run.old) out.old.items out.new.items) }
{
    match e {
        Expr::Leaf(leaf) => push_leaf(leaf, out, world, run),
        Expr::Numeric(n) => push_numeric(n, out, world, run),
        _ => Ok(false),
    }
}

/// Appends what separates the text of this number, counted from 0, from the one before it.
#[inline(always)]
fn push_between(number: usize, ofs: &[u8], out: &mut Vec<u8>) -> Result<(), AllocError>
    ensures { OnOk result (out.new.items ≡ out.old.items ++ between number ofs.now) }
{
    if number == 0 {
        return Ok(());
    }
    push_separator(ofs, out)
}

/// Appends the texts of expressions with OFS between them, as long as each is found without an effect. Says
/// whether all are.
fn push_all<W: World>(
    es: &[Expr],
    out: &mut Vec<u8>,
    world: &W,
    run: &mut Run<'_>,
) -> Result<bool, Halt>
    requires { out.old.items ≡ [] }
    ensures same { OnOk result
        (moment (W.state world.now) run.new ≡ moment (W.state world.now) run.old) }
    ensures left { run.new.left ≤ run.old.left }
    ensures refused { IfErr result (λ e. halt_of e ≡ None) }
    ensures texts { IfOk result (λ all. all ≡ true → ArePushed W.calls (exprs (views es.now))
        (moment (W.state world.now) run.old) out.new.items) }
{
    let mut buffer = Buffer::new();
    let ofs = scalar_text(OFS, world, &mut buffer);
    for (number, e) in es.iter().enumerate() {
        push_between(number, ofs, out)?;
        let pushed = push_plain(e, out, world, run)?;
        if !pushed {
            return Ok(false);
        }
    }
    Ok(true)
}

/// Prints expressions with OFS between them and ORS after them, where each is found without an effect; else
/// nothing is printed. Says whether they were printed.
///
/// POSIX.1-2017, awk, "Output Statements" (`print`).
pub fn print_plain<W: World>(es: &[Expr], world: &W, run: &mut Run<'_>) -> Result<bool, Halt>
    ensures left { run.new.left ≤ run.old.left }
    ensures refused { IfErr result (λ e. halt_of e ≡ None) }
    ensures same { IfOk result (λ printed. printed ≡ false
        → moment (W.state world.now) run.new ≡ moment (W.state world.now) run.old) }
    ensures printed { IfOk result (λ printed. printed ≡ true → (eres : List (List ℕ))
        → (enter : ℕ → List Hold → Part W.State Val)
        → bind (texts_of W.calls eres enter (exprs (views es.now)) []) (print_line W.calls)
        (moment (W.state world.now) run.old) ≡ gives tt (moment (W.state world.now) run.new)) }
{
    let mut line = take_buffer(run.alloc, &mut run.spare);
    let all = push_all(es, &mut line, world, run)?;
    if all {
        print_alone(&line, world, run)?;
    }
    give_back(&mut run.spare, line);
    Ok(all)
}
