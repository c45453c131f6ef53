//! Operands in rows, and the text of a pattern.

ghost use Rattle.std.specs.Prelude.{◌≤◌};
ghost use Rattle.pawk_code.specs.Expressions.{exprs};
ghost use Rattle.pawk_code.specs.ExpressionViews.{pattern_view, views};
ghost use Rattle.pawk_store.specs.Meaning.{operand_of, texts_of, values_of};
ghost use Rattle.pawk_runtime.specs.Moments.{moment};
ghost use Rattle.pawk_runtime.specs.Yields.{Yields};
ghost use Rattle.pawk_eval.specs.Contexts.{enter_in, eres_in};

use crate::expressions::{eval, text, text_into};
use crate::layer::Layer;
use pawk_array::Texts;
use pawk_builtins::Values;
use pawk_code::expression::{Expr, Pattern};
use pawk_runtime::Run;
use pawk_world::{Halt, World};

/// Appends the text of each expression, which is made in `scratch`.
#[cycle(evaluate)]
pub(crate) fn texts<W: World>(
    layer: Layer<'_>,
    es: &[Expr],
    parts: &mut Texts,
    scratch: &mut Vec<u8>,
    world: &mut W,
    run: &mut Run<'_>,
) -> Result<(), Halt>
    ensures left { run.new.left ≤ run.old.left }
    ensures outcome { Yields (λ _. parts.new)
        (texts_of W.calls (eres_in layer.entry) (enter_in W.calls layer.entry)
        (exprs (views es.now)) parts.old
        (moment (W.state world.old) run.old)) result (moment (W.state world.new) run.new) }
{
    for e in es {
        scratch.clear();
        text_into(layer, e, scratch, world, run)?;
        parts.push(scratch.as_slice())?;
    }
    Ok(())
}

/// Appends the value of each expression, whose bytes are made in `scratch`.
#[cycle(evaluate)]
pub(crate) fn values<W: World>(
    layer: Layer<'_>,
    es: &[Expr],
    parts: &mut Values,
    scratch: &mut Vec<u8>,
    world: &mut W,
    run: &mut Run<'_>,
) -> Result<(), Halt>
    ensures left { run.new.left ≤ run.old.left }
    ensures outcome { Yields (λ _. parts.new)
        (values_of W.calls (eres_in layer.entry) (enter_in W.calls layer.entry)
        (exprs (views es.now)) parts.old
        (moment (W.state world.old) run.old)) result (moment (W.state world.new) run.new) }
{
    for e in es {
        scratch.clear();
        let held = eval(layer, e, scratch, world, run)?;
        parts.push(held, scratch.as_slice())?;
    }
    Ok(())
}

/// The text of a pattern, where it is a value.
#[cycle(evaluate)]
pub(crate) fn operand<W: World>(
    layer: Layer<'_>,
    pattern: &Pattern,
    world: &mut W,
    run: &mut Run<'_>,
) -> Result<Vec<u8>, Halt>
    ensures left { run.new.left ≤ run.old.left }
    ensures outcome { Yields (λ text. text.items)
        (operand_of W.calls (eres_in layer.entry) (enter_in W.calls layer.entry)
        (pattern_view pattern.now)
        (moment (W.state world.old) run.old)) result (moment (W.state world.new) run.new) }
{
    match pattern {
        Pattern::Fixed(_) => Ok(Vec::new(run.alloc)),
        Pattern::Value(e) => text(layer, e, world, run),
    }
}
