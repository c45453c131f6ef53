//! What gives texts.
//!
//! POSIX.1-2017, awk, "Expressions in awk" and "String Functions".

ghost use Rattle.std.specs.Prelude.{◌≡◌, ◌≤◌, ◌++◌, length, OnOk};
ghost use Rattle.pawk_value.specs.Held.{added};
ghost use Rattle.pawk_code.specs.Expressions.{exprs};
ghost use Rattle.pawk_code.specs.Expressions as codes;
ghost use Rattle.pawk_code.specs.ExpressionViews.{format_view, textual_view, views};
ghost use Rattle.pawk_store.specs.Meaning.{joined_texts, text_of_textual};
ghost use Rattle.pawk_runtime.specs.Moments.{moment};
ghost use Rattle.pawk_runtime.specs.Yields.{Yields};
ghost use Rattle.pawk_eval.specs.Contexts.{enter_in, eres_in};

use crate::expressions::{number, text, text_into};
use crate::layer::Layer;
use crate::operands::values;
use pawk_builtins::{both, push_letters, substring, suffix, within_limit};
use pawk_code::expression::{Expr, Format, Textual};
use pawk_runtime::{Run, fill_format, give_back, quick_text, take_buffer, take_values};
use pawk_world::{Halt, World};

/// Appends what gives a text. A leaf of which a part is taken, and a leaf or a field by a number whose letters change, are not
/// copied first.
#[cycle(evaluate)]
pub(crate) fn textual<W: World>(
    layer: Layer<'_>,
    t: &Textual,
    out: &mut Vec<u8>,
    world: &mut W,
    run: &mut Run<'_>,
) -> Result<(), Halt>
    ensures left { run.new.left ≤ run.old.left }
    ensures appended { OnOk result
        (out.new.items ≡ out.old.items ++ added out.old.items out.new.items) }
    ensures outcome { Yields (λ _. added out.old.items out.new.items)
        (text_of_textual W.calls (eres_in layer.entry) (enter_in W.calls layer.entry)
        (textual_view t.now)
        (moment (W.state world.old) run.old)) result (moment (W.state world.new) run.new) }
{
    if quick_text(t, out, world, run)? {
        return Ok(());
    }
    compose(layer, t, out, world, run)
}

/// Appends what gives a text, by the values of its parts.
#[cycle(evaluate)]
pub(crate) fn compose<W: World>(
    layer: Layer<'_>,
    t: &Textual,
    out: &mut Vec<u8>,
    world: &mut W,
    run: &mut Run<'_>,
) -> Result<(), Halt>
    ensures left { run.new.left ≤ run.old.left }
    ensures appended { OnOk result
        (out.new.items ≡ out.old.items ++ added out.old.items out.new.items) }
    ensures outcome { Yields (λ _. added out.old.items out.new.items)
        (text_of_textual W.calls (eres_in layer.entry) (enter_in W.calls layer.entry)
        (textual_view t.now)
        (moment (W.state world.old) run.old)) result (moment (W.state world.new) run.new) }
{
    match t {
        Textual::Join(es) => join(layer, es, out, world, run),
        Textual::Suffix(e, a) => {
            let text = text(layer, e, world, run)?;
            let from = number(layer, a, world, run)?;
            out.extend_from_slice(suffix(&text, from?))?;
            give_back(&mut run.spare, text);
            Ok(())
        }
        Textual::Substring(e, a, b) => {
            let text = text(layer, e, world, run)?;
            let from = number(layer, a, world, run)?;
            let count = number(layer, b, world, run)?;
            let places = both(from, count)?;
            out.extend_from_slice(substring(&text, places.0, places.1))?;
            give_back(&mut run.spare, text);
            Ok(())
        }
        Textual::Case(case, e) => {
            let text = text(layer, e, world, run)?;
            push_letters(*case, &text, out)?;
            give_back(&mut run.spare, text);
            Ok(())
        }
        Textual::Format(format, es) => {
            let text = formatted(layer, format, es, world, run)?;
            out.extend_from_slice(&text)?;
            give_back(&mut run.spare, text);
            Ok(())
        }
    }
}

/// The text that a format makes of the values of expressions.
///
/// POSIX.1-2017, awk, "Output Statements" and "String Functions" (`sprintf`).
#[cycle(evaluate)]
pub(crate) fn formatted<W: World>(
    layer: Layer<'_>,
    format: &Format,
    es: &[Expr],
    world: &mut W,
    run: &mut Run<'_>,
) -> Result<Vec<u8>, Halt>
    ensures left { run.new.left ≤ run.old.left }
    ensures outcome { Yields (λ text. text.items)
        (text_of_textual W.calls (eres_in layer.entry) (enter_in W.calls layer.entry)
        (codes.formatted (format_view format.now) (exprs (views es.now)))
        (moment (W.state world.old) run.old)) result (moment (W.state world.new) run.new) }
{
    let text = match format {
        Format::Fixed(_) => Vec::new(run.alloc),
        Format::Value(e) => text(layer, e, world, run)?,
    };
    let mut parts = take_values(run.alloc, &mut run.values);
    let mut scratch = take_buffer(run.alloc, &mut run.spare);
    values(layer, es, &mut parts, &mut scratch, world, run)?;
    give_back(&mut run.spare, scratch);
    fill_format(format, text, parts, world, run)
}

/// Appends the texts of expressions one after the other.
///
/// Fault `length` where they are longer together than a text may be.
///
/// POSIX.1-2017, awk, "Expressions in awk" (concatenation).
#[cycle(evaluate)]
pub(crate) fn join<W: World>(
    layer: Layer<'_>,
    es: &[Expr],
    out: &mut Vec<u8>,
    world: &mut W,
    run: &mut Run<'_>,
) -> Result<(), Halt>
    ensures left { run.new.left ≤ run.old.left }
    ensures appended { OnOk result
        (out.new.items ≡ out.old.items ++ added out.old.items out.new.items) }
    ensures outcome { Yields (λ _. added out.old.items out.new.items)
        (joined_texts W.calls (eres_in layer.entry) (enter_in W.calls layer.entry)
        (exprs (views es.now))
        (moment (W.state world.old) run.old)) result (moment (W.state world.new) run.new) }
{
    match es.split_first() {
        None => Ok(()),
        Some((first, rest)) => {
            let start = out.len();
            text_into(layer, first, out, world, run)?;
            for e in rest {
                text_into(layer, e, out, world, run)?;
                within_limit(&out[start..])?;
            }
            Ok(())
        }
    }
}
