//! Where places are.
//!
//! POSIX.1-2017, awk, "Variables and Special Variables".

ghost use Rattle.std.specs.Prelude.{◌≡◌, ◌≤◌, IfSome};
ghost use Rattle.pawk_code.specs.Expressions.{exprs, to_element};
ghost use Rattle.pawk_code.specs.ExpressionViews.{place_view, views};
ghost use Rattle.pawk_store.specs.Meaning.{aim_of, subscripts};
ghost use Rattle.pawk_runtime.specs.Moments.{aim_view, moment};
ghost use Rattle.pawk_runtime.specs.Yields.{Yields};
ghost use Rattle.pawk_eval.specs.Contexts.{enter_in, eres_in};

use crate::expressions::{number, text};
use crate::layer::Layer;
use crate::operands::texts;
use pawk_builtins::field_index;
use pawk_code::expression::{Expr, Lvalue};
use pawk_code::name::Array;
use pawk_runtime::{
    Run, Target, element_target, give_back, key_of_texts, table_of, take_buffer, take_texts,
};
use pawk_world::{Halt, World};

/// The array and the subscripts of a place that is an element.
#[inline(always)]
pub(crate) fn element_parts(place: &Lvalue) -> Option<(Array, &[Expr])>
    ensures { IfSome result (λ parts. place_view place.now
        ≡ to_element parts.0 (exprs (views parts.1.now))) }
{
    match place {
        Lvalue::Element(array, keys) => Some((*array, keys.as_slice())),
        _ => None,
    }
}

/// Where a place is.
#[cycle(evaluate)]
#[inline(always)]
pub(crate) fn place<W: World>(
    layer: Layer<'_>,
    p: &Lvalue,
    world: &mut W,
    run: &mut Run<'_>,
) -> Result<Target, Halt>
    ensures left { run.new.left ≤ run.old.left }
    ensures outcome { Yields aim_view
        (aim_of W.calls (eres_in layer.entry) (enter_in W.calls layer.entry)
        (place_view p.now)
        (moment (W.state world.old) run.old)) result (moment (W.state world.new) run.new) }
{
    match p {
        Lvalue::Global(slot) => Ok(Target::Scalar(*slot)),
        Lvalue::Local(number) => Ok(Target::Parameter(*number)),
        Lvalue::Element(array, keys) => {
            let key = key(layer, keys, world, run)?;
            Ok(element_target(table_of(&run.frame, *array), key))
        }
        Lvalue::Field(e) => {
            let index = number(layer, e, world, run)?;
            Ok(Target::Field(field_index(index)?))
        }
    }
}

/// The key that subscripts spell.
///
/// POSIX.1-2017, awk, "Variables and Special Variables" (`SUBSEP`).
#[cycle(evaluate)]
#[inline(always)]
pub(crate) fn key<W: World>(
    layer: Layer<'_>,
    keys: &[Expr],
    world: &mut W,
    run: &mut Run<'_>,
) -> Result<Vec<u8>, Halt>
    ensures left { run.new.left ≤ run.old.left }
    ensures outcome { Yields (λ key. key.items)
        (subscripts W.calls (eres_in layer.entry) (enter_in W.calls layer.entry)
        (exprs (views keys.now))
        (moment (W.state world.old) run.old)) result (moment (W.state world.new) run.new) }
{
    if let [only] = keys {
        return text(layer, only, world, run);
    }
    let mut parts = take_texts(run.alloc, &mut run.texts);
    let mut scratch = take_buffer(run.alloc, &mut run.spare);
    texts(layer, keys, &mut parts, &mut scratch, world, run)?;
    give_back(&mut run.spare, scratch);
    key_of_texts(parts, world, run)
}
