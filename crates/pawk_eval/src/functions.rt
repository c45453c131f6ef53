//! Calls of functions.
//!
//! POSIX.1-2017, awk, "User-Defined Functions".

ghost use Rattle.std.specs.Prelude.{◌≤◌, []};
ghost use Rattle.pawk_value.specs.Value.{shown};
ghost use Rattle.pawk_code.specs.Expressions as codes;
ghost use Rattle.pawk_code.specs.ExpressionViews.{argument_views};
ghost use Rattle.pawk_code.specs.StatementViews.{seen};
ghost use Rattle.pawk_store.specs.Parts.{bind, give};
ghost use Rattle.pawk_store.specs.Meaning.{arguments_of, execs, value_of_way};
ghost use Rattle.pawk_runtime.specs.Moments.{holds_of, moment};
ghost use Rattle.pawk_runtime.specs.Yields.{Yields};
ghost use Rattle.pawk_eval.specs.Contexts.{enter_in, eres_in};

use crate::expressions::value;
use crate::layer::Layer;
use crate::statements::execute;
use pawk_code::expression::Argument;
use pawk_code::statement::{Leave, Statement};
use pawk_runtime::{
    Parameter, Run, array_parameter, close_arrays, give_back_frame, parameters, table_of,
    take_frame, tick,
};
use pawk_value::{Fault, Value};
use pawk_world::{Halt, World};
use std::mem;

/// What the arguments of a call give to its parameters: a value, or an array by reference.
#[cycle(evaluate)]
#[inline(always)]
pub(crate) fn pass<W: World>(
    layer: Layer<'_>,
    arguments: &[Argument],
    world: &mut W,
    run: &mut Run<'_>,
) -> Result<Vec<Parameter>, Halt>
    ensures left { run.new.left ≤ run.old.left }
    ensures outcome { Yields (λ values. holds_of values.items)
        (arguments_of W.calls (eres_in layer.entry) (enter_in W.calls layer.entry)
        (codes.arguments (argument_views arguments.now)) []
        (moment (W.state world.old) run.old)) result (moment (W.state world.new) run.new) }
{
    let mut values = take_frame(run.alloc, &mut run.frames);
    for argument in arguments {
        let value = match argument {
            Argument::Value(e) => Parameter::Value(value(layer, e, world, run)?),
            Argument::Array(array) => array_parameter(table_of(&run.frame, *array)),
        };
        values.push(value)?;
    }
    Ok(values)
}

/// Calls a function: its value.
///
/// Fault `depth` where no call may be nested any more.
///
/// POSIX.1-2017, awk, "User-Defined Functions".
#[cycle(evaluate)]
#[inline(always)]
pub(crate) fn call<W: World>(
    layer: Layer<'_>,
    f: usize,
    arguments: Vec<Parameter>,
    world: &mut W,
    run: &mut Run<'_>,
) -> Result<Value, Halt>
    ensures left { run.new.left ≤ run.old.left }
    ensures outcome { Yields shown
        (enter_in W.calls layer.entry f (holds_of arguments.items)
        (moment (W.state world.old) run.old)) result (moment (W.state world.new) run.new) }
{
    tick(world, run)?;
    if layer.depth == 0 {
        return Err(Halt::Fault(Fault::Depth));
    }
    match layer.context.function(f) {
        None => Ok(Value::Uninit),
        Some(function) => {
            let open = run.arrays.len();
            let fresh = parameters(
                run.alloc,
                world.seed(),
                arguments,
                &function.kinds,
                &mut run.arrays,
            )?;
            let saved = mem::replace(&mut run.frame, fresh);
            let inner = Layer {
                context: layer.context,
                depth: layer.depth - 1,
            };
            let value = body_value(inner, &function.body, world, run)?;
            let frame = mem::replace(&mut run.frame, saved);
            give_back_frame(&mut run.spare, &mut run.frames, frame);
            close_arrays(&mut run.arrays, open);
            Ok(value)
        }
    }
}

/// The value of a function with this body.
///
/// Where it only returns an expression, that is evaluated at once.
#[cycle(evaluate)]
#[inline(always)]
pub(crate) fn body_value<W: World>(
    layer: Layer<'_>,
    body: &[Statement],
    world: &mut W,
    run: &mut Run<'_>,
) -> Result<Value, Halt>
    ensures left { run.new.left ≤ run.old.left }
    ensures outcome { Yields shown
        (bind (execs W.calls (eres_in layer.entry) (enter_in W.calls layer.entry)
        (seen body.now)) (λ way. give (value_of_way way))
        (moment (W.state world.old) run.old)) result (moment (W.state world.new) run.new) }
{
    if let [Statement::Leave(Leave::Return(Some(e)))] = body {
        tick(world, run)?;
        return value(layer, e, world, run);
    }
    let flow = execute(layer, body, world, run)?;
    Ok(flow.value())
}
