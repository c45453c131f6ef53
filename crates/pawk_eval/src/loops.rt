//! Loops.
//!
//! POSIX.1-2017, awk, "Actions".

ghost use Rattle.std.specs.Prelude.{◌≤◌};
ghost use Rattle.pawk_code.specs.StatementViews.{seen};
ghost use Rattle.pawk_store.specs.Meaning.{act_or_none, execs, for_keys, test_or_true, while_loop};
ghost use Rattle.pawk_runtime.specs.Moments.{moment};
ghost use Rattle.pawk_runtime.specs.Yields.{Yields};
ghost use Rattle.pawk_eval.specs.Contexts.{enter_in, eres_in, last_view};
ghost use Rattle.pawk_eval.specs.Contexts as contexts;
ghost use Rattle.pawk_eval.specs.Flows.{way_of};

use crate::expressions::truth;
use crate::flow::Flow;
use crate::layer::Layer;
use crate::statements::{execute, perform};
use pawk_code::expression::Expr;
use pawk_code::name::{Array, Variable};
use pawk_code::statement::{Simple, Statement};
use pawk_runtime::{Run, array_keys, set_key, table_of, tick};
use pawk_world::{Halt, World};

/// Runs a body while a test holds, a step at each test, and `last` after each turn. A test that is
/// missing holds.
///
/// POSIX.1-2017, awk, "Actions" (`while`, `for`).
#[cycle(evaluate)]
pub(crate) fn turns<W: World>(
    layer: Layer<'_>,
    test: Option<&Expr>,
    last: Option<&Simple>,
    body: &[Statement],
    world: &mut W,
    run: &mut Run<'_>,
) -> Result<Flow, Halt>
    ensures left { run.new.left ≤ run.old.left }
    ensures outcome { Yields way_of
        (while_loop
        (test_or_true W.calls (eres_in layer.entry) (enter_in W.calls layer.entry)
        (contexts.test_view test.entry))
        (execs W.calls (eres_in layer.entry) (enter_in W.calls layer.entry)
        (seen body.now))
        (act_or_none W.calls (eres_in layer.entry) (enter_in W.calls layer.entry)
        (last_view last.entry))
        (moment (W.state world.old) run.old)) result (moment (W.state world.new) run.new) }
{
    'turns: loop {
        tick(world, run)?;
        let truth = match test {
            None => Ok(true),
            Some(e) => truth(layer, e, world, run)?,
        };
        let holds = truth?;
        if !holds {
            return Ok(Flow::On);
        }
        let flow = execute(layer, body, world, run)?;
        if let Some(end) = flow.loop_end() {
            return Ok(end);
        }
        if let Some(last) = last {
            perform(layer, last, world, run)?;
        }
    }
}

/// Runs a body for each key that an array has when the loop begins.
///
/// POSIX.1-2017, awk, "Actions" (`for` with `in`).
#[cycle(evaluate)]
pub(crate) fn walk<W: World>(
    layer: Layer<'_>,
    variable: Variable,
    array: Array,
    body: &[Statement],
    world: &mut W,
    run: &mut Run<'_>,
) -> Result<Flow, Halt>
    ensures left { run.new.left ≤ run.old.left }
    ensures outcome { Yields way_of
        (for_keys W.calls variable array
        (execs W.calls (eres_in layer.entry) (enter_in W.calls layer.entry)
        (seen body.now))
        (moment (W.state world.old) run.old)) result (moment (W.state world.new) run.new) }
{
    let table = table_of(&run.frame, array);
    let all = array_keys(table, world, run)?;
    let keys = &all;
    for i in 0..keys.len() {
        tick(world, run)?;
        set_key(variable, keys.text(i), world, run)?;
        let flow = execute(layer, body, world, run)?;
        if let Some(end) = flow.loop_end() {
            return Ok(end);
        }
    }
    Ok(Flow::On)
}
