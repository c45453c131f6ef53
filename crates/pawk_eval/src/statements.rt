//! Statements.
//!
//! POSIX.1-2017, awk, "Actions".

ghost use Rattle.std.specs.Prelude.{◌≤◌, []};
ghost use Rattle.pawk_code.specs.Expressions.{exprs};
ghost use Rattle.pawk_code.specs.Expressions as codes;
ghost use Rattle.pawk_code.specs.ExpressionViews.{format_view, view, views};
ghost use Rattle.pawk_code.specs.StatementViews.{seen, simple_view, stmt_view};
ghost use Rattle.pawk_code.specs.Statements as actions;
ghost use Rattle.pawk_store.specs.Parts.{bind, give};
ghost use Rattle.pawk_store.specs.Meaning.{
  act,
  exec,
  execs,
  leaves,
  print_text,
  text_of_textual,
  texts_of,
};
ghost use Rattle.pawk_store.specs.Meaning as spec;
ghost use Rattle.pawk_runtime.specs.Moments.{moment};
ghost use Rattle.pawk_runtime.specs.Yields.{Yields};
ghost use Rattle.pawk_eval.specs.Contexts.{enter_in, eres_in};
ghost use Rattle.pawk_eval.specs.Flows.{way_of};

use crate::amount::Amount;
use crate::assignments::{add, set};
use crate::expressions::{eval_apart, number, text, truth, value};
use crate::flow::Flow;
use crate::layer::Layer;
use crate::loops::{turns, walk};
use crate::operands::texts;
use crate::places::key;
use crate::strings::formatted;
use pawk_builtins::{exit_status, step_sign};
use pawk_code::expression::{Expr, Format};
use pawk_code::name::Array;
use pawk_code::statement::{Leave, Simple, Statement};
use pawk_runtime::{
    Run, are_plain, clear_array, give_back, print_alone, print_bytes, print_line, print_plain,
    remove_element, table_of, take_buffer, take_texts, tick,
};
use pawk_value::Value;
use pawk_world::{Halt, World};

/// Runs statements in turn, a step of the budget at the begin of each, and says how they leave.
///
/// It halts with a fault of what is evaluated, with `depth` or `steps` where no call or no step is
/// left, with `next`, `nextfile` and `exit`, where the world refuses, and where memory is refused.
///
/// POSIX.1-2017, awk, "Actions".
#[cycle(evaluate)]
pub fn execute<W: World>(
    layer: Layer<'_>,
    body: &[Statement],
    world: &mut W,
    run: &mut Run<'_>,
) -> Result<Flow, Halt>
    ensures left { run.new.left ≤ run.old.left }
    ensures outcome { Yields way_of
        (execs W.calls (eres_in layer.entry) (enter_in W.calls layer.entry)
        (seen body.now)
        (moment (W.state world.old) run.old)) result (moment (W.state world.new) run.new) }
{
    for s in body {
        tick(world, run)?;
        if let Statement::Simple(simple) = s {
            perform(layer, simple, world, run)?;
            continue;
        }
        match statement(layer, s, world, run)? {
            Flow::On => {}
            flow => return Ok(flow),
        }
    }
    Ok(Flow::On)
}

/// Runs statements in turn, whatever way they leave.
#[inline(always)]
fn run_rest<W: World>(
    layer: Layer<'_>,
    body: &[Statement],
    world: &mut W,
    run: &mut Run<'_>,
) -> Result<(), Halt>
    ensures left { run.new.left ≤ run.old.left }
    ensures outcome { Yields (λ _. tt)
        (bind (execs W.calls (eres_in layer.entry) (enter_in W.calls layer.entry)
        (seen body.now)) (λ _. give (tt {0}))
        (moment (W.state world.old) run.old)) result (moment (W.state world.new) run.new) }
{
    let _flow = execute(layer, body, world, run)?;
    Ok(())
}

/// Runs the statements of a rule or of an action in turn, as [`execute`] does, whatever way they
/// leave: those that have no body of their own need no [`Flow`].
///
/// POSIX.1-2017, awk, "Actions".
pub fn run_body<W: World>(
    layer: Layer<'_>,
    body: &[Statement],
    world: &mut W,
    run: &mut Run<'_>,
) -> Result<(), Halt>
    ensures left { run.new.left ≤ run.old.left }
    ensures outcome { Yields (λ _. tt)
        (bind (execs W.calls (eres_in layer.entry) (enter_in W.calls layer.entry)
        (seen body.now)) (λ _. give (tt {0}))
        (moment (W.state world.old) run.old)) result (moment (W.state world.new) run.new) }
{
    let mut next = 0;
    while next < body.len() {
        let Statement::Simple(simple) = &body[next] else {
            return run_rest(layer, &body[next..], world, run);
        };
        tick(world, run)?;
        perform(layer, simple, world, run)?;
        next += 1;
    }
    Ok(())
}

/// Runs a statement, after its step.
#[cycle(evaluate)]
pub(crate) fn statement<W: World>(
    layer: Layer<'_>,
    s: &Statement,
    world: &mut W,
    run: &mut Run<'_>,
) -> Result<Flow, Halt>
    ensures left { run.new.left ≤ run.old.left }
    ensures outcome { Yields way_of
        (exec W.calls (eres_in layer.entry) (enter_in W.calls layer.entry)
        (stmt_view s.now)
        (moment (W.state world.old) run.old)) result (moment (W.state world.new) run.new) }
{
    match s {
        Statement::Simple(simple) => {
            perform(layer, simple, world, run)?;
            Ok(Flow::On)
        }
        Statement::Leave(Leave::Break) => Ok(Flow::Break),
        Statement::Leave(Leave::Continue) => Ok(Flow::Continue),
        Statement::Leave(Leave::Next) => Err(Halt::Next),
        Statement::Leave(Leave::NextFile) => Err(Halt::NextFile),
        Statement::Leave(Leave::Exit(None)) => Err(Halt::Exit(run.state.status)),
        Statement::Leave(Leave::Exit(Some(e))) => {
            let status = number(layer, e, world, run)?;
            Err(Halt::Exit(exit_status(status)?))
        }
        Statement::Leave(Leave::Return(None)) => Ok(Flow::Return(Value::Uninit)),
        Statement::Leave(Leave::Return(Some(e))) => {
            Ok(Flow::Return(value(layer, e, world, run)?))
        }
        Statement::If(test, body) => choose(layer, test, body, &[], world, run),
        Statement::Choose(test, a, b) => choose(layer, test, a, b, world, run),
        Statement::While(test, body) => turns(layer, Some(test), None, body, world, run),
        Statement::Do(body, test) => {
            let flow = execute(layer, body, world, run)?;
            match flow.loop_end() {
                Some(end) => Ok(end),
                None => turns(layer, Some(test), None, body, world, run),
            }
        }
        Statement::For(head, body) => {
            if let Some(first) = &head.first {
                perform(layer, first, world, run)?;
            }
            let last = head.last.as_ref();
            turns(layer, head.test.as_ref(), last, body, world, run)
        }
        Statement::ForIn(variable, array, body) => {
            walk(layer, *variable, *array, body, world, run)
        }
    }
}

/// Runs a statement that leaves nothing and has no body.
#[cycle(evaluate)]
#[inline(always)]
pub(crate) fn perform<W: World>(
    layer: Layer<'_>,
    s: &Simple,
    world: &mut W,
    run: &mut Run<'_>,
) -> Result<(), Halt>
    ensures left { run.new.left ≤ run.old.left }
    ensures outcome { Yields (λ _. tt)
        (act W.calls (eres_in layer.entry) (enter_in W.calls layer.entry)
        (simple_view s.now)
        (moment (W.state world.old) run.old)) result (moment (W.state world.new) run.new) }
{
    match s {
        Simple::Drop(e) => {
            let (_, bytes) = eval_apart(layer, e, world, run)?;
            give_back(&mut run.spare, bytes);
            Ok(())
        }
        Simple::Set(to, e) => set(layer, to, e, world, run),
        Simple::Add(sign, to, e) => add(layer, *sign, to, Amount::Of(e), world, run),
        Simple::Count(step, to) => { add(layer, step_sign(*step), to, Amount::One, world, run) }
        Simple::Print(operands) => {
            if are_plain(&operands.values) {
                let printed = print_plain(&operands.values, world, run)?;
                if printed {
                    return Ok(());
                }
            }
            print_values(layer, &operands.values, world, run)
        }
        Simple::Printf(format, operands) => { printf(layer, format, &operands.values, world, run) }
        Simple::Delete(array, keys) => delete(layer, *array, keys, world, run),
        Simple::Clear(array) => clear_array(table_of(&run.frame, *array), world, run),
    }
}

/// Takes an element away from an array.
///
/// POSIX.1-2017, awk, "Actions" (`delete`).
#[cycle(evaluate)]
pub(crate) fn delete<W: World>(
    layer: Layer<'_>,
    array: Array,
    keys: &[Expr],
    world: &mut W,
    run: &mut Run<'_>,
) -> Result<(), Halt>
    ensures left { run.new.left ≤ run.old.left }
    ensures outcome { Yields (λ _. tt)
        (act W.calls (eres_in layer.entry) (enter_in W.calls layer.entry)
        (actions.delete array (exprs (views keys.now)))
        (moment (W.state world.old) run.old)) result (moment (W.state world.new) run.new) }
{
    let key = key(layer, keys, world, run)?;
    remove_element(table_of(&run.frame, array), &key, world, run)?;
    give_back(&mut run.spare, key);
    Ok(())
}

/// Prints the values of expressions, each of which is stored first.
///
/// POSIX.1-2017, awk, "Output Statements" (`print`).
#[cycle(evaluate)]
pub(crate) fn print_values<W: World>(
    layer: Layer<'_>,
    es: &[Expr],
    world: &mut W,
    run: &mut Run<'_>,
) -> Result<(), Halt>
    ensures left { run.new.left ≤ run.old.left }
    ensures outcome { Yields (λ _. tt)
        (bind (texts_of W.calls (eres_in layer.entry) (enter_in W.calls layer.entry)
        (exprs (views es.now)) []) (spec.print_line W.calls)
        (moment (W.state world.old) run.old)) result (moment (W.state world.new) run.new) }
{
    if let [only] = es {
        let text = text(layer, only, world, run)?;
        print_alone(&text, world, run)?;
        give_back(&mut run.spare, text);
        return Ok(());
    }
    let mut parts = take_texts(run.alloc, &mut run.texts);
    let mut scratch = take_buffer(run.alloc, &mut run.spare);
    texts(layer, es, &mut parts, &mut scratch, world, run)?;
    give_back(&mut run.spare, scratch);
    print_line(parts, world, run)
}

/// Prints the values of expressions by a format.
///
/// POSIX.1-2017, awk, "Output Statements" (`printf`).
#[cycle(evaluate)]
pub(crate) fn printf<W: World>(
    layer: Layer<'_>,
    format: &Format,
    es: &[Expr],
    world: &mut W,
    run: &mut Run<'_>,
) -> Result<(), Halt>
    ensures left { run.new.left ≤ run.old.left }
    ensures outcome { Yields (λ _. tt)
        (bind (text_of_textual W.calls
        (eres_in layer.entry) (enter_in W.calls layer.entry)
        (codes.formatted (format_view format.now) (exprs (views es.now)))) print_text
        (moment (W.state world.old) run.old)) result (moment (W.state world.new) run.new) }
{
    let text = formatted(layer, format, es, world, run)?;
    print_bytes(&text, world, run)?;
    give_back(&mut run.spare, text);
    Ok(())
}

/// Runs the statements that a test chooses.
#[cycle(evaluate)]
pub(crate) fn choose<W: World>(
    layer: Layer<'_>,
    test: &Expr,
    a: &[Statement],
    b: &[Statement],
    world: &mut W,
    run: &mut Run<'_>,
) -> Result<Flow, Halt>
    ensures left { run.new.left ≤ run.old.left }
    ensures outcome { Yields way_of
        (exec W.calls (eres_in layer.entry) (enter_in W.calls layer.entry)
        (actions.choose (view test.now) (seen a.now) (seen b.now))
        (moment (W.state world.old) run.old)) result (moment (W.state world.new) run.new) }
{
    let truth = truth(layer, test, world, run)?;
    let holds = truth?;
    if holds {
        execute(layer, a, world, run)
    } else {
        execute(layer, b, world, run)
    }
}
