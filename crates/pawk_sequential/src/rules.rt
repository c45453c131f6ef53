//! The rules for a record, and actions.

ghost use Rattle.std.specs.Prelude.{◌≡◌, map};
ghost use Rattle.pawk_code.specs.ExpressionViews.{view};
ghost use Rattle.pawk_code.specs.ProgramViews.{body_view, rule_view, selector_view};
ghost use Rattle.pawk_code.specs.StatementViews.{seen};
ghost use Rattle.pawk_input.specs.Input.{item_of};
ghost use Rattle.pawk_eval.specs.Contexts.{eres_of, functions_of};
ghost use Rattle.pawk_runtime.specs.Moments.{moment};
ghost use Rattle.pawk_runtime.specs.Yields.{Yields};
ghost use Rattle.pawk_sequential.specs.Ends.{EndsBy};
ghost use Rattle.pawk_store.specs.Records.{holds, does, reads, begins, in_range, selects, rules_from, does_rule, actions};

use crate::limits::GREATEST_CALLS;
use itoa::Buffer;
use pawk_code::expression::Expr;
use pawk_code::program::{Rule, Selector};
use pawk_code::slots::FS;
use pawk_code::statement::Statement;
use pawk_eval::{Context, Layer, holds, run_body};
use pawk_input::Item;
use pawk_runtime::Run;
use pawk_value::text_in;
use pawk_world::{Halt, World};

/// Whether a pattern holds.
#[inline(always)]
fn pattern_holds<W: World>(
    context: Context<'_>,
    e: &Expr,
    world: &mut W,
    run: &mut Run<'_>,
) -> Result<bool, Halt>
    ensures { Yields (λ holds. holds)
        (holds W.calls (eres_of context.entry) (functions_of context.entry) (view e.now)
        (moment (W.state world.old) run.old)) result (moment (W.state world.new) run.new) }
{
    let layer = Layer {
        context,
        depth: GREATEST_CALLS,
    };
    holds(layer, e, world, run)
}

/// Runs a body.
#[inline(always)]
fn do_body<W: World>(
    context: Context<'_>,
    body: &[Statement],
    world: &mut W,
    run: &mut Run<'_>,
) -> Result<(), Halt>
    ensures { Yields (λ _. tt)
        (does W.calls (eres_of context.entry) (functions_of context.entry) (seen body.now)
        (moment (W.state world.old) run.old)) result (moment (W.state world.new) run.new) }
{
    let layer = Layer {
        context,
        depth: GREATEST_CALLS,
    };
    run_body(layer, body, world, run)
}

/// Reads a record: `NR`, `FNR`, `FILENAME`, `$0`, and the fields by the FS of this moment.
#[inline(always)]
pub(crate) fn read_record<'a, W: World>(
    context: Context<'_>,
    item: &Item<'a>,
    world: &W,
    run: &mut Run<'a>,
) -> Result<(), Halt>
    ensures { Yields (λ _. tt)
        (reads W.calls (eres_of context.entry) (functions_of context.entry) (item_of item.now)
        (moment (W.state world.now) run.old)) result (moment (W.state world.now) run.new) }
{
    let mut buffer = Buffer::new();
    let fs = text_in(world.scalar(FS), &mut buffer);
    run.state.read(item, fs)?;
    Ok(())
}

/// Whether a range is begun, which it is where it was begun before, or where its first pattern holds.
#[inline(always)]
fn range_begins<W: World>(
    context: Context<'_>,
    number: usize,
    first: &Expr,
    world: &mut W,
    run: &mut Run<'_>,
) -> Result<bool, Halt>
    ensures { Yields (λ holds. holds)
        (begins W.calls (eres_of context.entry) (functions_of context.entry) number (view first.now)
        (moment (W.state world.old) run.old)) result (moment (W.state world.new) run.new) }
{
    if number < run.state.ranges.len() && run.state.ranges[number] {
        return Ok(true);
    }
    pattern_holds(context, first, world, run)
}

/// Whether a record is in a range, which it may end.
#[inline(always)]
fn range_goes_on<W: World>(
    context: Context<'_>,
    number: usize,
    last: &Expr,
    inside: bool,
    world: &mut W,
    run: &mut Run<'_>,
) -> Result<bool, Halt>
    ensures { Yields (λ holds. holds)
        (in_range W.calls (eres_of context.entry) (functions_of context.entry) number
        (view last.now) inside
        (moment (W.state world.old) run.old)) result (moment (W.state world.new) run.new) }
{
    if !inside {
        return Ok(false);
    }
    let ends = pattern_holds(context, last, world, run)?;
    if number < run.state.ranges.len() {
        run.state.ranges[number] = !ends;
    }
    Ok(true)
}

/// Whether the rule of this number is for the record.
#[inline(always)]
fn rule_applies<W: World>(
    context: Context<'_>,
    number: usize,
    selector: &Selector,
    world: &mut W,
    run: &mut Run<'_>,
) -> Result<bool, Halt>
    ensures { Yields (λ holds. holds)
        (selects W.calls (eres_of context.entry) (functions_of context.entry) number
        (selector_view selector.now)
        (moment (W.state world.old) run.old)) result (moment (W.state world.new) run.new) }
{
    match selector {
        Selector::Always => Ok(true),
        Selector::When(e) => pattern_holds(context, e, world, run),
        Selector::Range(first, last) => {
            let inside = range_begins(context, number, first, world, run)?;
            range_goes_on(context, number, last, inside, world, run)
        }
    }
}

/// Runs a rule on the record, if it is for it.
#[inline(always)]
fn do_rule<W: World>(
    context: Context<'_>,
    number: usize,
    rule: &Rule,
    world: &mut W,
    run: &mut Run<'_>,
) -> Result<(), Halt>
    ensures { Yields (λ _. tt)
        (does_rule W.calls (eres_of context.entry) (functions_of context.entry) number
        (rule_view rule.now)
        (moment (W.state world.old) run.old)) result (moment (W.state world.new) run.new) }
{
    if rule_applies(context, number, &rule.selector, world, run)? {
        return do_body(context, rule.body.as_slice(), world, run);
    }
    Ok(())
}

/// Runs the rules in order on the record.
#[inline(always)]
pub(crate) fn do_rules<W: World>(
    context: Context<'_>,
    rules: &[Rule],
    world: &mut W,
    run: &mut Run<'_>,
) -> Result<(), Halt>
    ensures { Yields (λ _. tt)
        (rules_from W.calls (eres_of context.entry) (functions_of context.entry) 0
        (map rule_view rules.now)
        (moment (W.state world.old) run.old)) result (moment (W.state world.new) run.new) }
{
    for (number, rule) in rules.iter().enumerate() {
        do_rule(context, number, rule, world, run)?;
    }
    Ok(())
}

/// Runs actions one after the other.
pub(crate) fn do_actions<W: World>(
    context: Context<'_>,
    bodies: &[Vec<Statement>],
    world: &mut W,
    run: &mut Run<'_>,
) -> Result<(), Halt>
    ensures { EndsBy
        (actions W.calls (eres_of context.entry) (functions_of context.entry)
        (map body_view bodies.now)
        (moment (W.state world.old) run.old)) result (moment (W.state world.new) run.new) }
{
    for body in bodies {
        do_body(context, body.as_slice(), world, run)?;
    }
    Ok(())
}
