//! Parts of a run: one record, and the actions of BEGIN and END.

ghost use Rattle.std.specs.Prelude.{◌≡◌, map, IfOk};
ghost use Rattle.pawk_code.specs.ProgramViews.{body_view, rule_view};
ghost use Rattle.pawk_input.specs.Input.{item_of};
ghost use Rattle.pawk_store.specs.StateViews.{state_of};
ghost use Rattle.pawk_eval.specs.Contexts.{eres_of, functions_of};
ghost use Rattle.pawk_store.specs.Records.{one_record, opening_moment, run_part};
ghost use Rattle.pawk_store.specs.Records as spec;
ghost use Rattle.pawk_runtime.specs.Moments.{moment};
ghost use Rattle.pawk_sequential.specs.Ends.{EndsBy, end_view};

use crate::left::left_by;
use crate::rules::{do_actions, do_rules, read_record};
use pawk_code::program::Rule;
use pawk_code::statement::Statement;
use pawk_eval::Context;
use pawk_input::Item;
use pawk_runtime::Run;
use pawk_store::Left;
use pawk_world::{Halt, World};
use std::alloc::AllocError;

/// Begins a part with `budget` steps: no parameters, no local arrays.
#[inline(always)]
fn begin_part<W: World>(world: &W, run: &mut Run<'_>, budget: u64)
    ensures { moment (W.state world.now) run.new
        ≡ opening_moment budget (W.state world.now) (state_of run.old.state) run.old.output.items }
{
    run.frame.clear();
    // There are local arrays only where a part was left within a call, so that this call is seldom made.
    if !run.arrays.is_empty() {
        run.arrays.clear();
    }
    run.left = budget;
}

/// Reads a record and runs the rules on it.
#[inline(always)]
fn do_record<'a, W: World>(
    context: Context<'_>,
    rules: &[Rule],
    item: &Item<'a>,
    world: &mut W,
    run: &mut Run<'a>,
) -> Result<(), Halt>
    ensures { EndsBy (one_record W.calls (eres_of context.entry)
        (functions_of context.entry) (map rule_view rules.now) (item_of item.now)
        (moment (W.state world.old) run.old)) result (moment (W.state world.new) run.new) }
{
    read_record(context, item, world, run)?;
    do_rules(context, rules, world, run)
}

/// Runs the rules on a record, which may take `budget` steps: first it is read. The output goes after
/// what is there.
///
/// POSIX.1-2017, awk, "Overall Program Structure".
#[inline(always)]
pub fn record<'a, W: World>(
    context: Context<'_>,
    rules: &[Rule],
    budget: u64,
    item: &Item<'a>,
    world: &mut W,
    run: &mut Run<'a>,
) -> Result<Left, AllocError>
    ensures { IfOk result (λ left. run_part (one_record W.calls (eres_of context.entry)
        (functions_of context.entry) (map rule_view rules.now) (item_of item.now)) budget
        (W.state world.old) (state_of run.old.state) run.old.output.items
        ≡ end_view (W.state world.new) run.new left) }
{
    begin_part(world, run, budget);
    let ending = do_record(context, rules, item, world, run);
    left_by(ending, world, run)
}

/// Runs the actions of BEGIN or of END, which may take `budget` steps together. The output goes after
/// what is there.
///
/// POSIX.1-2017, awk, "Overall Program Structure".
pub fn actions<W: World>(
    context: Context<'_>,
    bodies: &[Vec<Statement>],
    budget: u64,
    world: &mut W,
    run: &mut Run<'_>,
) -> Result<Left, AllocError>
    ensures { IfOk result (λ left. run_part (spec.actions W.calls (eres_of context.entry)
        (functions_of context.entry) (map body_view bodies.now)) budget
        (W.state world.old) (state_of run.old.state) run.old.output.items
        ≡ end_view (W.state world.new) run.new left) }
{
    begin_part(world, run, budget);
    let ending = do_actions(context, bodies, world, run);
    left_by(ending, world, run)
}
