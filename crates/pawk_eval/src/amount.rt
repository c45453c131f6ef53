//! By what a place changes.

ghost use Rattle.std.specs.Prelude.{◌≤◌};
ghost use Rattle.pawk_runtime.specs.Moments.{moment};
ghost use Rattle.pawk_runtime.specs.Yields.{Yields};
ghost use Rattle.pawk_eval.specs.Contexts.{enter_in, eres_in};
ghost use Rattle.pawk_eval.specs.Amounts.{amount_of};

use crate::expressions::number;
use crate::layer::Layer;
use pawk_code::expression::Expr;
use pawk_runtime::Run;
use pawk_value::Fault;
use pawk_world::{Halt, World};

/// By what a place changes.
#[derive(Clone, Copy)]
pub(crate) enum Amount<'e> {
    /// By 1, as `++` and `--` do.
    One,
    /// By the number of an expression.
    Of(&'e Expr),
}

/// The number of an amount, or the fault of its conversion.
#[cycle(evaluate)]
#[inline(always)]
pub(crate) fn amount_number<W: World>(
    layer: Layer<'_>,
    amount: Amount<'_>,
    world: &mut W,
    run: &mut Run<'_>,
) -> Result<Result<i64, Fault>, Halt>
    ensures left { run.new.left ≤ run.old.left }
    ensures outcome { Yields (λ number. number)
        (amount_of W.calls (eres_in layer.entry) (enter_in W.calls layer.entry)
        amount.entry
        (moment (W.state world.old) run.old)) result (moment (W.state world.new) run.new) }
{
    match amount {
        Amount::One => Ok(Ok(1)),
        Amount::Of(e) => number(layer, e, world, run),
    }
}
