//! Patterns that set what `match` sets.

ghost use Rattle.std.specs.Prelude.{◌≡◌, map};
ghost use Rattle.pawk_code.specs.ExpressionViews.{test_view, view};
ghost use Rattle.pawk_code.specs.ProgramViews.{rule_view, selector_view};
ghost use Rattle.pawk_prefilter.specs.Needs as spec;

use pawk_code::expression::{Expr, Numeric, Test};
use pawk_code::program::{Rule, Selector};

/// Whether the expression sets what `match` sets, also for a record that it does not hold for.
#[cycle(resets)]
fn resets(e: &Expr) -> bool
    ensures { result ≡ spec.resets (view e.now) }
{
    match e {
        Expr::Test(test) => resets_in_test(test),
        Expr::Numeric(Numeric::Find(_, _)) => true,
        _ => false,
    }
}

/// Whether the test does.
#[cycle(resets)]
fn resets_in_test(test: &Test) -> bool
    ensures { result ≡ spec.resets_test (test_view test.now) }
{
    match test {
        Test::And(first, _) => resets(first),
        Test::Or(first, second) => resets(first) || resets(second),
        _ => false,
    }
}

/// Whether the selector does.
fn resets_in_selector(selector: &Selector) -> bool
    ensures { result ≡ spec.resets_selector (selector_view selector.now) }
{
    match selector {
        Selector::Always => false,
        Selector::When(e) => resets(e),
        Selector::Range(first, _) => resets(first),
    }
}

/// Whether the selector of any rule does.
pub(crate) fn any_resets(rules: &[Rule]) -> bool
    ensures { result ≡ spec.any_resets (map rule_view rules.now) }
{
    for rule in rules {
        if resets_in_selector(&rule.selector) {
            return true;
        }
    }
    false
}
