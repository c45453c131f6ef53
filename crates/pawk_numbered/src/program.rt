//! Whether programs read `NR`.

ghost use Rattle.std.specs.Prelude.{◌≡◌, map};
ghost use Rattle.pawk_code.specs.ProgramViews.{selector_view, rule_view, function_view, code_view};
ghost use Rattle.pawk_numbered.specs.Mentions as spec;

use crate::expression::in_expression;
use crate::statement::in_body;
use pawk_code::program::{Code, Function, Rule, Selector};

/// Whether a pattern of a rule reads `NR`.
fn in_selector(s: &Selector) -> bool
    ensures { result ≡ spec.in_selector (selector_view s.now) }
{
    match s {
        Selector::Always => false,
        Selector::When(e) => in_expression(e),
        Selector::Range(e, f) => in_expression(e) || in_expression(f),
    }
}

/// Whether a rule of these reads `NR`, in its pattern or in its action.
fn in_rules(rules: &[Rule]) -> bool
    ensures { result ≡ spec.in_rules (map rule_view rules.now) }
{
    for rule in rules {
        if in_selector(&rule.selector) || in_body(&rule.body) {
            return true;
        }
    }
    false
}

/// Whether a function of these reads `NR`.
fn in_functions(functions: &[Function]) -> bool
    ensures { result ≡ spec.in_functions (map function_view functions.now) }
{
    for function in functions {
        if in_body(&function.body) {
            return true;
        }
    }
    false
}

/// Whether the rules or the functions of a program read `NR`: a pattern, an action, or the body of a
/// function, whether or not a rule calls it. `BEGIN` and `END` do not count. It takes no memory.
///
/// POSIX.1-2017, awk, "Variables and Special Variables" (`NR`).
pub fn reads_number(code: &Code) -> bool
    ensures { result ≡ spec.reads_number (code_view code.now) }
{
    in_rules(&code.rules) || in_functions(&code.functions)
}
