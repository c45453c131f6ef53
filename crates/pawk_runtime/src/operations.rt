//! What a part of a run does once its operands are evaluated.

ghost use Rattle.std.specs.Prelude.{◌≡◌, ◌≤◌, ◌<◌, ◌^◌, [], is_some, IfOk, IfSome};
ghost use Rattle.pawk_value.specs.Value.{Text};
ghost use Rattle.pawk_world.specs.Sums.{arith_by};
ghost use Rattle.pawk_code.specs.Expressions.{field};
ghost use Rattle.pawk_code.specs.ExpressionViews.{format_view};
ghost use Rattle.pawk_builtins.specs.ExpressionViews.{expression_of};
ghost use Rattle.pawk_builtins.specs.FormatViews.{format_text};
ghost use Rattle.pawk_store.specs.Parts.{as_text, bind, give, settle};
ghost use Rattle.pawk_store.specs.Builtins.{formatted_text, found_by, replaced_by, same_truth};
ghost use Rattle.pawk_store.specs.Meaning.{put_replaced, value_of_leaf};
ghost use Rattle.pawk_store.specs.Places.{read_at, variable_aim, write_at};
ghost use Rattle.pawk_runtime.specs.Moments.{aim_view, hold_of, moment, table_view};
ghost use Rattle.pawk_runtime.specs.Yields.{Yields};

use crate::reading::read_place;
use crate::run::{Parameter, Run, give_back, take_buffer};
use crate::target::{ArrayReference, Target, variable_target};
use crate::writing::{put_text, write_place};
use itoa::Buffer;
use pawk_builtins::{EreReference, Values, format_values, same_truth};
use pawk_code::expression::Format;
use pawk_code::name::Variable;
use pawk_code::word::ReplacedMatches;
use pawk_value::{Fault, Op, Value, ValueRef, arith, lend_held, text_in};
use pawk_world::{Halt, World};

/// The result of an operation on two numbers. The fault of the left one's conversion comes first,
/// then that of the right one's, then one of the operation.
#[inline(always)]
pub fn combine(op: Op, left: Result<i64, Fault>, right: Result<i64, Fault>) -> Result<i64, Fault>
    ensures { result ≡ arith_by op left right }
{
    let left = left?;
    let right = right?;
    arith(op, left, right)
}

/// What an array as an argument gives to its parameter.
pub fn array_parameter(table: ArrayReference) -> Parameter
    ensures { hold_of result ≡ table_view table }
{
    match table {
        ArrayReference::None => Parameter::Value(Value::Uninit),
        ArrayReference::Global(slot) => Parameter::Global(slot),
        ArrayReference::Local(number) => Parameter::Local(number),
    }
}

/// Sets the variable of a loop over keys.
pub fn set_key<W: World>(
    variable: Variable,
    key: &[u8],
    world: &mut W,
    run: &mut Run<'_>,
) -> Result<(), Halt>
    ensures left { run.new.left ≤ run.old.left }
    ensures outcome { Yields (λ _. tt)
        (write_at W.calls (variable_aim variable) (Text key.now)
        (moment (W.state world.old) run.old)) result (moment (W.state world.new) run.new) }
{
    let target = variable_target(variable);
    write_place(&target, ValueRef::Text(key), world, run)
}

/// Where an expression matches first in a text.
///
/// Fault `ere` where it is a text that is no expression.
///
/// POSIX.1-2017, awk, "Regular Expressions".
pub fn find_first<W: World>(
    expression: EreReference<'_>,
    text: &[u8],
    world: &W,
    run: &mut Run<'_>,
) -> Result<Option<(usize, usize)>, Halt>
    ensures left { run.new.left ≤ run.old.left }
    ensures within { IfOk result (λ found. IfSome found (λ m. (m.0 ≤ m.1) × (m.1 < 2 ^ 63))) }
    ensures outcome { Yields (λ found. found)
        (settle (found_by (expression_of expression.entry) text.now)
        (moment (W.state world.now) run.old)) result (moment (W.state world.now) run.new) }
{
    Ok(run.matchers.find(expression, text)?)
}

/// Where an expression matches first in the text of a field, which is not copied.
///
/// Fault `ere` where it is a text that is no expression.
///
/// POSIX.1-2017, awk, "Regular Expressions".
pub fn find_in_field<W: World>(
    expression: EreReference<'_>,
    n: usize,
    world: &W,
    run: &mut Run<'_>,
) -> Result<Option<(usize, usize)>, Halt>
    ensures left { run.new.left ≤ run.old.left }
    ensures within { IfOk result (λ found. IfSome found (λ m. (m.0 ≤ m.1) × (m.1 < 2 ^ 63))) }
    ensures outcome { Yields (λ found. found)
        (bind (as_text [] (value_of_leaf W.calls (field n))) (λ s.
        settle (found_by (expression_of expression.entry) s))
        (moment (W.state world.now) run.old)) result (moment (W.state world.now) run.new) }
{
    run.state.line.prepare(n)?;
    let mut buffer = Buffer::new();
    let text = text_in(run.state.line.field(n), &mut buffer);
    Ok(run.matchers.find(expression, text)?)
}

/// Whether an expression matches in the text of a field, or, where no match is wanted, does not
/// match. The text is not copied, and where in it the match lies is not looked for.
///
/// Fault `ere` where it is a text that is no expression.
///
/// POSIX.1-2017, awk, "Regular Expressions".
#[inline(always)]
pub fn matches_field<W: World>(
    expression: EreReference<'_>,
    wanted: bool,
    n: usize,
    world: &W,
    run: &mut Run<'_>,
) -> Result<bool, Halt>
    ensures same { moment (W.state world.now) run.new ≡ moment (W.state world.now) run.old }
    ensures left { run.new.left ≤ run.old.left }
    ensures outcome { Yields (λ holds. holds)
        (bind (as_text [] (value_of_leaf W.calls (field n))) (λ s.
        bind (settle (found_by (expression_of expression.entry) s)) (λ found.
        give (same_truth wanted (is_some found))))
        (moment (W.state world.now) run.old)) result (moment (W.state world.now) run.new) }
{
    run.state.line.prepare(n)?;
    let mut buffer = Buffer::new();
    let text = text_in(run.state.line.field(n), &mut buffer);
    let holds = run.matchers.is_match(expression, text)?;
    Ok(same_truth(wanted, holds))
}

/// The text that a format makes of values, where the format that is a value has the text `text`. The buffer of that
/// text and the room of the values are kept.
///
/// POSIX.1-2017, awk, "Output Statements" and "String Functions" (`sprintf`).
pub fn fill_format<W: World>(
    format: &Format,
    text: Vec<u8>,
    values: Values,
    world: &W,
    run: &mut Run<'_>,
) -> Result<Vec<u8>, Halt>
    ensures left { run.new.left ≤ run.old.left }
    ensures outcome { Yields (λ made. made.items)
        (settle (formatted_text (format_text (format_view format.now) text.items) values)
        (moment (W.state world.now) run.old)) result (moment (W.state world.now) run.new) }
{
    let mut made = take_buffer(run.alloc, &mut run.spare);
    format_values(&mut made, run.alloc, format, &text, &values)?;
    give_back(&mut run.spare, text);
    run.values = values;
    Ok(made)
}

/// Replaces matches in the text of a place, and gives how many.
///
/// POSIX.1-2017, awk, "String Functions" (`sub`, `gsub`).
pub fn substitute<W: World>(
    count: ReplacedMatches,
    expression: EreReference<'_>,
    replacement: &[u8],
    target: &Target,
    world: &mut W,
    run: &mut Run<'_>,
) -> Result<i64, Halt>
    ensures left { run.new.left ≤ run.old.left }
    ensures outcome { Yields (λ number. number)
        (bind (as_text [] (read_at W.calls (aim_view target.now))) (λ s.
        bind (settle (replaced_by count (expression_of expression.entry) replacement.now s))
        (put_replaced W.calls (aim_view target.now)))
        (moment (W.state world.old) run.old)) result (moment (W.state world.new) run.new) }
{
    let mut bytes = take_buffer(run.alloc, &mut run.spare);
    let held = read_place(target, &mut bytes, world, run)?;
    let mut buffer = Buffer::new();
    let text = text_in(lend_held(held, &bytes), &mut buffer);
    let mut out = take_buffer(run.alloc, &mut run.spare);
    let number = run
        .matchers
        .replace(count, expression, replacement, text, &mut out)?;
    let outcome = put_text(target, number, &out, world, run);
    give_back(&mut run.spare, bytes);
    give_back(&mut run.spare, out);
    outcome
}
