//! Tests of fields and variables that are found at once.
//!
//! POSIX.1-2017, awk, "Expressions in awk".

ghost use Rattle.std.specs.Prelude.{◌≡◌, ◌≤◌, ℕ, List, IfSome};
ghost use Rattle.pawk_value.specs.Value.{Val};
ghost use Rattle.pawk_code.specs.Expressions.{compare, field, leaf, matches, read, to_field};
ghost use Rattle.pawk_code.specs.ExpressionViews.{leaf_view, pattern_view, view};
ghost use Rattle.pawk_builtins.specs.ExpressionViews.{texts_of};
ghost use Rattle.pawk_store.specs.Meaning.{eval, truth_of};
ghost use Rattle.pawk_store.specs.Parts.{Hold, Part, as_truth, bind, gives, settle};
ghost use Rattle.pawk_runtime.specs.Moments.{moment};

use crate::operations::matches_field;
use crate::quick::{LEVELS, quick_field};
use crate::run::Run;
use itoa::Buffer;
use pawk_builtins::{EreReference, holds_for, same_truth};
use pawk_code::expression::{Expr, Lvalue, Pattern, Test};
use pawk_code::leaf::Leaf;
use pawk_code::word::Relation;
use pawk_value::{ValueRef, compare_lent, text_in};
use pawk_world::World;

/// Whether a field and a constant compare so, where that is found without a fault. Nothing is copied.
#[inline(never)]
fn field_relates<W: World>(
    relation: Relation,
    n: usize,
    constant: &Expr,
    world: &W,
    run: &mut Run<'_>,
) -> Option<bool>
    ensures same { moment (W.state world.now) run.new ≡ moment (W.state world.now) run.old }
    ensures left { run.new.left ≤ run.old.left }
    ensures holds { IfSome result (λ holds. (eres : List (List ℕ))
        → (enter : ℕ → List Hold → Part W.State Val)
        → truth_of W.calls eres enter (compare relation (leaf (field n)) (view constant.now))
        (moment (W.state world.now) run.old) ≡ gives holds (moment (W.state world.now) run.old)) }
{
    let value = match constant {
        Expr::Leaf(Leaf::Number(number)) => ValueRef::Num(*number),
        Expr::Leaf(Leaf::Text(text)) => ValueRef::Text(text.as_slice()),
        _ => return None,
    };
    run.state.line.prepare(n).ok()?;
    let order = compare_lent(run.state.line.field(n), value).ok()?;
    Some(holds_for(relation, order))
}

/// Whether an expression between slashes matches in the text of a field, or, where no match is wanted,
/// does not match, where that is found without a fault. Nothing is copied.
#[inline(never)]
fn field_matches<W: World>(
    eres: &[Vec<u8>],
    wanted: bool,
    n: usize,
    pattern: &Pattern,
    world: &W,
    run: &mut Run<'_>,
) -> Option<bool>
    ensures same { moment (W.state world.now) run.new ≡ moment (W.state world.now) run.old }
    ensures left { run.new.left ≤ run.old.left }
    ensures holds { IfSome result (λ holds. (enter : ℕ → List Hold → Part W.State Val)
        → truth_of W.calls (texts_of eres.now) enter
        (matches wanted (leaf (field n)) (pattern_view pattern.now))
        (moment (W.state world.now) run.old) ≡ gives holds (moment (W.state world.now) run.old)) }
{
    let Pattern::Fixed(_) = pattern else {
        return None;
    };
    let expression = EreReference {
        eres,
        pattern,
        text: &[],
    };
    matches_field(expression, wanted, n, world, run).ok()
}

/// Whether an expression between slashes matches in the text of a field whose number is found at once, or, where no
/// match is wanted, does not match, where that is found without a fault. Nothing is copied.
#[inline(never)]
fn read_matches<W: World>(
    eres: &[Vec<u8>],
    wanted: bool,
    index: &Expr,
    pattern: &Pattern,
    world: &W,
    run: &mut Run<'_>,
) -> Option<bool>
    ensures same { moment (W.state world.now) run.new ≡ moment (W.state world.now) run.old }
    ensures left { run.new.left ≤ run.old.left }
    ensures holds { IfSome result (λ holds. (enter : ℕ → List Hold → Part W.State Val)
        → truth_of W.calls (texts_of eres.now) enter
        (matches wanted (read (to_field (view index.now))) (pattern_view pattern.now))
        (moment (W.state world.now) run.old) ≡ gives holds (moment (W.state world.now) run.old)) }
{
    let Pattern::Fixed(_) = pattern else {
        return None;
    };
    let n = quick_field(index, LEVELS, world, run)?;
    field_matches(eres, wanted, n, pattern, world, run)
}

/// Whether an expression between slashes matches in the text of a variable, or, where no match is wanted, does not
/// match, where that is found without a fault; none for another leaf. Nothing is copied.
#[inline(never)]
fn variable_matches<W: World>(
    eres: &[Vec<u8>],
    wanted: bool,
    variable: &Leaf,
    pattern: &Pattern,
    world: &W,
    run: &mut Run<'_>,
) -> Option<bool>
    ensures same { moment (W.state world.now) run.new ≡ moment (W.state world.now) run.old }
    ensures left { run.new.left ≤ run.old.left }
    ensures holds { IfSome result (λ holds. (enter : ℕ → List Hold → Part W.State Val)
        → truth_of W.calls (texts_of eres.now) enter
        (matches wanted (leaf (leaf_view variable.now)) (pattern_view pattern.now))
        (moment (W.state world.now) run.old) ≡ gives holds (moment (W.state world.now) run.old)) }
{
    let Pattern::Fixed(_) = pattern else {
        return None;
    };
    let Leaf::Global(slot) = variable else {
        return None;
    };
    let expression = EreReference {
        eres,
        pattern,
        text: &[],
    };
    let mut buffer = Buffer::new();
    let text = text_in(world.scalar(*slot), &mut buffer);
    let found = run.matchers.is_match(expression, text).ok()?;
    Some(same_truth(wanted, found))
}

/// Whether an expression between slashes matches in the text of a field or of a variable, or, where no match is wanted,
/// does not match, where that is found without a fault; none for another expression. Nothing is copied.
///
/// POSIX.1-2017, awk, "Regular Expressions".
#[inline(never)]
pub fn quick_match<W: World>(
    eres: &[Vec<u8>],
    wanted: bool,
    e: &Expr,
    pattern: &Pattern,
    world: &W,
    run: &mut Run<'_>,
) -> Option<bool>
    ensures same { moment (W.state world.now) run.new ≡ moment (W.state world.now) run.old }
    ensures left { run.new.left ≤ run.old.left }
    ensures holds { IfSome result (λ holds. (enter : ℕ → List Hold → Part W.State Val)
        → truth_of W.calls (texts_of eres.now) enter
        (matches wanted (view e.now) (pattern_view pattern.now))
        (moment (W.state world.now) run.old) ≡ gives holds (moment (W.state world.now) run.old)) }
{
    match e {
        Expr::Leaf(Leaf::Field(n)) => field_matches(eres, wanted, *n, pattern, world, run),
        Expr::Leaf(variable) => variable_matches(eres, wanted, variable, pattern, world, run),
        Expr::Read(Lvalue::Field(index)) => read_matches(eres, wanted, index, pattern, world, run),
        _ => None,
    }
}

/// Whether an expression is true that compares a field with a constant, or holds a field against an expression between
/// slashes, where that is found without a fault; then no moment changes.
///
/// Where it is not found nothing is said of the expression.
#[inline(always)]
pub fn quick_test<W: World>(
    eres: &[Vec<u8>],
    e: &Expr,
    world: &W,
    run: &mut Run<'_>,
) -> Option<bool>
    ensures same { moment (W.state world.now) run.new ≡ moment (W.state world.now) run.old }
    ensures left { run.new.left ≤ run.old.left }
    ensures holds { IfSome result (λ holds. (enter : ℕ → List Hold → Part W.State Val)
        → bind (as_truth (eval W.calls (texts_of eres.now) enter (view e.now))) settle
        (moment (W.state world.now) run.old) ≡ gives holds (moment (W.state world.now) run.old)) }
{
    match e {
        Expr::Test(Test::Compare(relation, a, b)) => match a.as_ref() {
            Expr::Leaf(Leaf::Field(n)) => field_relates(*relation, *n, b, world, run),
            _ => None,
        },
        Expr::Test(Test::Match(wanted, a, pattern)) => match a.as_ref() {
            Expr::Leaf(Leaf::Field(n)) => field_matches(eres, *wanted, *n, pattern, world, run),
            _ => None,
        },
        _ => None,
    }
}
