//! Numbers of expressions that have no effect.
//!
//! POSIX.1-2017, awk, "Expressions in awk".

ghost use Rattle.std.specs.Prelude.{◌≡◌, ◌≤◌, ℕ, List, Ok, IfSome};
ghost use Rattle.pawk_value.specs.Conversion.{num_of};
ghost use Rattle.pawk_value.specs.Value.{Num, Val};
ghost use Rattle.pawk_code.specs.ExpressionViews.{leaf_view, numeric_view, view};
ghost use Rattle.pawk_code.specs.Expressions.{field, index_of, length_of, read, to_field};
ghost use Rattle.pawk_store.specs.Meaning.{eval, function_of, leaf_value, number_of};
ghost use Rattle.pawk_store.specs.Parts.{Hold, Part, as_number, as_truth, gives};
ghost use Rattle.pawk_runtime.specs.Moments.{moment};

use crate::arithmetic::result_of;
use crate::leaves::{leaf_length, lent_number, place_in_leaf, plain_number, related_numbers};
use crate::run::Run;
use pawk_builtins::field_index;
use pawk_code::expression::{Expr, Lvalue, Numeric, NumericFunction, Test};
use pawk_code::leaf::{Leaf, Special};
use pawk_world::World;

/// This number of levels of operations is tried at once in an operand, a place, a length or the number of a field,
/// before they are evaluated one by one.
pub const LEVELS: u32 = 2;

/// The number of a leaf, if it has one.
#[inline(always)]
fn quick_leaf<W: World>(leaf: &Leaf, world: &W, run: &mut Run<'_>) -> Option<i64>
    ensures same { moment (W.state world.now) run.new ≡ moment (W.state world.now) run.old }
    ensures left { run.new.left ≤ run.old.left }
    ensures number { IfSome result (λ number. num_of (leaf_value W.calls (leaf_view leaf.now)
        (moment (W.state world.now) run.old)) ≡ Ok number) }
{
    if let Leaf::Field(_) = leaf {
        return looked_number(leaf, world, run);
    }
    if let Some(number) = plain_number(leaf, world, run) {
        return Some(number);
    }
    looked_number(leaf, world, run)
}

/// The number of a leaf that is looked for, if there is one.
#[inline(always)]
fn looked_number<W: World>(leaf: &Leaf, world: &W, run: &mut Run<'_>) -> Option<i64>
    ensures same { moment (W.state world.now) run.new ≡ moment (W.state world.now) run.old }
    ensures left { run.new.left ≤ run.old.left }
    ensures number { IfSome result (λ number. num_of (leaf_value W.calls (leaf_view leaf.now)
        (moment (W.state world.now) run.old)) ≡ Ok number) }
{
    match lent_number(leaf, world, run) {
        Ok(Ok(number)) => Some(number),
        _ => None,
    }
}

/// The number of an expression, where it is a leaf, a field whose index has such a number, `length` or `index` of leaves,
/// or made of these by at most `levels` levels of operations, and there is no fault; then no moment changes.
///
/// Where there is none nothing is said of the expression: it may have a number too. The levels bound what
/// is evaluated in vain.
#[cycle(quick)]
#[inline(always)]
pub fn quick_number<W: World>(e: &Expr, levels: u32, world: &W, run: &mut Run<'_>) -> Option<i64>
    ensures same { moment (W.state world.now) run.new ≡ moment (W.state world.now) run.old }
    ensures left { run.new.left ≤ run.old.left }
    ensures number { IfSome result (λ number. (eres : List (List ℕ))
        → (enter : ℕ → List Hold → Part W.State Val)
        → as_number (eval W.calls eres enter (view e.now)) (moment (W.state world.now) run.old)
        ≡ gives (Ok number) (moment (W.state world.now) run.old)) }
{
    match e {
        Expr::Leaf(leaf) => quick_leaf(leaf, world, run),
        Expr::Numeric(n) => quick_numeric(n, levels, world, run),
        Expr::Read(Lvalue::Field(index)) => {
            let field = quick_field(index, levels, world, run)?;
            quick_leaf(&Leaf::Field(field), world, run)
        }
        _ => None,
    }
}

/// The number of the field that an expression gives, where it is found so. For `$NF` all fields are looked for at once, and
/// not counted before.
#[cycle(quick)]
pub fn quick_field<W: World>(
    index: &Expr,
    levels: u32,
    world: &W,
    run: &mut Run<'_>,
) -> Option<usize>
    ensures same { moment (W.state world.now) run.new ≡ moment (W.state world.now) run.old }
    ensures left { run.new.left ≤ run.old.left }
    ensures value { IfSome result (λ n. (eres : List (List ℕ))
        → (enter : ℕ → List Hold → Part W.State Val)
        → eval W.calls eres enter (read (to_field (view index.now)))
        (moment (W.state world.now) run.old)
        ≡ gives (leaf_value W.calls (field n) (moment (W.state world.now) run.old))
        (moment (W.state world.now) run.old)) }
{
    if let Expr::Leaf(Leaf::Special(Special::Nf)) = index {
        run.state.line.prepare_all().ok()?;
    }
    let number = quick_number(index, levels, world, run)?;
    field_index(Ok(number)).ok()
}

/// The number that is found without an effect, if it is, of what gives a number.
#[cycle(quick)]
#[inline(always)]
pub fn quick_numeric<W: World>(
    n: &Numeric,
    levels: u32,
    world: &W,
    run: &mut Run<'_>,
) -> Option<i64>
    ensures same { moment (W.state world.now) run.new ≡ moment (W.state world.now) run.old }
    ensures left { run.new.left ≤ run.old.left }
    ensures number { IfSome result (λ number. (eres : List (List ℕ))
        → (enter : ℕ → List Hold → Part W.State Val)
        → number_of W.calls eres enter (numeric_view n.now) (moment (W.state world.now) run.old)
        ≡ gives number (moment (W.state world.now) run.old)) }
{
    match n {
        Numeric::Function(NumericFunction::Length(e)) => quick_length(e, world, run),
        Numeric::Function(NumericFunction::Index(e, sought)) => quick_index(e, sought, world, run),
        n => quick_result(n, levels, world, run),
    }
}

/// The number that is found without an effect, if it is, of an operation.
#[cycle(quick)]
#[inline(never)]
fn quick_result<W: World>(n: &Numeric, levels: u32, world: &W, run: &mut Run<'_>) -> Option<i64>
    ensures same { moment (W.state world.now) run.new ≡ moment (W.state world.now) run.old }
    ensures left { run.new.left ≤ run.old.left }
    ensures number { IfSome result (λ number. (eres : List (List ℕ))
        → (enter : ℕ → List Hold → Part W.State Val)
        → number_of W.calls eres enter (numeric_view n.now) (moment (W.state world.now) run.old)
        ≡ gives number (moment (W.state world.now) run.old)) }
{
    match n {
        Numeric::Arithmetic(op, a, b) => {
            let below = levels.checked_sub(1)?;
            let x = quick_number(a, below, world, run)?;
            let y = quick_number(b, below, world, run)?;
            result_of(*op, x, y).ok()
        }
        _ => None,
    }
}

/// The length of the text of an expression in bytes, where it is a leaf.
fn quick_length<W: World>(e: &Expr, world: &W, run: &mut Run<'_>) -> Option<i64>
    ensures same { moment (W.state world.now) run.new ≡ moment (W.state world.now) run.old }
    ensures left { run.new.left ≤ run.old.left }
    ensures number { IfSome result (λ number. (eres : List (List ℕ))
        → (enter : ℕ → List Hold → Part W.State Val)
        → function_of W.calls eres enter (length_of (view e.now))
        (moment (W.state world.now) run.old)
        ≡ gives number (moment (W.state world.now) run.old)) }
{
    match e {
        Expr::Leaf(leaf) => match leaf_length(leaf, world, run) {
            Ok(length) => Some(length),
            Err(_) => None,
        },
        _ => None,
    }
}

/// The place where the text of one expression first occurs in that of another, where both are leaves.
fn quick_index<W: World>(e: &Expr, sought: &Expr, world: &W, run: &mut Run<'_>) -> Option<i64>
    ensures same { moment (W.state world.now) run.new ≡ moment (W.state world.now) run.old }
    ensures left { run.new.left ≤ run.old.left }
    ensures number { IfSome result (λ number. (eres : List (List ℕ))
        → (enter : ℕ → List Hold → Part W.State Val)
        → function_of W.calls eres enter (index_of (view e.now) (view sought.now))
        (moment (W.state world.now) run.old)
        ≡ gives number (moment (W.state world.now) run.old)) }
{
    match (e, sought) {
        (Expr::Leaf(leaf), Expr::Leaf(other)) => match place_in_leaf(leaf, other, world, run) {
            Ok(place) => Some(place),
            Err(_) => None,
        },
        _ => None,
    }
}

/// The number that the value of an expression is, if it is a leaf for which nothing has to be looked for.
#[inline(always)]
fn plain_leaf<W: World>(e: &Expr, world: &W, run: &Run<'_>) -> Option<i64>
    ensures { IfSome result (λ number. (eres : List (List ℕ))
        → (enter : ℕ → List Hold → Part W.State Val)
        → eval W.calls eres enter (view e.now) (moment (W.state world.now) run.now)
        ≡ gives (Num number) (moment (W.state world.now) run.now)) }
{
    match e {
        Expr::Leaf(leaf) => plain_number(leaf, world, run),
        _ => None,
    }
}

/// The number that the value of an expression is, if it is a leaf for which nothing has to be looked for, or an
/// operation on two such leaves without a fault; then no moment changes.
#[inline(always)]
pub fn plain_value<W: World>(e: &Expr, world: &W, run: &Run<'_>) -> Option<i64>
    ensures { IfSome result (λ number. (eres : List (List ℕ))
        → (enter : ℕ → List Hold → Part W.State Val)
        → eval W.calls eres enter (view e.now) (moment (W.state world.now) run.now)
        ≡ gives (Num number) (moment (W.state world.now) run.now)) }
{
    match e {
        Expr::Leaf(leaf) => plain_number(leaf, world, run),
        Expr::Numeric(Numeric::Arithmetic(op, a, b)) => {
            let x = plain_leaf(a, world, run)?;
            let y = plain_leaf(b, world, run)?;
            result_of(*op, x, y).ok()
        }
        _ => None,
    }
}

/// The truth of an expression that compares two numbers of [`plain_value`]; none where it is another.
#[inline(always)]
pub fn plain_test<W: World>(e: &Expr, world: &W, run: &Run<'_>) -> Option<bool>
    ensures { IfSome result (λ holds. (eres : List (List ℕ))
        → (enter : ℕ → List Hold → Part W.State Val)
        → as_truth (eval W.calls eres enter (view e.now)) (moment (W.state world.now) run.now)
        ≡ gives (Ok holds) (moment (W.state world.now) run.now)) }
{
    match e {
        Expr::Test(Test::Compare(relation, a, b)) => {
            let x = plain_value(a, world, run)?;
            let y = plain_value(b, world, run)?;
            Some(related_numbers(*relation, x, y))
        }
        _ => None,
    }
}
