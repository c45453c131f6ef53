//! What is done at once, where only leaves are given: nothing is stored first.
//!
//! POSIX.1-2017, awk, "Expressions in awk" and "Functions".

ghost use Rattle.std.specs.Prelude.{
  ◌≡◌,
  ◌≤◌,
  ◌++◌,
  ℕ,
  List,
  [],
  Ok,
  IfNone,
  IfSome,
  OnOk,
  pos,
};
ghost use Rattle.pawk_value.specs.Value.{Val};
ghost use Rattle.pawk_value.specs.Held.{added, held_value};
ghost use Rattle.pawk_code.specs.Expressions.{exprs, field};
ghost use Rattle.pawk_code.specs.Expressions as codes;
ghost use Rattle.pawk_code.specs.ExpressionViews.{function_view, pattern_view, place_view, view, views};
ghost use Rattle.pawk_code.specs.Statements as actions;
ghost use Rattle.pawk_builtins.specs.ExpressionViews.{expression_of, texts_of};
ghost use Rattle.pawk_store.specs.Builtins.{found_by};
ghost use Rattle.pawk_store.specs.Meaning.{
  act,
  aim_of,
  eval,
  function_of,
  number_of,
  place_of_match,
  set_match,
  truth_of,
  value_of_leaf,
};
ghost use Rattle.pawk_store.specs.Parts.{Hold, Part, as_number, as_text, bind, settle};
ghost use Rattle.pawk_store.specs.Places.{add_at};
ghost use Rattle.pawk_runtime.specs.Moments.{moment};
ghost use Rattle.pawk_runtime.specs.Yields.{Yields};

use crate::arrays::{field_exists, number_exists};
use crate::leaves::{leaf_length, leaf_text, lent_number, place_in_leaf, plain_number};
use crate::operations::find_in_field;
use crate::quick::{LEVELS, quick_field};
use crate::reading::{field_element_number, push_field_element, read_field_element};
use crate::run::Run;
use crate::shapes::{field_element, leaf_element};
use crate::target::{ArrayReference, table_of};
use crate::writing::{
    add_leaf_at_field, add_to_parameter, set_at_number, set_match_place, tally_at_field,
};
use pawk_builtins::EreReference;
use pawk_code::expression::{Expr, Lvalue, NumericFunction, Pattern};
use pawk_code::leaf::Leaf;
use pawk_code::name::Array;
use pawk_code::word::Sign;
use pawk_value::{Fault, Held};
use pawk_world::{Halt, World};

/// The number that a built-in function gives whose operands are leaves; nothing for another, or for `int`. No
/// text is copied.
///
/// POSIX.1-2017, awk, "String Functions" (`length`, `index`).
#[inline(always)]
pub fn leaf_function<W: World>(
    f: &NumericFunction,
    world: &W,
    run: &mut Run<'_>,
) -> Option<Result<i64, Halt>>
    ensures left { run.new.left ≤ run.old.left }
    ensures same { moment (W.state world.now) run.new ≡ moment (W.state world.now) run.old }
    ensures outcome { IfSome result (λ answer.
        (eres : List (List ℕ)) → (enter : ℕ → List Hold → Part W.State Val) → Yields (λ n. n)
        (function_of W.calls eres enter (function_view f.now)
        (moment (W.state world.now) run.old)) answer (moment (W.state world.now) run.new)) }
{
    match f {
        NumericFunction::Length(e) => match e.as_ref() {
            Expr::Leaf(leaf) => Some(leaf_length(leaf, world, run)),
            _ => None,
        },
        NumericFunction::Index(e, sought) => match (e.as_ref(), sought.as_ref()) {
            (Expr::Leaf(leaf), Expr::Leaf(sought)) => Some(place_in_leaf(leaf, sought, world, run)),
            _ => None,
        },
        NumericFunction::Whole(_) => None,
    }
}

/// Adds 1 to a variable, or to an element whose only subscript is a field, or takes it away; nothing is done for
/// another place. The key is not copied.
#[inline(always)]
pub fn leaf_tally<W: World>(
    sign: Sign,
    to: &Lvalue,
    world: &mut W,
    run: &mut Run<'_>,
) -> Option<Result<(), Halt>>
    ensures left { run.new.left ≤ run.old.left }
    ensures same { IfNone result
        (moment (W.state world.new) run.new ≡ moment (W.state world.old) run.old) }
    ensures outcome { IfSome result (λ answer.
        (eres : List (List ℕ)) → (enter : ℕ → List Hold → Part W.State Val) → Yields (λ _. tt)
        (bind (aim_of W.calls eres enter (place_view to.now))
        (λ aim. add_at W.calls sign aim (Ok (pos 1)))
        (moment (W.state world.old) run.old)) answer (moment (W.state world.new) run.new)) }
{
    match to {
        Lvalue::Global(slot) => Some(world.add_scalar(*slot, sign, Ok(1))),
        Lvalue::Local(number) => Some(add_to_parameter(sign, *number, Ok(1), world, run)),
        to => {
            let (array, n) = field_element(to)?;
            Some(tally_at_field(sign, table_of(&run.frame, array), n, world, run))
        }
    }
}

/// Adds the number of a leaf to an element whose only subscript is a field, or takes it away; nothing is done
/// for another place or another operand. The key is not copied.
#[inline(always)]
pub fn leaf_add<W: World>(
    sign: Sign,
    to: &Lvalue,
    e: &Expr,
    world: &mut W,
    run: &mut Run<'_>,
) -> Option<Result<(), Halt>>
    ensures left { run.new.left ≤ run.old.left }
    ensures same { IfNone result
        (moment (W.state world.new) run.new ≡ moment (W.state world.old) run.old) }
    ensures outcome { IfSome result (λ answer.
        (eres : List (List ℕ)) → (enter : ℕ → List Hold → Part W.State Val) → Yields (λ _. tt)
        (act W.calls eres enter (actions.add sign (place_view to.now) (view e.now))
        (moment (W.state world.old) run.old)) answer (moment (W.state world.new) run.new)) }
{
    let Expr::Leaf(amount) = e else {
        return None;
    };
    let (array, n) = field_element(to)?;
    Some(add_leaf_at_field(sign, table_of(&run.frame, array), n, amount, world, run))
}

/// Whether an array has an element, where the only subscript is a field or a number; nothing for others. The key
/// is not copied.
///
/// POSIX.1-2017, awk, "Expressions in awk" (`in`).
#[inline(always)]
pub fn leaf_member<W: World>(
    array: Array,
    keys: &[Expr],
    world: &mut W,
    run: &mut Run<'_>,
) -> Option<Result<bool, Halt>>
    ensures left { run.new.left ≤ run.old.left }
    ensures same { IfNone result
        (moment (W.state world.new) run.new ≡ moment (W.state world.old) run.old) }
    ensures outcome { IfSome result (λ answer.
        (eres : List (List ℕ)) → (enter : ℕ → List Hold → Part W.State Val) → Yields (λ b. b)
        (truth_of W.calls eres enter (codes.member array (exprs (views keys.now)))
        (moment (W.state world.old) run.old)) answer (moment (W.state world.new) run.new)) }
{
    let [Expr::Leaf(leaf)] = keys else {
        return None;
    };
    if let Leaf::Field(n) = leaf {
        return Some(field_exists(table_of(&run.frame, array), *n, world, run));
    }
    let key = plain_number(leaf, world, run)?;
    Some(number_exists(table_of(&run.frame, array), key, world, run))
}

/// Assigns the number of a leaf to an element of a global array whose only subscript is a leaf with a number;
/// nothing is done for others. The key is not copied.
#[inline(always)]
pub fn leaf_set<W: World>(
    to: &Lvalue,
    e: &Expr,
    world: &mut W,
    run: &mut Run<'_>,
) -> Option<Result<(), Halt>>
    ensures left { run.new.left ≤ run.old.left }
    ensures same { IfNone result
        (moment (W.state world.new) run.new ≡ moment (W.state world.old) run.old) }
    ensures outcome { IfSome result (λ answer.
        (eres : List (List ℕ)) → (enter : ℕ → List Hold → Part W.State Val) → Yields (λ _. tt)
        (act W.calls eres enter (actions.set (place_view to.now) (view e.now))
        (moment (W.state world.old) run.old)) answer (moment (W.state world.new) run.new)) }
{
    let Expr::Leaf(value) = e else {
        return None;
    };
    let (array, key) = leaf_element(to)?;
    let ArrayReference::Global(slot) = table_of(&run.frame, array) else {
        return None;
    };
    let key = plain_number(key, world, run)?;
    let value = plain_number(value, world, run)?;
    Some(set_at_number(slot, key, value, world, run))
}

/// Finds the first match of an expression in the text of a field, sets RSTART and RLENGTH, and gives RSTART. The
/// text is not copied.
fn match_in_field<W: World>(
    expression: EreReference<'_>,
    n: usize,
    world: &W,
    run: &mut Run<'_>,
) -> Result<i64, Halt>
    ensures left { run.new.left ≤ run.old.left }
    ensures outcome { Yields (λ begin. begin)
        (bind (as_text [] (value_of_leaf W.calls (field n))) (λ s.
        bind (settle (found_by (expression_of expression.entry) s)) (λ found.
        set_match (place_of_match found)))
        (moment (W.state world.now) run.old)) result (moment (W.state world.now) run.new) }
{
    let found = find_in_field(expression, n, world, run)?;
    set_match_place(found, world, run)
}

/// Finds the first match of an expression between slashes in the text of a field, sets RSTART and RLENGTH, and
/// gives RSTART; nothing is done for another text or another expression. The text is not copied.
///
/// POSIX.1-2017, awk, "String Functions" (`match`).
#[inline(always)]
pub fn leaf_find<W: World>(
    eres: &[Vec<u8>],
    e: &Expr,
    pattern: &Pattern,
    world: &W,
    run: &mut Run<'_>,
) -> Option<Result<i64, Halt>>
    ensures left { run.new.left ≤ run.old.left }
    ensures same { IfNone result
        (moment (W.state world.now) run.new ≡ moment (W.state world.now) run.old) }
    ensures outcome { IfSome result (λ answer.
        (enter : ℕ → List Hold → Part W.State Val) → Yields (λ begin. begin)
        (number_of W.calls (texts_of eres.now) enter
        (codes.find (view e.now) (pattern_view pattern.now))
        (moment (W.state world.now) run.old)) answer (moment (W.state world.now) run.new)) }
{
    let Expr::Leaf(Leaf::Field(n)) = e else {
        return None;
    };
    let Pattern::Fixed(_) = pattern else {
        return None;
    };
    let expression = EreReference {
        eres,
        pattern,
        text: &[],
    };
    Some(match_in_field(expression, *n, world, run))
}

/// Stores the value of an element whose only subscript is a field; nothing is done for another place. The key is
/// not copied.
#[inline(always)]
pub fn leaf_read<W: World>(
    from: &Lvalue,
    out: &mut Vec<u8>,
    world: &mut W,
    run: &mut Run<'_>,
) -> Option<Result<Held, Halt>>
    ensures left { run.new.left ≤ run.old.left }
    ensures same { IfNone result ((out.new.items ≡ out.old.items)
        × (moment (W.state world.new) run.new ≡ moment (W.state world.old) run.old)) }
    ensures appended { IfSome result (λ answer. OnOk answer
        (out.new.items ≡ out.old.items ++ added out.old.items out.new.items)) }
    ensures outcome { IfSome result (λ answer.
        (eres : List (List ℕ)) → (enter : ℕ → List Hold → Part W.State Val)
        → Yields (λ h. held_value h (added out.old.items out.new.items))
        (eval W.calls eres enter (codes.read (place_view from.now))
        (moment (W.state world.old) run.old)) answer (moment (W.state world.new) run.new)) }
{
    let (array, n) = field_element(from)?;
    Some(read_field_element(table_of(&run.frame, array), n, out, world, run))
}

/// The number of a field whose own number is found at once, or of an element whose only subscript is a field, or
/// the fault of its conversion; nothing is done for another place. The key is not copied.
#[inline(always)]
pub fn leaf_read_number<W: World>(
    from: &Lvalue,
    world: &mut W,
    run: &mut Run<'_>,
) -> Option<Result<Result<i64, Fault>, Halt>>
    ensures left { run.new.left ≤ run.old.left }
    ensures same { IfNone result
        (moment (W.state world.new) run.new ≡ moment (W.state world.old) run.old) }
    ensures outcome { IfSome result (λ answer.
        (eres : List (List ℕ)) → (enter : ℕ → List Hold → Part W.State Val) → Yields (λ n. n)
        (as_number (eval W.calls eres enter (codes.read (place_view from.now)))
        (moment (W.state world.old) run.old)) answer (moment (W.state world.new) run.new)) }
{
    if let Lvalue::Field(index) = from {
        let field = quick_field(index, LEVELS, world, run)?;
        return Some(lent_number(&Leaf::Field(field), world, run));
    }
    let (array, n) = field_element(from)?;
    Some(field_element_number(table_of(&run.frame, array), n, world, run))
}

/// Appends the text of a field whose number is found at once, or of an element whose only subscript is a field;
/// nothing is done for another place. The key is not copied.
#[inline(always)]
pub fn leaf_read_text<W: World>(
    from: &Lvalue,
    out: &mut Vec<u8>,
    world: &mut W,
    run: &mut Run<'_>,
) -> Option<Result<(), Halt>>
    ensures left { run.new.left ≤ run.old.left }
    ensures same { IfNone result ((out.new.items ≡ out.old.items)
        × (moment (W.state world.new) run.new ≡ moment (W.state world.old) run.old)) }
    ensures outcome { IfSome result (λ answer.
        (eres : List (List ℕ)) → (enter : ℕ → List Hold → Part W.State Val)
        → Yields (λ _. out.new.items)
        (as_text out.old.items (eval W.calls eres enter (codes.read (place_view from.now)))
        (moment (W.state world.old) run.old)) answer (moment (W.state world.new) run.new)) }
{
    if let Lvalue::Field(index) = from {
        let field = quick_field(index, LEVELS, world, run)?;
        return Some(leaf_text(&Leaf::Field(field), out, world, run));
    }
    let (array, n) = field_element(from)?;
    Some(push_field_element(table_of(&run.frame, array), n, out, world, run))
}
