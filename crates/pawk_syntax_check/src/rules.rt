//! What each mention has to meet.

ghost use Rattle.std.specs.Prelude.{◌≡◌, length, not};
ghost use Rattle.std.specs.Option.{is_none};
ghost use Rattle.pawk_lex.specs.Vocabulary as vocabulary;
ghost use Rattle.pawk_syntax_tree.specs.Tree.{view, views, trees};
ghost use Rattle.pawk_syntax_tree.specs.Item.{part};
ghost use Rattle.pawk_syntax_check.specs.Views.{mention_view};
ghost use Rattle.pawk_syntax_check.specs.FunctionViews.{function_under};
ghost use Rattle.pawk_syntax_check.specs.Targets as targets;
ghost use Rattle.pawk_syntax_check.specs.Calls as calls;
ghost use Rattle.pawk_syntax_check.specs.Words as words;
ghost use Rattle.pawk_syntax_check.specs.Fits.{fits};

use crate::fault::{CheckFault, first_of};
use crate::functions::Functions;
use crate::mention::Mention;
use pawk_lex::refusal::Cause;
use pawk_lex::token::Builtin;
use pawk_lex::vocabulary::is_run_variable;
use pawk_syntax_tree::item::ProgramItem;
use pawk_syntax_tree::statement::Jump;
use pawk_syntax_tree::tree::{ExpressionTree, Name, Single};

/// Whether an expression may be assigned.
fn is_lvalue(e: &ExpressionTree) -> bool
    ensures { result ≡ calls.is_lvalue (view e.now) }
{
    match e {
        ExpressionTree::Variable(_) | ExpressionTree::Element(_, _) => true,
        ExpressionTree::Unary(op, _) => *op == Single::Field,
        _ => false,
    }
}

/// Whether an expression is a name alone.
fn is_name(e: &ExpressionTree) -> bool
    ensures { result ≡ calls.is_name (view e.now) }
{
    match e {
        ExpressionTree::Variable(_) => true,
        _ => false,
    }
}

/// Whether a built-in function takes this number of arguments.
fn takes(function: Builtin, count: usize) -> bool
    ensures { result ≡ calls.takes function count }
{
    match function {
        Builtin::Length | Builtin::Tolower | Builtin::Toupper | Builtin::Int => count == 1,
        Builtin::Index | Builtin::Match => count == 2,
        Builtin::Substr | Builtin::Split => count == 2 || count == 3,
        Builtin::Sub | Builtin::Gsub => count == 3,
        Builtin::Sprintf => count >= 1,
    }
}

/// Whether the third argument, if there is one, may be assigned.
#[tactic(auto, using(crate::proofs::Arguments::short_of_three))]
fn assigns_third(arguments: &[ExpressionTree]) -> bool
    ensures { result ≡ calls.third calls.is_lvalue (trees (views arguments.now)) }
{
    match arguments {
        [_, _, target, ..] => is_lvalue(target),
        _ => true,
    }
}

/// Whether the second argument, if there is one, is a name alone.
#[tactic(auto, using(crate::proofs::Arguments::short_of_two))]
fn names_second(arguments: &[ExpressionTree]) -> bool
    ensures { result ≡ calls.second calls.is_name (trees (views arguments.now)) }
{
    match arguments {
        [_, array, ..] => is_name(array),
        _ => true,
    }
}

/// Whether what a built-in function assigns or fills can be assigned or filled.
fn has_targets(function: Builtin, arguments: &[ExpressionTree]) -> bool
    ensures { result ≡ calls.has_targets function (trees (views arguments.now)) }
{
    match function {
        Builtin::Sub | Builtin::Gsub => assigns_third(arguments),
        Builtin::Split => names_second(arguments),
        _ => true,
    }
}

/// Whether the arguments of a built-in function fit it.
#[tactic(auto, using(crate::proofs::Arguments::count_of_views))]
fn fits_builtin(function: Builtin, arguments: &[ExpressionTree]) -> bool
    ensures { result ≡ calls.fits_builtin function (trees (views arguments.now)) }
{
    takes(function, arguments.len()) && has_targets(function, arguments)
}

/// Whether an item is a rule of the records.
fn is_rule(item: &ProgramItem) -> bool
    ensures { result ≡ words.is_rule (part item.now) }
{
    match item {
        ProgramItem::Always(_) | ProgramItem::When(_, _) | ProgramItem::Range(_, _, _) => true,
        ProgramItem::Begin(_) | ProgramItem::End(_) | ProgramItem::Function(_, _, _) => false,
    }
}

/// Whether an item is a function.
fn is_function(item: &ProgramItem) -> bool
    ensures { result ≡ words.is_function (part item.now) }
{
    match item {
        ProgramItem::Function(_, _, _) => true,
        ProgramItem::Begin(_)
        | ProgramItem::End(_)
        | ProgramItem::Always(_)
        | ProgramItem::When(_, _)
        | ProgramItem::Range(_, _, _) => false,
    }
}

/// Whether a word that leaves is where it may be.
fn may_leave(item: &ProgramItem, word: Jump, in_loop: bool) -> bool
    ensures { result ≡ words.may_leave (part item.now) word in_loop }
{
    match word {
        Jump::Next | Jump::NextFile => is_rule(item),
        Jump::Break | Jump::Continue => in_loop,
    }
}

/// A fault unless the rule is met.
pub fn unless(is_met: bool, cause: Cause, start: usize) -> Option<CheckFault>
    ensures { is_none result ≡ is_met }
{
    if is_met {
        None
    } else {
        Some(CheckFault { cause, start })
    }
}

/// Whether a function of this name takes this number of arguments.
fn is_call(functions: &Functions<'_>, name: &Name, count: usize) -> bool
    ensures { result ≡
        calls.takes_arguments (function_under functions.now name.now.text.items) count }
{
    match functions.get(name.text.as_slice()) {
        None => false,
        Some(function) => count <= function.parameters.len(),
    }
}

/// A name that is no function's is used here.
fn other_than_function(functions: &Functions<'_>, name: &Name) -> Option<CheckFault>
    ensures { is_none result ≡ is_none (function_under functions.now name.now.text.items) }
{
    unless(
        functions.get(name.text.as_slice()).is_none(),
        Cause::Uses,
        name.start,
    )
}

/// A variable that the run sets is not assigned here.
fn other_than_run_variable(name: &Name) -> Option<CheckFault>
    ensures { is_none result ≡ not (vocabulary.is_run_variable name.now.text.items) }
{
    unless(
        !is_run_variable(name.text.as_slice()),
        Cause::Assigned,
        name.start,
    )
}

/// What is at fault with a mention of an item.
pub fn fault(
    functions: &Functions<'_>,
    item: &ProgramItem,
    mention: Mention<'_>,
) -> Option<CheckFault>
    ensures { is_none result ≡
        fits (function_under functions.now) (part item.now) (mention_view mention.entry) }
{
    match mention {
        Mention::Array(name) => other_than_function(functions, name),
        Mention::Scalar(name) => other_than_function(functions, name),
        Mention::Argument(name, _, _) => other_than_function(functions, name),
        Mention::Target(name) => first_of(
            other_than_run_variable(name),
            other_than_function(functions, name),
        ),
        Mention::Value(_, _) => None,
        Mention::Call(name, count) => unless(
            is_call(functions, name, count),
            Cause::Call,
            name.start,
        ),
        Mention::Builtin(function, start, arguments) => unless(
            fits_builtin(function, arguments),
            Cause::Call,
            start,
        ),
        Mention::Leave(word, start, in_loop) => unless(
            may_leave(item, word, in_loop),
            Cause::Misplaced,
            start,
        ),
        Mention::Return(start) => unless(is_function(item), Cause::Misplaced, start),
    }
}
