//! The checks on a whole program.

ghost use Rattle.std.specs.Prelude.{◌≡◌, ◌≢◌, IfOk, OnOk, IfErr, map, true, false};
ghost use Rattle.std.specs.Option.{is_none};
ghost use Rattle.std.specs.List.{list_all};
ghost use Rattle.pawk_lex.specs.Bytes.{Text};
ghost use Rattle.pawk_lex.specs.declared.refusal.SyntaxRefusal.TheVariants as refusal;
ghost use Rattle.pawk_syntax_tree.specs.Item.{part};
ghost use Rattle.pawk_syntax_check.specs.Functions.{function_of};
ghost use Rattle.pawk_syntax_check.specs.Views.{mention_view};
ghost use Rattle.pawk_syntax_check.specs.FunctionViews.{function_under};
ghost use Rattle.pawk_syntax_check.specs.Demands.{KindsFit};
ghost use Rattle.pawk_syntax_check.specs.Fits.{fits, item_fits, items_fit, Fits, PlainProgramsFit};

use crate::fault::{CheckFault, first_of};
use crate::functions::Functions;
use crate::heads::head_fault;
use crate::item::mentions;
use crate::kinds::clash;
use crate::mention::Mention;
use crate::names::fault_of_names;
use crate::rules::fault;
use pawk_lex::refusal::{Cause, SyntaxRefusal};
use pawk_syntax_tree::item::ProgramItem;
use std::alloc::{AllocError, Global};

/// The first fault among mentions of an item.
fn fault_among(
    functions: &Functions<'_>,
    item: &ProgramItem,
    mentions: &[Mention<'_>],
) -> Option<CheckFault>
    ensures { is_none result ≡
        list_all (fits (function_under functions.now) (part item.now))
        (map mention_view mentions.now) }
{
    let mut first = None;
    for mention in mentions {
        first = first_of(first, fault(functions, item, *mention));
    }
    first
}

/// The first fault of the item of this number.
fn fault_of(
    alloc: Global,
    functions: &Functions<'_>,
    number: usize,
    item: &ProgramItem,
) -> Result<Option<CheckFault>, AllocError>
    ensures { IfOk result (λ o. is_none o ≡
        item_fits (function_under functions.now) number (part item.now)) }
{
    let mentions = mentions(alloc, item)?;
    let head = head_fault(functions, number, item);
    let inner = fault_among(functions, item, mentions.as_slice());
    Ok(first_of(head, inner))
}

/// The first fault of all items.
fn fault_in(
    alloc: Global,
    functions: &Functions<'_>,
    items: &[ProgramItem],
) -> Result<Option<CheckFault>, AllocError>
    ensures { IfOk result (λ o. is_none o ≡
        items_fit (function_under functions.now) 1 (map part items.now)) }
{
    let mut first = None;
    for (index, item) in items.iter().enumerate() {
        let here = fault_of(alloc, functions, index + 1, item)?;
        first = first_of(first, here);
    }
    Ok(first)
}

/// The fault of a name that is an array and a scalar.
fn fault_of_kinds<'t>(
    alloc: Global,
    functions: &Functions<'t>,
    items: &'t [ProgramItem],
) -> Result<Option<CheckFault>, AllocError>
    requires { (x : Text) → function_under functions.now x ≡ function_of (map part items.now) x }
    ensures fit { IfOk result (λ o. is_none o ≡ true → KindsFit (map part items.now)) }
    ensures unfit { IfOk result (λ o. is_none o ≡ false → KindsFit (map part items.now) → ⊥) }
{
    match clash(alloc, functions, items)? {
        None => Ok(None),
        Some(start) => Ok(Some(CheckFault {
            cause: Cause::Uses,
            start,
        })),
    }
}

/// The fault that is reported where there is this one: the first, with those of names at their first
/// places.
fn first_fault<'t>(
    alloc: Global,
    functions: &Functions<'t>,
    items: &'t [ProgramItem],
    fault: CheckFault,
) -> Result<SyntaxRefusal, AllocError>
    ensures { IfOk result (λ e. e ≢ refusal.Memory) }
{
    let names = fault_of_names(alloc, functions, items)?;
    let first = first_of(Some(fault), names).unwrap_or(fault);
    Ok(first.refusal())
}

/// Checks a program that was read. Of several faults the first in the text is reported, at one place
/// the one with the lower number:
/// - `Assigned` (4), at the name: a variable that the run sets is assigned.
/// - `Uses` (5), at the first place of the names that have to be of one kind: one of them is an
///   array, and one a scalar. At the first place of a function's name: it is elsewhere than in
///   calls, is defined twice, or is a variable of the language. At the parameter: it occurs twice,
///   or is a function or a variable of the language.
/// - `Call` (6), at the name: a function that is not defined, too many arguments, a wrong count of
///   arguments for a built-in function, or an argument that can be neither assigned nor filled
///   where `sub`, `gsub` or `split` do so.
/// - `Misplaced` (7), at the word: `next` or `nextfile` outside the action of a rule, `return`
///   outside a function, `break` or `continue` outside a loop.
/// Answers `Memory` where memory was refused. The items stay as they are.
pub fn check(alloc: Global, items: &[ProgramItem]) -> Result<(), SyntaxRefusal>
    ensures fit { OnOk result (Fits (map part items.now)) }
    ensures unfit { IfErr result (λ e. e ≢ refusal.Memory → Fits (map part items.now) → ⊥) }
{
    let functions = Functions::new(alloc, items)?;
    let inner = fault_in(alloc, &functions, items)?;
    let kinds = fault_of_kinds(alloc, &functions, items)?;
    match first_of(inner, kinds) {
        None => Ok(()),
        Some(fault) => Err(first_fault(alloc, &functions, items, fault)?),
    }
}

/// A program without functions fits where its names are arrays or scalars, with the variables of the
/// language among the scalars, no variable that the run sets is assigned, the calls of built-in
/// functions fit them, and each word that leaves is where it may be.
pub fn plain_programs_fit()
    ensures { PlainProgramsFit }
{}
