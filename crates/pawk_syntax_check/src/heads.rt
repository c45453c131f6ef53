//! The heads of functions.

ghost use Rattle.std.specs.Prelude.{◌≡◌};
ghost use Rattle.std.specs.Option.{is_none};
ghost use Rattle.std.specs.List.{list_any};
ghost use Rattle.std.specs.Str.{bytes_eq};
ghost use Rattle.pawk_syntax_tree.specs.Item.{part, texts};
ghost use Rattle.pawk_syntax_check.specs.FunctionViews.{function_under};
ghost use Rattle.pawk_syntax_check.specs.Names as spec;

use crate::fault::CheckFault;
use crate::functions::Functions;
use crate::rules::unless;
use pawk_lex::refusal::Cause;
use pawk_lex::vocabulary::is_variable;
use pawk_syntax_tree::item::ProgramItem;
use pawk_syntax_tree::tree::Name;

/// Whether the function that is found under this name is the one of this item.
pub fn is_item(functions: &Functions<'_>, number: usize, name: &Name) -> bool
    ensures { result ≡ spec.is_item number (function_under functions.now name.now.text.items) }
{
    match functions.get(name.text.as_slice()) {
        None => false,
        Some(function) => function.scope == number,
    }
}

/// Whether a name is among these.
pub fn is_among(names: &[Name], name: &Name) -> bool
    ensures { result ≡ list_any (λ p. bytes_eq name.now.text.items p.text.items) names.now }
{
    names
        .iter()
        .any(|p| name.text.as_slice() == p.text.as_slice())
}

/// Whether a parameter, before these others, has a name of its own.
#[tactic(auto, using(crate::proofs::Parameters::among_names))]
fn fits_parameter(functions: &Functions<'_>, others: &[Name], name: &Name) -> bool
    ensures { result ≡
        spec.fits_parameter (function_under functions.now) (texts others.now) name.now.text.items }
{
    !is_among(others, name)
        && !is_variable(name.text.as_slice())
        && functions.get(name.text.as_slice()).is_none()
}

/// Whether parameters have names of their own.
fn fit_parameters(functions: &Functions<'_>, parameters: &[Name]) -> bool
    ensures { result ≡ spec.fit_parameters (function_under functions.now) (texts parameters.now) }
{
    for (index, name) in parameters.iter().enumerate() {
        if !fits_parameter(functions, &parameters[index + 1..], name) {
            return false;
        }
    }
    true
}

/// Whether the head of the item of this number, if it is a function, has names of its own.
fn head_fits(functions: &Functions<'_>, number: usize, item: &ProgramItem) -> bool
    ensures { result ≡ spec.head_fits (function_under functions.now) number (part item.now) }
{
    match item {
        ProgramItem::Function(name, parameters, _) => {
            is_item(functions, number, name)
                && !is_variable(name.text.as_slice())
                && fit_parameters(functions, parameters)
        }
        ProgramItem::Begin(_)
        | ProgramItem::End(_)
        | ProgramItem::Always(_)
        | ProgramItem::When(_, _)
        | ProgramItem::Range(_, _, _) => true,
    }
}

/// The byte where the first name in the head of a function begins that does not fit, or 0.
fn start(functions: &Functions<'_>, number: usize, item: &ProgramItem) -> usize {
    let ProgramItem::Function(name, parameters, _) = item else {
        return 0;
    };
    if !is_item(functions, number, name) || is_variable(name.text.as_slice()) {
        return name.start;
    }
    for (index, parameter) in parameters.iter().enumerate() {
        if !fits_parameter(functions, &parameters[index + 1..], parameter) {
            return parameter.start;
        }
    }
    0
}

/// What is at fault with the head of the item of this number.
pub fn head_fault(
    functions: &Functions<'_>,
    number: usize,
    item: &ProgramItem,
) -> Option<CheckFault>
    ensures { is_none result ≡
        spec.head_fits (function_under functions.now) number (part item.now) }
{
    unless(
        head_fits(functions, number, item),
        Cause::Uses,
        start(functions, number, item),
    )
}
