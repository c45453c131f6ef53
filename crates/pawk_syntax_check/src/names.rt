//! The places of names that functions and parameters may not have. Nothing is proved of these places:
//! rows show them.

use crate::fault::{CheckFault, first_of};
use crate::functions::Functions;
use crate::heads::{is_among, is_item};
use crate::item::mentions;
use crate::mention::Mention;
use pawk_lex::refusal::Cause;
use pawk_lex::vocabulary::is_variable;
use pawk_syntax_tree::item::ProgramItem;
use pawk_syntax_tree::tree::Name;
use std::alloc::{AllocError, Global};
use std::collections::BTreeSet;

/// The name that a mention uses as a variable.
fn variable<'t>(mention: Mention<'t>) -> Option<&'t Name> {
    match mention {
        Mention::Array(name)
        | Mention::Scalar(name)
        | Mention::Target(name)
        | Mention::Argument(name, _, _) => Some(name),
        _ => None,
    }
}

/// The name that a mention has, of a variable or of a function.
fn name<'t>(mention: Mention<'t>) -> Option<&'t Name> {
    match mention {
        Mention::Call(name, _) => Some(name),
        _ => variable(mention),
    }
}

/// A fault in the use of a name at this place.
fn fault_at(start: usize) -> Option<CheckFault> {
    Some(CheckFault {
        cause: Cause::Uses,
        start,
    })
}

/// Adds a name, if it is a function's.
fn add_function<'t>(
    names: &mut BTreeSet<&'t [u8]>,
    functions: &Functions<'t>,
    name: &'t Name,
) -> Result<(), AllocError> {
    if functions.get(name.text.as_slice()).is_some() {
        names.insert(name.text.as_slice())?;
    }
    Ok(())
}

/// Adds the names in the head of the item of this number that clash.
fn add_head<'t>(
    names: &mut BTreeSet<&'t [u8]>,
    functions: &Functions<'t>,
    number: usize,
    item: &'t ProgramItem,
) -> Result<(), AllocError> {
    if let ProgramItem::Function(name, parameters, _) = item {
        if !is_item(functions, number, name) || is_variable(name.text.as_slice()) {
            names.insert(name.text.as_slice())?;
        }
        for parameter in parameters {
            add_function(names, functions, parameter)?;
        }
    }
    Ok(())
}

/// Adds the names of functions that an item uses as variables.
fn add_mentions<'t>(
    alloc: Global,
    names: &mut BTreeSet<&'t [u8]>,
    functions: &Functions<'t>,
    item: &'t ProgramItem,
) -> Result<(), AllocError> {
    let mentions = mentions(alloc, item)?;
    for mention in mentions.as_slice() {
        if let Some(name) = variable(*mention) {
            add_function(names, functions, name)?;
        }
    }
    Ok(())
}

/// The names of functions that are where they may not be.
fn clashes<'t>(
    alloc: Global,
    functions: &Functions<'t>,
    items: &'t [ProgramItem],
) -> Result<BTreeSet<&'t [u8]>, AllocError> {
    let mut names = BTreeSet::new(alloc);
    for (index, item) in items.iter().enumerate() {
        add_head(&mut names, functions, index + 1, item)?;
        add_mentions(alloc, &mut names, functions, item)?;
    }
    Ok(names)
}

/// A fault at a name, if it is among these.
fn fault_of_name<'t>(names: &BTreeSet<&'t [u8]>, name: &'t Name) -> Option<CheckFault> {
    if names.contains(name.text.as_slice()) {
        fault_at(name.start)
    } else {
        None
    }
}

/// The first fault of parameters: one that occurs twice, is a variable of the language, or has one
/// of these names.
fn fault_of_parameters<'t>(
    names: &BTreeSet<&'t [u8]>,
    parameters: &'t [Name],
) -> Option<CheckFault> {
    let mut first = None;
    for (index, parameter) in parameters.iter().enumerate() {
        if is_variable(parameter.text.as_slice()) || is_among(&parameters[index + 1..], parameter) {
            first = first_of(first, fault_at(parameter.start));
        }
        first = first_of(first, fault_of_name(names, parameter));
    }
    first
}

/// The first fault of the head of an item.
fn fault_of_head<'t>(names: &BTreeSet<&'t [u8]>, item: &'t ProgramItem) -> Option<CheckFault> {
    match item {
        ProgramItem::Function(name, parameters, _) => first_of(
            fault_of_name(names, name),
            fault_of_parameters(names, parameters),
        ),
        _ => None,
    }
}

/// The first of these names that an item mentions.
fn fault_of_mentions<'t>(
    alloc: Global,
    names: &BTreeSet<&'t [u8]>,
    item: &'t ProgramItem,
) -> Result<Option<CheckFault>, AllocError> {
    let mentions = mentions(alloc, item)?;
    let mut first = None;
    for mention in mentions.as_slice() {
        if let Some(name) = name(*mention) {
            first = first_of(first, fault_of_name(names, name));
        }
    }
    Ok(first)
}

/// The first fault in the names of functions and parameters.
pub fn fault_of_names<'t>(
    alloc: Global,
    functions: &Functions<'t>,
    items: &'t [ProgramItem],
) -> Result<Option<CheckFault>, AllocError> {
    let names = clashes(alloc, functions, items)?;
    let mut first = None;
    for item in items {
        first = first_of(first, fault_of_head(&names, item));
        first = first_of(first, fault_of_mentions(alloc, &names, item)?);
    }
    Ok(first)
}
