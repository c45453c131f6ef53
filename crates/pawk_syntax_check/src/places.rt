//! The places of names that have no single kind. Nothing is proved of these places: rows show them.

ghost use Rattle.std.specs.Prelude.{length};
ghost use Rattle.pawk_syntax_check.specs.Marks.{AreBelow};

use crate::demand::Demand;
use crate::demands::{Demands, name_in};
use crate::item::mentions;
use crate::kinds::meets;
use crate::links::Links;
use crate::mention::Mention;
use crate::variables::{ScopedName, Variables};
use pawk_syntax_tree::item::ProgramItem;
use std::alloc::{AllocError, Global};

/// Notes that a variable of this number is at this byte.
fn note(places: &mut [usize], number: usize, start: usize) {
    if number < places.len() && start < places[number] {
        places[number] = start;
    }
}

/// Notes that a name is at this byte, if it has a number.
fn note_name<'t>(
    places: &mut [usize],
    variables: &Variables<'t>,
    key: ScopedName<'t>,
    start: usize,
) {
    if let Some(number) = variables.number(key) {
        note(places, number, start);
    }
}

/// Notes the parameters of the item of this number.
fn note_parameters<'t>(
    places: &mut [usize],
    variables: &Variables<'t>,
    scope: usize,
    item: &'t ProgramItem,
) {
    if let ProgramItem::Function(_, parameters, _) = item {
        for parameter in parameters {
            let key = ScopedName {
                scope,
                name: parameter.text.as_slice(),
            };
            note_name(places, variables, key, parameter.start);
        }
    }
}

/// Notes the names that the item of this number mentions.
fn note_mentions<'t>(
    alloc: Global,
    places: &mut [usize],
    variables: &Variables<'t>,
    number: usize,
    item: &'t ProgramItem,
) -> Result<(), AllocError> {
    let mentions = mentions(alloc, item)?;
    for mention in mentions.as_slice() {
        match *mention {
            Mention::Array(name)
            | Mention::Scalar(name)
            | Mention::Target(name)
            | Mention::Argument(name, _, _) => {
                let key = name_in(number, item, name);
                note_name(places, variables, key, name.start);
            }
            _ => {}
        }
    }
    Ok(())
}

/// Where each variable first occurs.
fn first_places<'t>(
    alloc: Global,
    variables: &Variables<'t>,
    items: &'t [ProgramItem],
) -> Result<Vec<usize>, AllocError> {
    let mut places = vec![in alloc; usize::MAX; variables.keys.len()]?;
    for (index, item) in items.iter().enumerate() {
        note_parameters(&mut places, variables, index + 1, item);
        note_mentions(alloc, &mut places, variables, index + 1, item)?;
    }
    Ok(places)
}

/// Adds a number to the group.
fn reach(group: &mut [bool], todo: &mut Vec<usize>, number: usize) -> Result<(), AllocError> {
    if number < group.len() && !group[number] {
        group[number] = true;
        todo.push(number)?;
    }
    Ok(())
}

/// Adds the numbers of a demand to the group.
fn reach_both(
    group: &mut [bool],
    todo: &mut Vec<usize>,
    demand: Demand<'_>,
) -> Result<(), AllocError> {
    match demand {
        Demand::Array(v) | Demand::Scalar(v) => reach(group, todo, v.number),
        Demand::Alike(v, w) => {
            reach(group, todo, v.number)?;
            reach(group, todo, w.number)
        }
    }
}

/// Adds the numbers of the demands that the marks do not meet.
fn reach_unmet(
    group: &mut [bool],
    todo: &mut Vec<usize>,
    marks: &[bool],
    demands: &[Demand<'_>],
) -> Result<(), AllocError>
    requires { AreBelow (length marks.now) demands.now }
{
    for demand in demands {
        if !meets(marks, *demand) {
            reach_both(group, todo, *demand)?;
        }
    }
    Ok(())
}

/// Adds the numbers that have to be of one kind with this one.
fn reach_alike(
    group: &mut [bool],
    todo: &mut Vec<usize>,
    demands: &[Demand<'_>],
    linked_places: &[usize],
) -> Result<(), AllocError> {
    for place in linked_places {
        if let Some(demand) = demands.get(*place).copied() {
            reach_both(group, todo, demand)?;
        }
    }
    Ok(())
}

/// Which numbers have to be of one kind with a number of a demand that the marks do not meet.
fn clash_group(
    alloc: Global,
    marks: &[bool],
    demands: &[Demand<'_>],
) -> Result<Vec<bool>, AllocError>
    requires { AreBelow (length marks.now) demands.now }
{
    let links = Links::new(alloc, demands, marks.len())?;
    let mut group = vec![in alloc; false; marks.len()]?;
    let mut todo = Vec::new(alloc);
    reach_unmet(&mut group, &mut todo, marks, demands)?;
    for _turn in 0..marks.len() {
        let Some(number) = todo.pop() else {
            break;
        };
        let mut linked_places = Vec::new(alloc);
        links.follow(number, &mut linked_places)?;
        reach_alike(&mut group, &mut todo, demands, linked_places.as_slice())?;
    }
    Ok(group)
}

/// The byte, counted from 0, where a name first occurs of those that have to be of one kind and are
/// not.
pub fn first_clash<'t>(
    alloc: Global,
    demands: &Demands<'t>,
    marks: &[bool],
    items: &'t [ProgramItem],
) -> Result<usize, AllocError>
    requires { AreBelow (length marks.now) demands.now.list.items }
{
    let places = first_places(alloc, &demands.variables, items)?;
    let group = clash_group(alloc, marks, demands.list.as_slice())?;
    let mut first = usize::MAX;
    for (start, is_member) in places.iter().zip(group.iter()) {
        if *is_member {
            first = first.min(*start);
        }
    }
    Ok(first)
}
