//! Which variables are arrays.

ghost use Rattle.std.specs.Prelude.{◌≡◌, ◌<◌, length, IfOk, OnOk, not, ℕ, Bool, true};
ghost use Rattle.std.specs.List.{list_all};
ghost use Rattle.pawk_syntax_check.specs.Marks as spec;

use crate::demand::Demand;
use crate::links::Links;
use std::alloc::{AllocError, Global};

/// Marks a number; answers whether it was not marked.
fn mark(marks: &mut [bool], number: usize) -> bool
    requires { number < length marks.old }
    ensures marks { marks.new ≡ spec.mark marks.old number }
    ensures change { result ≡ not (spec.is_marked marks.old number) }
{
    if marks[number] {
        false
    } else {
        marks[number] = true;
        true
    }
}

/// Marks what a demand shows to be an array; answers whether it was not marked.
fn step(marks: &mut [bool], demand: Demand<'_>) -> bool
    requires { spec.IsBelow (length marks.old) demand }
    ensures marks { marks.new ≡ spec.step demand.entry marks.old }
    ensures change { result ≡ not (spec.is_settled marks.old demand.entry) }
{
    match demand {
        Demand::Array(v) => mark(marks, v.number),
        Demand::Scalar(_) => false,
        Demand::Alike(v, w) => {
            if marks[v.number] {
                mark(marks, w.number)
            } else if marks[w.number] {
                mark(marks, v.number)
            } else {
                false
            }
        }
    }
}

/// Marks what the demands show to be arrays, in turn; answers whether one of it was not marked.
fn steps(marks: &mut [bool], demands: &[Demand<'_>]) -> bool
    requires { spec.AreBelow (length marks.old) demands.now }
    ensures marks { marks.new ≡ spec.steps demands.now marks.old }
    ensures change { result ≡ spec.changes demands.now marks.old }
{
    let mut changes = false;
    for demand in demands {
        if step(marks, *demand) {
            changes = true;
        }
    }
    changes
}

/// Marks what the demands show to be arrays, until they show no more.
fn spread(marks: &mut [bool], demands: &[Demand<'_>])
    requires { spec.AreBelow (length marks.old) demands.now }
    ensures settled { list_all (spec.is_settled marks.new) demands.now ≡ true }
    ensures forced { (k : ℕ → Bool) → list_all (spec.meets_numbers k) demands.now ≡ true →
        spec.IsForced k marks.old → spec.IsForced k marks.new }
{
    while steps(marks, demands) {}
}

/// The number that a demand would mark.
fn target(marks: &[bool], demand: Demand<'_>) -> usize {
    match demand {
        Demand::Array(v) | Demand::Scalar(v) => v.number,
        Demand::Alike(v, w) => {
            if marks.get(v.number).copied().unwrap_or(false) {
                w.number
            } else {
                v.number
            }
        }
    }
}

/// Marks what the demand at this place shows, and adds the places of those that may show more then.
fn advance(
    marks: &mut [bool],
    demands: &[Demand<'_>],
    links: &Links,
    place: usize,
    places: &mut Vec<usize>,
) -> Result<(), AllocError>
    requires { spec.AreBelow (length marks.old) demands.now }
    ensures { (k : ℕ → Bool) → list_all (spec.meets_numbers k) demands.now ≡ true →
        spec.IsForced k marks.old → spec.IsForced k marks.new }
{
    if place < demands.len() {
        let number = target(marks, demands[place]);
        if step(marks, demands[place]) {
            links.follow(number, places)?;
        }
    }
    Ok(())
}

/// Marks what the demands show to be arrays, each time following what was marked.
fn follow(alloc: Global, marks: &mut [bool], demands: &[Demand<'_>]) -> Result<(), AllocError>
    requires { spec.AreBelow (length marks.old) demands.now }
    ensures { (k : ℕ → Bool) → list_all (spec.meets_numbers k) demands.now ≡ true →
        spec.IsForced k marks.old → spec.IsForced k marks.new }
{
    let links = Links::new(alloc, demands, marks.len())?;
    let mut places = Vec::new(alloc);
    for place in 0..demands.len() {
        places.push(place)?;
    }
    for _turn in 0..demands.len().saturating_mul(3) {
        match places.pop() {
            None => break,
            Some(place) => advance(marks, demands, &links, place, &mut places)?,
        }
    }
    Ok(())
}

/// Marks what the demands show to be arrays, and makes sure that they show no more.
fn settle(alloc: Global, marks: &mut [bool], demands: &[Demand<'_>]) -> Result<(), AllocError>
    requires { spec.AreBelow (length marks.old) demands.now }
    ensures settled { OnOk result (list_all (spec.is_settled marks.new) demands.now ≡ true) }
    ensures forced { (k : ℕ → Bool) → list_all (spec.meets_numbers k) demands.now ≡ true →
        spec.IsForced k marks.old → spec.IsForced k marks.new }
{
    follow(alloc, marks, demands)?;
    spread(marks, demands);
    Ok(())
}

/// Which of the numbers the demands show to be arrays: what is marked is an array in all kinds
/// that meet the demands, and no demand shows more.
pub fn marks(alloc: Global, demands: &[Demand<'_>], count: usize) -> Result<Vec<bool>, AllocError>
    requires { spec.AreBelow count demands.now }
    ensures settled { IfOk result (λ m. list_all (spec.is_settled m.items) demands.now ≡ true) }
    ensures forced { IfOk result (λ m. (k : ℕ → Bool) →
        list_all (spec.meets_numbers k) demands.now ≡ true → spec.IsForced k m.items) }
    ensures length { IfOk result (λ m. length m.items ≡ count) }
{
    let mut marks = vec![in alloc; false; count]?;
    settle(alloc, &mut marks, demands)?;
    Ok(marks)
}
