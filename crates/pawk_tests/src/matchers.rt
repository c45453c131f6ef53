//! Expressions between slashes that cannot be read, which no program that is accepted has.

use pawk_builtins::{EreReference, Matchers};
use pawk_code::expression::Pattern;
use pawk_code::word::ReplacedMatches;
use pawk_value::{Fault, Stop};
use std::alloc::{AllocError, Global};
use std::test::Fail;

/// The expressions of a program: number 0 cannot be read, number 1 can.
fn expressions(alloc: Global) -> Result<Vec<Vec<u8>>, AllocError> {
    let unreadable = Vec::from_slice(alloc, b"(")?;
    let readable = Vec::from_slice(alloc, b"a")?;
    Ok(vec![in alloc; unreadable, readable]?)
}

/// Whether a call gave the fault of an expression that cannot be read.
fn is_fault(stop: Stop) -> bool {
    match stop {
        Stop::Fault(fault) => fault == Fault::Ere,
        Stop::Memory => false,
    }
}

/// Where the expression of this number matches first in a text.
fn find(
    matchers: &mut Matchers,
    eres: &[Vec<u8>],
    number: usize,
    text: &[u8],
) -> Result<Option<(usize, usize)>, Stop> {
    let pattern = Pattern::Fixed(number);
    let expression = EreReference {
        eres,
        pattern: &pattern,
        text: b"",
    };
    matchers.find(expression, text)
}

/// Whether a search by the first expression is the fault.
fn search_fails(matchers: &mut Matchers, eres: &[Vec<u8>]) -> bool {
    match find(matchers, eres, 0, b"x") {
        Ok(_) => false,
        Err(stop) => is_fault(stop),
    }
}

/// Whether the replacement of matches of the expression of this number is the fault.
fn replacement_fails(
    alloc: Global,
    matchers: &mut Matchers,
    eres: &[Vec<u8>],
    count: ReplacedMatches,
    number: usize,
) -> bool {
    let pattern = Pattern::Fixed(number);
    let expression = EreReference {
        eres,
        pattern: &pattern,
        text: b"",
    };
    let mut new = Vec::new(alloc);
    match matchers.replace(count, expression, b"-", b"abc", &mut new) {
        Ok(_) => false,
        Err(stop) => is_fault(stop),
    }
}

/// Whether the split of a text by the first expression is the fault.
fn split_fails(matchers: &mut Matchers, eres: &[Vec<u8>], text: &[u8]) -> bool {
    match matchers.split_between(eres, 0, text) {
        Ok(_) => false,
        Err(stop) => is_fault(stop),
    }
}

/// Whether a search by the first expression is the fault, and one by the second then finds where it matches.
fn finds_after_a_fault(alloc: Global) -> Result<bool, AllocError> {
    let eres = expressions(alloc)?;
    let eres = eres.as_slice();
    let mut matchers = Matchers::new(alloc, eres.len())?;
    let fails = search_fails(&mut matchers, eres);
    let found = find(&mut matchers, eres, 1, b"a").unwrap_or(None);
    Ok(fails && found == Some((0, 1)))
}

/// Whether replacements by the first expression, and by the number 9, which is that of no expression, are the fault.
fn replacements_fail(alloc: Global, matchers: &mut Matchers, eres: &[Vec<u8>]) -> bool {
    replacement_fails(alloc, matchers, eres, ReplacedMatches::First, 0)
        && replacement_fails(alloc, matchers, eres, ReplacedMatches::All, 0)
        && replacement_fails(alloc, matchers, eres, ReplacedMatches::All, 9)
}

/// Whether replacements are the fault, and then splits by the first expression.
fn all_fail(alloc: Global) -> Result<bool, AllocError> {
    let eres = expressions(alloc)?;
    let eres = eres.as_slice();
    let mut matchers = Matchers::new(alloc, eres.len())?;
    Ok(
        replacements_fail(alloc, &mut matchers, eres)
            && split_fails(&mut matchers, eres, b"abc")
            && split_fails(&mut matchers, eres, b""),
    )
}

// After the fault of one expression another is found.
#[test]
fn another_expression_is_found_after_a_fault(rt: HostRuntime) -> Result<(), Fail> {
    assert!(rt; finds_after_a_fault(rt.alloc())?);
    Ok(())
}

#[test]
fn unreadable_expressions_are_faults(rt: HostRuntime) -> Result<(), Fail> {
    assert!(rt; all_fail(rt.alloc())?);
    Ok(())
}
