//! The first of several tables, which the others are compared with.

use crate::reports::RunFailure;
use crate::table_failure::{Difference, TableFailure};
use pawk_code::program::Code;
use pawk_par::{Cutting, Request, Seed, StreamRefusal, prepare};
use pawk_settings::Assignment;
use pawk_tables::ReadHeader;
use std::alloc::Global;

/// The program of the table of this name, which has this header.
pub fn code_of<'a>(
    alloc: Global,
    name: &'a str,
    header: &ReadHeader<'_>,
    seed: Seed,
) -> Result<Code, RunFailure<'a>> {
    let cutting = Cutting::AtLeast(1);
    let request = Request {
        text: header.program,
        assigns: &[],
        budget: header.budget,
        cutting: &cutting,
        workers: 1,
        seed,
    };
    match prepare(alloc, &request) {
        Ok((code, _)) => Ok(code),
        Err(StreamRefusal::Memory) => Err(RunFailure::from(StreamRefusal::Memory)),
        Err(_) => Err(RunFailure::Table(TableFailure::Damaged(name))),
    }
}

/// Whether these are the same assignments.
fn are_same(some: &[Assignment], others: &[Assignment]) -> bool {
    some.len() == others.len()
        && some.iter().zip(others.iter()).all(|(one, other)| {
            one.name.as_slice() == other.name.as_slice()
                && one.value.as_slice() == other.value.as_slice()
        })
}

/// What the second of two tables says otherwise than the first, if anything.
fn difference(first: &ReadHeader<'_>, header: &ReadHeader<'_>) -> Option<Difference> {
    if first.program != header.program {
        return Some(Difference::Program);
    }
    if !are_same(&first.assignments, &header.assignments)
        || !are_same(&first.first, &header.first)
    {
        return Some(Difference::Assignments);
    }
    if first.budget != header.budget {
        return Some(Difference::Budget);
    }
    None
}

/// Refuses the table of this name where its header says something else than that of the first one.
pub fn compare<'c>(
    first: &ReadHeader<'_>,
    name: &'c str,
    header: &ReadHeader<'_>,
) -> Result<(), RunFailure<'c>> {
    match difference(first, header) {
        Some(difference) => Err(RunFailure::Table(TableFailure::Differs(name, difference))),
        None => Ok(()),
    }
}

/// The first table.
#[derive(Clone, Copy)]
pub struct FirstTable<'a, 'b> {
    pub name: &'a str,
    pub header: &'b ReadHeader<'b>,
    pub sections: &'b [u8],
}
