//! Why the tables of shards are not merged.

use std::io;
use std::io::Write;

/// What a table says otherwise than the first one.
#[derive(Clone, Copy)]
pub enum Difference {
    Program,
    Assignments,
    Budget,
}

/// What the records of a shard do that has to be done in order.
#[derive(Clone, Copy)]
pub enum OrderCause {
    /// A sum is out of range.
    Sum,
    /// A record ends in the fault of this name.
    Fault(&'static str),
    /// A reference creates an element.
    Element,
}

/// Why the tables of shards are not merged.
#[derive(Clone, Copy)]
pub enum TableFailure<'a> {
    /// The file of this name does not begin as a table does.
    NoTable(&'a str),
    /// The table of this name is not as it was written.
    Damaged(&'a str),
    /// The table of this name says something otherwise than the first one.
    Differs(&'a str, Difference),
    /// The table of the shard of this number is missing.
    Missing(u64),
    /// There are two tables of the shard of this number.
    Twice(u64),
    /// The table of the shard of this number is not where it should be.
    OutOfOrder(u64),
    /// The table of this name says that other records come before it than there are.
    Before {
        name: &'a str,
        before: u64,
        come: u64,
    },
    /// The records of all shards have to be run in order, for what those of this table do.
    InOrder {
        name: &'a str,
        /// The number of the shard: what the table says, or its place among the tables.
        shard: u64,
        /// After how many records of it, or up to which one.
        record: u64,
        cause: OrderCause,
    },
}

impl OrderCause {
    /// The words that say so, before the name of a fault.
    fn words(self) -> &'static str {
        match self {
            OrderCause::Sum => "sum out of range",
            OrderCause::Fault(_) => "fault ",
            OrderCause::Element => "makes an element",
        }
    }

    /// The name of a fault, where the cause is one.
    fn fault_name(self) -> &'static str {
        match self {
            OrderCause::Fault(name) => name,
            OrderCause::Sum | OrderCause::Element => "",
        }
    }
}

impl<'a> TableFailure<'a> {
    /// Writes the line that says why.
    pub fn report<E: Write>(self, errors: &mut E) -> io::Result<()> {
        match self {
            TableFailure::NoTable(name) => writeln!(errors, "pawk: {name}: no table"),
            TableFailure::Damaged(name) => writeln!(errors, "pawk: {name}: damaged"),
            TableFailure::Differs(name, difference) => {
                let what = match difference {
                    Difference::Program => "another program",
                    Difference::Assignments => "other assignments",
                    Difference::Budget => "another budget",
                };
                writeln!(errors, "pawk: {name}: {what}")
            }
            TableFailure::Missing(shard) => writeln!(errors, "pawk: shard {shard} is missing"),
            TableFailure::Twice(shard) => writeln!(errors, "pawk: shard {shard} stands twice"),
            TableFailure::OutOfOrder(shard) => {
                writeln!(errors, "pawk: shard {shard} out of order")
            }
            TableFailure::Before { name, before, come } => writeln!(
                errors,
                "pawk: {name}: records before it: {before}, there are {come}"
            ),
            TableFailure::InOrder {
                name,
                shard,
                record,
                cause,
            } => {
                let (words, fault) = (cause.words(), cause.fault_name());
                writeln!(
                    errors,
                    "pawk: run in order: {name}: shard {shard}, record {record} of it: {words}{fault}"
                )
            }
        }
    }
}
