//! The lines of a table file.

use pawk_value::ValueRef;

/// A line. Its texts are lent.
#[derive(Clone, Copy)]
pub enum Line<'a> {
    /// The number of the format: `pawk table 1`.
    Format(u64),
    /// The text of the program.
    Program(&'a [u8]),
    /// The steps that each part of the run may take.
    Budget(u64),
    /// An assignment before BEGIN.
    Assign {
        /// The name of the variable.
        name: &'a [u8],
        /// The text that is assigned.
        value: &'a [u8],
    },
    /// Which shards of how many the table is of: these two and all between them.
    Shard {
        /// The number of the first shard.
        first: u64,
        /// The number of the last shard.
        last: u64,
        /// How many shards there are.
        of: u64,
    },
    /// How many records the shards before this one have.
    Before(u64),
    /// The parts that follow are of the file of this name.
    File(&'a [u8]),
    /// A part of so many records begins.
    Part(u64),
    /// What the part wrote.
    Output(&'a [u8]),
    /// What the part noted of a scalar.
    Scalar {
        /// The slot of the scalar.
        slot: u64,
        /// What was noted of it.
        mark: Mark<'a>,
    },
    /// The keys that follow are of the array of this slot.
    Array(u64),
    /// What the part noted of an element.
    Element {
        /// The key of the element.
        key: &'a [u8],
        /// What was noted of it.
        mark: Mark<'a>,
    },
    /// The last record of the shard.
    Last {
        /// How many records of its file came before it.
        fnr: u64,
        /// Its bytes.
        bytes: &'a [u8],
    },
    /// How many records the shard has.
    Records(u64),
    /// The digest of all bytes before this line.
    End(&'a [u8]),
}

/// What a part noted of a scalar or of an element.
#[derive(Clone, Copy)]
pub enum Mark<'a> {
    /// Amounts were added: one, or more so that each sum of the first ones is the same. This is the sum of all, of a size
    /// of at most 18446744073709551616.
    Added(i128),
    /// Amounts were added. Each number has a size of at most 18446744073709551616.
    Sum {
        /// The sum of all amounts.
        total: i128,
        /// The least sum of the first amounts.
        least: i128,
        /// The greatest sum of the first amounts.
        greatest: i128,
    },
    /// The value that was put there last.
    Put(ValueRef<'a>),
    /// The element was created, and no value was put there.
    Created,
}
