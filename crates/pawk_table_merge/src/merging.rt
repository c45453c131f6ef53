//! A run over tables.

use pawk_admit::Roles;
use pawk_flow::Flow;
use pawk_sequential::Ending;
use pawk_store::{Globals, Left, Specials};
use pawk_tables::Shape;
use pawk_value::Fault;

/// A run over tables after BEGIN: all records that have come were left through, and all that was written is elsewhere.
#[derive(Drop)]
pub struct Merging {
    /// The run after the records that have come.
    pub flow: Flow,
    /// The bytes of `RS`, at most one.
    pub rs: Vec<u8>,
    /// What the records do with each global.
    pub roles: Roles,
    /// Of which globals the tables are.
    pub shape: Shape,
    /// What `NR` was after BEGIN.
    pub opened: u64,
    /// Whether it is known that records may be run in chunks from here; a part that is joined, and
    /// records that are run, mostly leave it so.
    pub is_ready: bool,
}

/// A run over tables after BEGIN.
#[derive(Drop)]
pub enum MergeStart {
    /// It has ended: no record is read.
    Ended(Conclusion),
    /// Tables are to come.
    Goes(Merging),
}

/// What a run over tables leaves beside its output.
#[derive(Drop)]
pub struct Conclusion {
    /// The globals but for the variables that the run sets.
    pub globals: Globals,
    /// What the variables that the run sets had at its end.
    pub specials: Specials,
    /// How it ended.
    pub ending: Ending,
}

/// How the records of a table were left.
#[derive(Clone, Copy)]
pub enum TableEnd {
    /// All were left through.
    Through,
    /// One of them ended the run so, by `exit`: no table after it is looked at.
    Ended(Left),
    /// They are not merged further.
    Stopped(Stop),
}

/// Why tables are not merged further: all records in order end in a fault, or create an element of an array that is no
/// reader array.
#[derive(Clone, Copy)]
pub struct Stop {
    /// What happened.
    pub cause: StopCause,
    /// After how many records of the table; of a fault, or of an element that is created, up to which record.
    pub record: u64,
}

/// What stops a merge.
#[derive(Clone, Copy)]
pub enum StopCause {
    /// A sum, or a sum on the way, is no number of the language, or what is added to has no number.
    Sum,
    /// A record ends in this fault.
    Fault(Fault),
    /// A reference creates an element of an array that is no reader array.
    Element,
}
