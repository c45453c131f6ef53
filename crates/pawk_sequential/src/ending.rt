//! How a run ends.

use pawk_value::Fault;

/// Where a run faults.
#[derive(Clone, Copy)]
pub enum Place {
    Begin,
    /// At the record of this number, counted from 1.
    Record(u64),
    End,
}

/// How a run ends.
#[derive(Clone, Copy)]
pub enum Ending {
    /// With this exit status.
    Status(u8),
    Fault(Fault, Place),
    /// The world did not allow what was asked.
    Disallowed,
}
