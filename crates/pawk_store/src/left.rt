//! How a part of a run is left.

use pawk_value::Fault;

/// How one record, records in order, or the actions of BEGIN or END, are left.
#[derive(Clone, Copy)]
pub enum Left {
    Through,
    /// `nextfile`.
    NextFile,
    /// `exit` with this status.
    Exit(u8),
    /// A fault of the language.
    Fault(Fault),
    /// The world does not allow what was asked.
    Clash,
}
