//! A run between two pieces of its input.

use pawk_store::{Globals, KeptState};
use std::alloc::Global;

/// A run between two pieces of its input: the globals, and what it keeps from record to record. All records so far were left
/// through, and all that they wrote is elsewhere.
#[derive(Drop)]
pub struct Flow {
    /// Where its memory comes from.
    pub alloc: Global,
    /// The globals.
    pub globals: Globals,
    /// The record state.
    pub state: KeptState,
}
