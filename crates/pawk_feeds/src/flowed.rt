//! What a run leaves whose input flowed.

use pawk_par::Route;
use pawk_sequential::Ending;
use pawk_store::{Globals, Specials};

/// The records that a run ran last: those of one piece of a file.
#[derive(Drop)]
pub struct LastPiece {
    /// The bytes of the record separator that they were read by, at most one.
    pub rs: Vec<u8>,
    /// How many records of their file came before them.
    pub fnr: u64,
    /// Their bytes.
    pub bytes: Vec<u8>,
}

/// What a run leaves beside its output.
#[derive(Drop)]
pub struct Flowed {
    /// The globals but for the variables that the run sets.
    pub globals: Globals,
    /// What the variables that the run sets had at its end.
    pub specials: Specials,
    /// How it ended.
    pub ending: Ending,
    /// Which way it went.
    pub route: Route,
    /// The records that were run last; none where the run ended before it read.
    pub last: Option<LastPiece>,
}
