//! What a run asks of the globals of a program, and why a run halts.
#![tactic(auto)]

mod halt;
mod sums;
mod world;

pub use halt::Halt;
pub use sums::{op_of, sum};
pub use world::World;
