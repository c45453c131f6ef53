//! Which programs may run in chunks, and why not.
#![tactic(auto)]

mod admission;
mod decision;
mod expression;
pub mod laws;
mod marks;
mod occurrence;
mod reach;
mod reason;
mod role;
mod statement;

pub use admission::admit;
pub use reason::Reason;
pub use role::{Role, Roles};
