//! A machine for extended regular expressions: sets of places, a table of those that were met, and walks over texts.
//!
//! `inline(always)` marks what every record or byte passes through, `inline(never)` what is rare or a case of a
//! recursion, so that frames stay small and the locals of rare arms are not cleared in hot functions (counted by
//! bench/).
#![tactic(auto)]

mod expansion;
mod hints;
mod marks;
mod members;
mod misses;
mod node;
mod notes;
mod scan;
mod table;

pub use crate::expansion::expand;
pub use crate::hints::{first_byte, is_anchored};
pub use crate::members::Members;
pub use crate::misses::Misses;
pub use crate::node::Node;
pub use crate::scan::{has_match, search};
pub use crate::table::{StateTable, begin};
