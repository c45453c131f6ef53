//! Programs whose rules and functions do not read `NR`: their records may be numbered later.
#![tactic(auto)]

mod expression;
pub mod law;
mod program;
mod statement;

pub use program::reads_number;
