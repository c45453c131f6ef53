//! Expressions and statements of a program, run over any world.
//!
//! `inline(always)` marks what every record or byte passes through, `inline(never)` what is rare, so that the locals of
//! rare arms are not cleared in hot functions (counted by bench/).
#![tactic(auto)]

mod amount;
mod assignments;
mod conditions;
mod context;
mod expressions;
mod flow;
mod functions;
mod layer;
mod loops;
mod numbers;
mod operands;
mod places;
mod replacement;
mod statements;
mod strings;

pub use conditions::holds;
pub use context::Context;
pub use flow::Flow;
pub use layer::Layer;
pub use statements::{execute, run_body};
