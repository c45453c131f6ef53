//! Explanations, for people, of what pawk refuses, of faults and of routes.
#![tactic(auto)]

mod calls;
mod case;
mod display;
mod expression;
mod fault;
mod grammar;
pub mod laws;
mod left_out;
mod lexical;
mod note;
mod position;
mod program;
mod route;
mod script;
mod setting;
mod uses;
mod words;

pub use fault::{RecordPlace, explain_fault};
pub use program::explain_program;
pub use route::{explain_no_main, explain_parallel, explain_reason, explain_redo};
pub use script::Script;
pub use setting::{Origin, explain_setting};
