//! The settings of a run of an awk program: the variables that are assigned before it, and its budget.
#![tactic(auto)]

mod assignment;
pub mod law;
mod refusal;
mod settings;

pub use assignment::Assignment;
pub use refusal::SettingsRefusal;
pub use settings::{BUDGET_LIMIT, Settings};
