//! Which way a run goes: how its input is to be cut and the plan of its chunks, how BEGIN ends and the run goes on one
//! record after the other, and the route that is reported.
#![tactic(auto)]

mod cutting;
mod law;
mod prologue;
mod report;

pub use cutting::{Cutting, Way, plan_of};
pub use law::at_least_law;
pub use pawk_workers::{CrewRefusal, Gate, Open};
pub use prologue::{Prologue, begin, go_on, has_records};
pub use report::{Refusal, Report, Route};
