//! The law that chunks of records and the merge of what they noted give the records in order, and whether records may
//! be run so; laws of a run in windows: consecutive pieces of the records after `BEGIN`, each run from where the one
//! before it ended, whose output is written before the next one is run.
#![tactic(auto)]

mod adders;
pub mod gathered_law;
pub mod merge_law;
mod numbers;
mod ready;
pub mod window_law;

pub use adders::stays_ready;
pub use pawk_commute::law::{admission_allows, trace_changes_nothing};
pub use ready::may_run;
