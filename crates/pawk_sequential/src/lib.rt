//! A run of one thread: one record, records one after the other, the actions of BEGIN and END, and
//! whole runs.
//!
//! `inline(always)` marks what every record or rule passes through, `inline(never)` the loop that passes records over, so
//! that the loop of other programs stays small (counted by bench/).
#![tactic(auto)]

mod ending;
mod finish;
mod job;
mod left;
mod limits;
mod outcome;
mod output;
mod part;
mod records;
mod rules;
mod whole;

pub use ending::{Ending, Place};
pub use finish::Finish;
pub use job::Job;
pub use outcome::{Outcome, opening_run, run_one};
pub use output::Output;
pub use part::{actions, record};
pub use pawk_runtime::Run;
pub use pawk_store::Left;
pub use records::run_records;
pub use whole::{make_ready, run_after_begin, run_after_records, run_begin, run_program};
