//! Whole runs in threads, of every program.
#![tactic(auto)]

mod chunked;
mod law;
mod merging;
mod running;

pub use pawk_chunks::{
    ChunkResult, Chunked, Gate, Open, Opening, STACK_BYTES, Task, run_chunk, work,
};
pub use pawk_merge::merge as merge_results;
pub use pawk_routes::{Cutting, Refusal, Report, Route, Way, at_least_law, plan_of};
pub use pawk_sequential::{Ending, Job, Left, Outcome, Output, Place};
pub use running::run;
