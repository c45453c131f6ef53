//! Chunks of the records, each run over the globals that `BEGIN` left, by workers in threads, for any
//! program.
#![tactic(auto)]

mod chunk;
mod gathering;
mod limits;
mod shifts;
mod task;
mod worker;

pub use chunk::{Opening, run_chunk};
pub use gathering::run_chunks;
pub use limits::STACK_BYTES;
pub use pawk_merge::ChunkResult;
pub use pawk_workers::{CrewRefusal, Gate, Open};
pub use shifts::{Shift, all_work};
pub use task::{Chunked, Task};
pub use worker::work;
