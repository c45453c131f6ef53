//! Whole runs from a source to a sink, of every program, the records in threads where it allows it.
#![tactic(auto)]

mod preparing;
mod reading;
mod refusal;
mod request;
mod streaming;
mod writing;

pub use pawk_device::{Failed, Reader, Sink, Source, Writer};
pub use pawk_settings::SettingsRefusal;
pub use pawk_store::Seed;
pub use pawk_syntax::SyntaxRefusal;
pub use pawk_threads::{
    ChunkResult, Chunked, Cutting, Ending, Gate, Job, Left, Open, Opening, Outcome, Place, Refusal,
    Report, Route, STACK_BYTES, Task, Way, merge_results, run, run_chunk, work,
};
pub use preparing::prepare;
pub use refusal::StreamRefusal;
pub use request::Request;
pub use streaming::run_streams;
pub use writing::write_output;
