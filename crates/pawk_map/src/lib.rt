//! Runs over a shard of an input: what its parts, each run over the globals that BEGIN left, write and note is written as a
//! table file, with the shard's last record as bytes.
#![tactic(auto)]

mod apart;
mod cut;
mod draft;
mod map;
mod mapped;
mod order;
mod parts;
mod refusal;
mod run;
mod stream;
mod write;

pub use apart::{Apart, Setting, run_apart};
pub use draft::{Course, Draft, Held, Progress, keep_held, write_sections};
pub use map::map_feeds;
pub use mapped::Mapped;
pub use order::MapOrder;
pub use refusal::MapRefusal;
pub use write::{end_file, write_lines};
