//! Table files: what a run over a shard of the input leaves, for another run that merges the shards.
//!
//! A file is a header, sections, the number of records of the shard, and the digest of all that. What is written is read
//! again, and nothing else is read as it.
#![tactic(auto)]

mod digest;
mod front;
mod header;
pub mod laws;
mod section;

pub use digest::{checked, push_end};
pub use header::{Header, ReadHeader, Shard, push_header, read_header};
pub use pawk_parts::TableRefusal;
pub use section::{
    ReadSection, Section, Shape, push_file, push_kept, push_part, push_records, read_section,
};
