//! What chunks noted, joined to the globals in the chunks' order.
//!
//! `inline` marks what each element that is joined passes through (counted by bench/).
#![tactic(auto)]

mod array;
mod cell;
mod chunk_result;
mod extent;
pub mod laws;
mod merging;
mod stop;
mod table;

pub use chunk_result::ChunkResult;
pub use extent::{Extent, merge_far};
pub use merging::{Merged, merge};
pub use stop::{JoinStop, MergeStop};
pub use table::{join_table, takes_table};
