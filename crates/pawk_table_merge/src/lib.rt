//! Tables of shards that are merged, one after the other: BEGIN, what the parts of each shard noted and wrote, the
//! records that are kept, END.
#![tactic(auto)]

mod begin;
mod finish;
mod law;
mod merging;
mod order;
mod refusal;
mod section;
mod table;
mod write;

pub use begin::begin_merge;
pub use finish::end_merge;
pub use law::{sections_tell_later, tables_make_the_run};
pub use merging::{Conclusion, MergeStart, Merging, Stop, StopCause, TableEnd};
pub use order::MergeOrder;
pub use refusal::MergeRefusal;
pub use table::merge_table;
