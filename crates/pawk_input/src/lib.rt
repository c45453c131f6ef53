//! The input of awk: files, their records, the fields of a record by any FS, and plans that cut the
//! records into chunks.
//!
//! `inline(always)` marks what every record or byte passes through (counted by bench/).
#![tactic(auto)]

mod counts;
mod cuts;
mod cutting;
mod draft;
mod files;
mod item;
mod lent;
mod passing;
mod plan;
mod steps;
mod walk;

pub use counts::{count_block, count_blocks};
pub use cutting::{Chunk, CutRefusal, MOST_CHUNKS};
pub use files::{Input, LIMIT, TooLarge};
pub use item::Item;
pub use pawk_fields::{
    FieldSeparator, FieldStep, Finder, append_between, append_fields, append_ranges, blanks_law,
    count_fields, count_from, expression_matcher, fields_law, pieces_law, split_fields,
    split_fields_with, split_law,
};
pub use pawk_records::{Block, Blocks, begins_law, records_law};
pub use plan::Plan;
pub use steps::SizeStep;
pub use walk::Records;
