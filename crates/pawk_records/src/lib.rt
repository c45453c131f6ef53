//! The records of a file: how bytes are cut into them, where they begin, how many there are, and
//! how they are found where the bytes lie in several blocks.
//!
//! `inline(always)` and `inline` mark what each record or each block of bytes passes through, `inline(never)` long walks
//! and the ends of texts, so that what is hot stays small (counted by bench/).
#![tactic(auto)]

mod block;
mod block_laws;
mod blocks;
mod census;
mod count;
mod counted_bytes;
mod laws;
mod lent;
mod line_ends;
mod lines;
mod mending;
mod paragraphs;
mod pieces;
mod separator;

pub use block::Block;
pub use block_laws::blocks_law;
pub use blocks::Blocks;
pub use census::Census;
pub use counted_bytes::CountedBytes;
pub use laws::{begins_law, records_law};
pub use lent::LentBlocks;
pub use line_ends::LineEnds;
pub use pieces::Pieces;
pub use separator::Separator;
