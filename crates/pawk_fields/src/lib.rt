//! The fields of a record: between blanks, between a byte, and by any FS, expressions among them;
//! and what a search and a split answer, as functions of the definitions.
//!
//! `inline(always)` and `inline` mark what each field or each block of bytes passes through, `inline(never)` long words
//! and short texts, so that what is hot stays small (counted by bench/).
#![tactic(auto)]

mod append;
mod blanks;
mod blocks;
mod count;
mod cut;
mod ends;
mod field_walk;
mod fields_by;
mod find;
mod finder;
mod search_laws;
mod separator;
mod split_laws;
mod walk;
mod words;

pub use append::append_between;
pub use blanks::{count_fields, fields_law};
pub use count::count_from;
pub use field_walk::{append_ranges, blanks_law, pieces_law};
pub use fields_by::{append_fields, split_fields, split_fields_with};
pub use find::find_words;
pub use finder::{Finder, expression_matcher};
pub use search_laws::{fields_by_law, find_law, read_law};
pub use separator::{FieldSeparator, FieldStep};
pub use split_laws::split_law;
pub use walk::byte_separator;
