//! What a part of the records noted of the globals, in lines of a table file: written, and read again.
//!
//! A line says what was noted of a scalar or of an element; the elements of an array come after a line with its slot.
#![tactic(auto)]

pub mod laws;
mod mark;
mod read;
mod refusal;
mod write;

pub use read::{ReadTable, read_table};
pub use refusal::TableRefusal;
pub use write::push_table;
