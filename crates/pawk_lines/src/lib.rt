//! The lines of table files: written and read, without memory but what the written bytes take.
//!
//! A line is words with spaces between and a newline at the end; its first word says which line it is. What is written
//! is read again, and only what can have been written is read.
#![tactic(auto)]

mod element;
mod failure;
pub mod laws;
mod line;
mod name;
mod number;
mod read;
mod word;
mod write;

pub use line::{Line, Mark};
pub use pawk_words::Damage;
pub use read::{ReadLine, read_line};
pub use write::push_line;
