//! The words of table files: written and read, without memory.
//!
//! A word is a name, a number or a text, and after each comes a gap, a space or a newline. What is written is read
//! again, and only what can have been written is read.
#![tactic(auto)]

mod digits;
pub mod laws;
mod limits;
mod read;
mod word;
mod write;

pub use digits::{Digits, decimal_front};
pub use limits::{NAME_LIMIT, SIZE_LIMIT, limits_law};
pub use read::{Damage, ReadWord, read_word};
pub use word::{Gap, Word};
pub use write::push_word;
