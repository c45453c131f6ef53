//! What is reported about a fault in a program's text.

use crate::words::{append_lines, append_words};
use std::alloc::{AllocError, Global};

/// What is reported about a fault in a program's text: its place, counted from 0, what is at fault, and lines of
/// advice.
#[derive(Drop)]
pub(crate) struct Note {
    pub(crate) start: usize,
    pub(crate) what: Vec<u8>,
    pub(crate) advice: Vec<u8>,
}

/// What is reported about a fault: what is at fault, and what to do, in lines; where that is empty there is no advice.
/// In both `@` stands for a name or another text that is put in.
#[derive(Clone, Copy)]
pub(crate) struct Words {
    pub(crate) what: &'static str,
    pub(crate) advice: &'static str,
}

impl Note {
    /// A note of this place, without words.
    pub(crate) fn new(alloc: Global, start: usize) -> Note {
        Note {
            start,
            what: Vec::new(alloc),
            advice: Vec::new(alloc),
        }
    }

    /// Tells what is at fault.
    pub(crate) fn tell(&mut self, text: &str) -> Result<(), AllocError> {
        self.what.extend_from_slice(text.as_bytes())
    }

    /// Tells what is at fault, and what to do.
    pub(crate) fn explain(&mut self, words: Words, insert: &[u8]) -> Result<(), AllocError> {
        append_words(&mut self.what, words.what, insert)?;
        if words.advice.is_empty() {
            return Ok(());
        }
        append_lines(&mut self.advice, words.advice, insert)
    }
}
