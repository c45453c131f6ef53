//! A fault in a program's text, with its tokens.

use crate::script::Script;
use pawk_lex::token::{Token, TokenValue};

/// A script, its tokens, and the place of the byte at fault in its text, counted from 0.
#[derive(Clone, Copy)]
pub(crate) struct FaultyScript<'c, 's> {
    pub(crate) script: &'c Script<'s>,
    pub(crate) tokens: &'c [Token],
    pub(crate) start: usize,
}

/// Whether this byte may occur in a name.
fn is_name_byte(byte: u8) -> bool {
    byte.is_ascii_alphanumeric() || byte == b'_'
}

/// The bytes of names at the front.
pub(crate) fn name_at(text: &[u8]) -> &[u8] {
    for (length, byte) in text.iter().enumerate() {
        if !is_name_byte(*byte) {
            return text.get(..length).unwrap_or(text);
        }
    }
    text
}

/// The byte at this index, or 0 where there is none.
pub(crate) fn byte_at(text: &[u8], index: usize) -> u8 {
    text.get(index).copied().unwrap_or(0)
}

impl<'c, 's> FaultyScript<'c, 's> {
    /// The text from the byte at fault on.
    pub(crate) fn rest(&self) -> &'c [u8] {
        self.script.text().get(self.start..).unwrap_or(&[])
    }

    /// The byte at fault, or 0 where the text has ended.
    pub(crate) fn byte(&self) -> u8 {
        byte_at(self.rest(), 0)
    }

    /// The name, or the word, at the place.
    pub(crate) fn name(&self) -> &'c [u8] {
        name_at(self.rest())
    }

    /// How many tokens begin before the place.
    pub(crate) fn count_before(&self) -> usize {
        for (count, token) in self.tokens.iter().enumerate() {
            if token.span.start >= self.start {
                return count;
            }
        }
        self.tokens.len()
    }

    /// The token at the place, if one begins there.
    pub(crate) fn token(&self) -> Option<&'c Token> {
        match self.tokens.get(self.count_before()) {
            Some(token) if token.span.start == self.start => Some(token),
            _ => None,
        }
    }

    /// What the token of this number is, counted from 0.
    pub(crate) fn value(&self, number: usize) -> Option<&'c TokenValue> {
        match self.tokens.get(number) {
            Some(token) => Some(&token.value),
            None => None,
        }
    }
}
