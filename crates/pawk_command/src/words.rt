//! Words that the library of command lines reads as awk has them.

use std::alloc::{AllocError, Global};

/// The letters of the options that take a value.
const VALUED: &[u8] = b"Fvfjcswm";

/// What a word may be.
#[derive(Clone, Copy)]
enum WordRole {
    /// An option or an operand.
    Any,
    /// The value of the option before it, or the program's name.
    Value,
    /// An operand, since the options have ended.
    Operand,
}

/// What follows the letter of an option that takes a value.
fn attached_value(word: &[u8]) -> Option<&[u8]> {
    match word {
        [b'-', letter, value @ ..] if VALUED.contains(letter) => Some(value),
        _ => None,
    }
}

impl WordRole {
    /// What the word after this one may be.
    fn next(self, word: &[u8]) -> WordRole {
        match self {
            WordRole::Operand => WordRole::Operand,
            WordRole::Value => WordRole::Any,
            WordRole::Any => {
                if word == b"--".as_slice() {
                    WordRole::Operand
                } else if attached_value(word).is_some_and(|value| value.is_empty()) {
                    WordRole::Value
                } else {
                    WordRole::Any
                }
            }
        }
    }

    /// Whether this word is an option with a value in it that begins with `=`.
    fn has_equals(self, word: &[u8]) -> bool {
        match self {
            WordRole::Any => attached_value(word).is_some_and(|value| value.first() == Some(&b'=')),
            WordRole::Value => false,
            WordRole::Operand => false,
        }
    }
}

/// A word with its first `=` written twice.
fn double_equals(alloc: Global, word: &str) -> Result<String, AllocError> {
    let (option, value) = word.split_once('=').unwrap_or((word, ""));
    let mut doubled = String::new(alloc);
    doubled.push_str(option)?;
    doubled.push_str("==")?;
    doubled.push_str(value)?;
    Ok(doubled)
}

/// The words of a command line, the first of which is the program's name, as the library reads them.
///
/// To awk `-F=:` has the value `=:`. The library takes one `=` after the letter away, so one more is
/// written.
///
/// POSIX.1-2017, XBD 12.2, Guideline 6.
pub fn unambiguous(alloc: Global, words: &[String]) -> Result<Vec<String>, AllocError> {
    let mut plain = Vec::with_capacity(alloc, words.len())?;
    let mut role = WordRole::Value;
    for word in words {
        let text = word.as_str();
        plain.push(if role.has_equals(text.as_bytes()) {
            double_equals(alloc, text)?
        } else {
            word.clone()?
        })?;
        role = role.next(text.as_bytes());
    }
    Ok(plain)
}
