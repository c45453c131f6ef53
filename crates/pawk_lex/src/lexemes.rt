//! The token at the front of a text: a numeral, a word, a string, an expression or a sign.

ghost use Rattle.std.specs.Prelude.{◌≡◌, ◌≢◌, ◌<◌, ◌≤◌, [], length, IfOk, OnErr};
ghost use Rattle.pawk_lex.specs.Next as spec;
ghost use Rattle.pawk_lex.specs.Tokens.{tok};
ghost use Rattle.pawk_lex.specs.Reads.{IsFinding, IsSomeFinding, CopiesBytes, HasBytes, NeedsMemory};

use crate::bytes::{byte_at, is_name_byte};
use crate::fault::SyntaxFault;
use crate::refusal::Cause;
use crate::scan::{digit_count, name_length};
use crate::signs::{double, single};
use crate::strings::{after_ere, decode};
use crate::token::TokenValue;
use crate::vocabulary::{builtin, is_left_out, reserved_word};
use std::alloc::{AllocError, Global};

/// The greatest number of a numeral.
const GREATEST: u64 = 9_223_372_036_854_775_807;

/// The number that digits write, if it is at most `GREATEST`.
#[tactic(auto, unfolding(crate::specs::Next::value_from))]
fn value(mut digits: &[u8]) -> Option<u64>
    ensures { result ≡ spec.value_from 0 digits.entry.now }
{
    let mut number: u64 = 0;
    while let [digit, rest @ ..] = digits {
        if number > GREATEST / 10 {
            return None;
        }
        number = 10 * number + u64::from(digit.saturating_sub(b'0'));
        if number > GREATEST {
            return None;
        }
        digits = rest;
    }
    Some(number)
}

/// A numeral (POSIX.1-2017, awk, "Lexical Conventions": NUMBER, here of decimal digits alone). It
/// is at fault at its first byte where it is greater than 9223372036854775807, or where a `.`, a
/// letter or `_` follows it directly.
#[tactic(auto, unfolding(crate::specs::Next::number))]
fn number(text: &[u8]) -> Result<(TokenValue, &[u8]), SyntaxFault>
    ensures { IsFinding ⊥ (spec.number text.now) result }
{
    let (digits, rest) = text.split_at(digit_count(text));
    match value(digits) {
        Some(number) if !is_name_byte(byte_at(rest, 0)) && byte_at(rest, 0) != b'.' => {
            Ok((TokenValue::Number(number), rest))
        }
        _ => Err(SyntaxFault::At {
            cause: Cause::Numeral,
            left: text.len(),
        }),
    }
}

/// Why a word may not be used.
#[tactic(auto, unfolding(crate::specs::Next::word_cause))]
fn word_cause(word: &[u8]) -> Option<Cause>
    ensures { result ≡ spec.word_cause word.now }
{
    if word == b"getline".as_slice() {
        Some(Cause::InputOutput)
    } else if is_left_out(word) {
        Some(Cause::LeftOut)
    } else {
        None
    }
}

/// What a word is, before this byte.
#[tactic(auto, unfolding(crate::specs::Next::word_tok))]
fn word_value(alloc: Global, word: &[u8], next: u8) -> Result<TokenValue, AllocError>
    ensures value { IfOk result (λ v. tok v ≡ spec.word_tok word.now next) }
    ensures memory { OnErr result (HasBytes (spec.word_tok word.now next)) }
{
    if let Some(mark) = reserved_word(word) {
        return Ok(TokenValue::Mark(mark));
    }
    if let Some(function) = builtin(word) {
        return Ok(TokenValue::Builtin(function));
    }
    let name = Vec::from_slice(alloc, word)?;
    if next == b'(' {
        Ok(TokenValue::FunctionName(name))
    } else {
        Ok(TokenValue::Name(name))
    }
}

/// A name or a word with a meaning of its own (the same section: word, keywords, BUILTIN_FUNC,
/// NAME and FUNC_NAME). A word that may not be used is at fault at its first byte.
#[tactic(auto, unfolding(crate::specs::Next::word))]
fn word(alloc: Global, text: &[u8]) -> Result<(TokenValue, &[u8]), SyntaxFault>
    ensures { let found = spec.word text.now in IsFinding (CopiesBytes found) found result }
{
    let (word, rest) = text.split_at(name_length(text));
    match word_cause(word) {
        Some(cause) => Err(SyntaxFault::At {
            cause,
            left: text.len(),
        }),
        None => Ok((word_value(alloc, word, byte_at(rest, 0))?, rest)),
    }
}

/// A string, from its opening quote on (the same section: STRING). A backslash that begins no
/// escape is at fault there; a string without an end on its line at its opening quote.
#[tactic(auto, unfolding(crate::specs::Next::string))]
fn string(alloc: Global, text: &[u8]) -> Result<(TokenValue, &[u8]), SyntaxFault>
    requires { 0 < length text.now }
    ensures { IsFinding (Unit {0}) (spec.string text.now) result }
{
    let (bytes, rest) = decode(alloc, &text[1..])?;
    match rest {
        [b'"', rest @ ..] => Ok((TokenValue::String(bytes), rest)),
        [b'\\', ..] => Err(SyntaxFault::At {
            cause: Cause::Token,
            left: rest.len(),
        }),
        _ => Err(SyntaxFault::At {
            cause: Cause::Token,
            left: text.len(),
        }),
    }
}

/// An expression, from its opening slash on (the same section: ERE). Without an end on its line it
/// is at fault at its opening slash.
#[tactic(auto, unfolding(crate::specs::Next::ere))]
fn ere(alloc: Global, text: &[u8]) -> Result<(TokenValue, &[u8]), SyntaxFault>
    requires { 0 < length text.now }
    ensures { let found = spec.ere text.now in IsFinding (CopiesBytes found) found result }
{
    let body = &text[1..];
    let rest = after_ere(body);
    match rest {
        [b'/', after @ ..] => {
            let bytes = Vec::from_slice(alloc, &body[..body.len() - rest.len()])?;
            Ok((TokenValue::Ere(bytes), after))
        }
        _ => Err(SyntaxFault::At {
            cause: Cause::Token,
            left: text.len(),
        }),
    }
}

/// Whether these two bytes begin `|` or `>>`, with which output goes elsewhere.
#[tactic(auto, unfolding(crate::specs::Next::is_redirection))]
fn is_redirection(byte: u8, next: u8) -> bool
    ensures { result ≡ spec.is_redirection byte next }
{
    match byte {
        b'|' => next != b'|',
        b'>' => next == b'>',
        _ => false,
    }
}

/// A sign or a newline; of two signs that begin so the longer one (the same section: the
/// two-character tokens and the single characters).
#[tactic(auto, unfolding(crate::specs::Next::sign))]
fn sign(text: &[u8], byte: u8, next: u8) -> Result<(TokenValue, &[u8]), SyntaxFault>
    requires some { 0 < length text.now }
    requires more { next ≢ 0 → 1 < length text.now }
    ensures { IsFinding ⊥ (spec.sign text.now byte next) result }
{
    if is_redirection(byte, next) {
        return Err(SyntaxFault::At {
            cause: Cause::InputOutput,
            left: text.len(),
        });
    }
    if let Some(mark) = double(byte, next) {
        return Ok((TokenValue::Mark(mark), &text[2..]));
    }
    match single(byte) {
        Some(mark) => Ok((TokenValue::Mark(mark), &text[1..])),
        None => Err(SyntaxFault::At {
            cause: Cause::Token,
            left: text.len(),
        }),
    }
}

/// The token at the front of a text that begins with none of what separates tokens; `divides` says
/// that a slash is a division there.
#[tactic(auto, unfolding(crate::specs::Next::token_at))]
pub fn token_at(
    alloc: Global,
    divides: bool,
    text: &[u8],
) -> Result<Option<(TokenValue, &[u8])>, SyntaxFault>
    ensures { IsSomeFinding (NeedsMemory divides text.now) (spec.token_at divides text.now) result }
{
    match text {
        [] => Ok(None),
        [byte, ..] => {
            if byte.is_ascii_digit() {
                return Ok(Some(number(text)?));
            }
            if is_name_byte(*byte) {
                return Ok(Some(word(alloc, text)?));
            }
            if *byte == b'"' {
                return Ok(Some(string(alloc, text)?));
            }
            if *byte == b'/' && !divides {
                return Ok(Some(ere(alloc, text)?));
            }
            Ok(Some(sign(text, *byte, byte_at(text, 1))?))
        }
    }
}
