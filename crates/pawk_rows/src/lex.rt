//! The topic `lex`: the tokens of program texts, one text a row. A row has fields between tabs, the first
//! of which says what is asked; in a text a backslash and three octal digits stand for a byte.
//!
//! - `text TEXT`: the lexer's tokens, each as `START-END:VALUE`, then what `next` answers at the end,
//!   and in brackets what it answers when it is asked again;
//! - `list TEXT`: the same tokens as one list, with what ends it;
//! - `memory`: how a refused allocation is reported.
//!
//! A question is known by its first letter.

use crate::text::{cell, decode, push_decimal, push_encoded};
use pawk_lex::lexer::Lexer;
use pawk_lex::refusal::SyntaxRefusal;
use pawk_lex::token::{Mark, Token, TokenValue};
use pawk_lex::token_list::TokenList;
use std::alloc::{AllocError, Global};

/// Adds bytes as a row writes them, and blanks as octal digits too.
fn push_bytes(bytes: &[u8], out: &mut Vec<u8>) -> Result<(), AllocError> {
    for byte in bytes {
        if *byte == b' ' {
            out.extend_from_slice(b"\\040")?;
        } else {
            push_encoded(&[*byte], out)?;
        }
    }
    Ok(())
}

/// Adds bytes between two others, or after what says their kind.
fn push_between(
    front: &[u8],
    bytes: &[u8],
    back: &[u8],
    out: &mut Vec<u8>,
) -> Result<(), AllocError> {
    out.extend_from_slice(front)?;
    push_bytes(bytes, out)?;
    out.extend_from_slice(back)
}

/// Adds a value: a numeral after `#`, a name after `n:`, a name before `(` after `f:`, a built-in
/// function after `b:`, and any other token as it is written.
fn push_value(value: &TokenValue, out: &mut Vec<u8>) -> Result<(), AllocError> {
    match value {
        TokenValue::Number(number) => {
            out.push(b'#')?;
            push_decimal(*number, out)
        }
        TokenValue::String(bytes) => push_between(b"\"", bytes.as_slice(), b"\"", out),
        TokenValue::Ere(bytes) => push_between(b"/", bytes.as_slice(), b"/", out),
        TokenValue::Name(name) => push_between(b"n:", name.as_slice(), b"", out),
        TokenValue::FunctionName(name) => push_between(b"f:", name.as_slice(), b"", out),
        TokenValue::Builtin(function) => push_between(b"b:", function.name(), b"", out),
        TokenValue::Mark(Mark::Newline) => out.extend_from_slice(b"NL"),
        TokenValue::Mark(mark) => push_bytes(mark.text(), out),
    }
}

/// Adds a token with its span, and a blank.
fn push_token(token: &Token, out: &mut Vec<u8>) -> Result<(), AllocError> {
    push_decimal(token.span.start as u64, out)?;
    out.extend_from_slice(b"-")?;
    push_decimal(token.span.end as u64, out)?;
    out.extend_from_slice(b":")?;
    push_value(&token.value, out)?;
    out.extend_from_slice(b" ")
}

/// Adds a refusal as `!NUMBER@PLACE`, or `!NUMBER` where it has no place.
fn push_refusal(refusal: SyntaxRefusal, out: &mut Vec<u8>) -> Result<(), AllocError> {
    out.extend_from_slice(b"!")?;
    push_decimal(u64::from(refusal.number()), out)?;
    match refusal.place() {
        Some(place) => {
            out.extend_from_slice(b"@")?;
            push_decimal(place as u64, out)
        }
        None => Ok(()),
    }
}

/// Adds what ends a list of tokens.
fn push_end(refusal: Option<SyntaxRefusal>, out: &mut Vec<u8>) -> Result<(), AllocError> {
    match refusal {
        Some(refusal) => push_refusal(refusal, out),
        None => out.extend_from_slice(b"end"),
    }
}

/// Adds the tokens of a lexer, and what ends them.
fn push_tokens(lexer: &mut Lexer<'_>, out: &mut Vec<u8>) -> Result<(), AllocError> {
    for _turn in 0..u64::MAX {
        match lexer.next() {
            Ok(Some(token)) => push_token(&token, out)?,
            Ok(None) => return push_end(None, out),
            Err(refusal) => return push_end(Some(refusal), out),
        }
    }
    Ok(())
}

/// Adds a refusal in numbers, in brackets.
fn push_in_numbers(refusal: SyntaxRefusal, out: &mut Vec<u8>) -> Result<(), AllocError> {
    out.extend_from_slice(b" (")?;
    push_decimal(u64::from(refusal.number()), out)?;
    if let Some(place) = refusal.place() {
        out.extend_from_slice(b" at byte ")?;
        push_decimal(place as u64, out)?;
    }
    out.extend_from_slice(b")")
}

/// Adds the tokens of a text, and what the lexer answers when it is asked again.
fn push_text(alloc: Global, text: &[u8], out: &mut Vec<u8>) -> Result<(), AllocError> {
    let mut lexer = Lexer::new(alloc, text);
    push_tokens(&mut lexer, out)?;
    match lexer.next() {
        Ok(Some(_)) => out.extend_from_slice(b" (token)"),
        Ok(None) => out.extend_from_slice(b" (end)"),
        Err(again) => push_in_numbers(again, out),
    }
}

/// Adds the tokens of a text as one list, and what ends it.
fn push_list(alloc: Global, text: &[u8], out: &mut Vec<u8>) -> Result<(), AllocError> {
    let list = TokenList::read(alloc, text)?;
    for token in &list.tokens {
        push_token(token, out)?;
    }
    push_end(list.refusal, out)
}

/// Adds the answer to a row.
pub fn push_answer(alloc: Global, row: &[u8], out: &mut Vec<u8>) -> Result<(), AllocError> {
    match row.first() {
        Some(b't') => push_text(alloc, decode(alloc, cell(row, 1))?.as_slice(), out),
        Some(b'l') => push_list(alloc, decode(alloc, cell(row, 1))?.as_slice(), out),
        Some(b'm') => {
            let memory = SyntaxRefusal::Memory;
            push_refusal(memory, out)?;
            push_in_numbers(memory, out)
        }
        _ => out.extend_from_slice(b"no such row"),
    }
}
