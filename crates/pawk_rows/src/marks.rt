//! Values as rows write them: `_` where it is uninitialised, and else a number after `#`, a text after `"` or a candidate
//! after `~`.

use crate::text::{decode, push_decimal, push_encoded};
use pawk_value::{Value, ValueRef};
use std::alloc::{AllocError, Global};

/// The value that a text writes.
pub fn value(alloc: Global, text: &[u8]) -> Result<Value, AllocError> {
    match text {
        [b'#', rest @ ..] => {
            Ok(Value::Num(str::from_utf8(rest).unwrap_or("").parse().unwrap_or(0)))
        }
        [b'"', rest @ ..] => Ok(Value::Text(decode(alloc, rest)?)),
        [b'~', rest @ ..] => Ok(Value::Maybe(decode(alloc, rest)?)),
        _ => Ok(Value::Uninit),
    }
}

/// Adds a value.
pub fn push_value(value: ValueRef<'_>, out: &mut Vec<u8>) -> Result<(), AllocError> {
    match value {
        ValueRef::Uninit => out.extend_from_slice(b"_"),
        ValueRef::Num(number) => {
            out.extend_from_slice(if number < 0 { b"#-" } else { b"#" })?;
            push_decimal(number.unsigned_abs(), out)
        }
        ValueRef::Text(text) => {
            out.push(b'"')?;
            push_encoded(text, out)
        }
        ValueRef::Maybe(text) => {
            out.push(b'~')?;
            push_encoded(text, out)
        }
    }
}
