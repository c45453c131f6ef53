//! Copies of values.

ghost use Rattle.std.specs.Prelude.{◌≡◌, ◌<◌, length, IfOk, OnErr, is_ok, if◌then◌else◌};
ghost use Rattle.pawk_value.specs.Value.{shown, lent_value, bytes_of};

use crate::{Value, ValueRef, lend};
use std::alloc::{AllocError, Global};
use std::mem;

/// A copy of bytes. Memory is refused only where there are some.
fn copy_bytes(alloc: Global, bytes: &[u8]) -> Result<Vec<u8>, AllocError>
    ensures copy { IfOk result (λ copy. copy.items ≡ bytes.now) }
    ensures full { OnErr result (0 < length bytes.now) }
{
    let mut copy = Vec::new(alloc);
    copy.extend_from_slice(bytes)?;
    Ok(copy)
}

/// A copy of a value. Memory is refused only where it holds bytes.
pub fn copy_value(alloc: Global, value: &Value) -> Result<Value, AllocError>
    ensures copy { IfOk result (λ copy. shown copy ≡ shown value.now) }
    ensures full { OnErr result (0 < length (bytes_of (shown value.now))) }
{
    copy_lent(alloc, lend(value))
}

/// A copy of a lent value that holds its own bytes. Memory is refused only where there are some.
pub fn copy_lent(alloc: Global, value: ValueRef<'_>) -> Result<Value, AllocError>
    ensures copy { IfOk result (λ copy. shown copy ≡ lent_value value.entry) }
    ensures full { OnErr result (0 < length (bytes_of (lent_value value.entry))) }
{
    match value {
        ValueRef::Uninit => Ok(Value::Uninit),
        ValueRef::Num(number) => Ok(Value::Num(number)),
        ValueRef::Text(text) => Ok(Value::Text(copy_bytes(alloc, text)?)),
        ValueRef::Maybe(text) => Ok(Value::Maybe(copy_bytes(alloc, text)?)),
    }
}

/// Puts bytes into the space of others. After a refusal the others are as they were.
fn replace_bytes(room: &mut Vec<u8>, bytes: &[u8]) -> Result<(), AllocError>
    ensures items { room.new.items ≡ (if is_ok result then bytes.now else room.old.items) }
    ensures full { OnErr result (0 < length bytes.now) }
{
    if bytes.len() > room.len() {
        room.reserve(bytes.len() - room.len())?;
    }
    room.clear();
    room.extend_from_slice(bytes)
}

/// The bytes in the space that a value has for its text, if it has one. After a refusal the value is as
/// it was.
fn move_into_room(alloc: Global, value: &mut Value, bytes: &[u8]) -> Result<Vec<u8>, AllocError>
    ensures copy { IfOk result (λ copy. copy.items ≡ bytes.now) }
    ensures value { OnErr result (shown value.new ≡ shown value.old) }
    ensures full { OnErr result (0 < length bytes.now) }
{
    match value {
        Value::Uninit | Value::Num(_) => copy_bytes(alloc, bytes),
        Value::Text(room) => {
            replace_bytes(room, bytes)?;
            Ok(mem::replace(room, Vec::new(alloc)))
        },
        Value::Maybe(room) => {
            replace_bytes(room, bytes)?;
            Ok(mem::replace(room, Vec::new(alloc)))
        },
    }
}

/// Makes a value a copy of a lent one, in the space that it has for its text. Memory is refused only
/// where the lent value holds bytes, and then the value is as it was.
pub fn assign(alloc: Global, value: &mut Value, source: ValueRef<'_>) -> Result<(), AllocError>
    ensures value { shown value.new
        ≡ (if is_ok result then lent_value source.entry else shown value.old) }
    ensures full { OnErr result (0 < length (bytes_of (lent_value source.entry))) }
{
    match source {
        ValueRef::Uninit => *value = Value::Uninit,
        ValueRef::Num(number) => *value = Value::Num(number),
        ValueRef::Text(text) => {
            let room = move_into_room(alloc, value, text)?;
            *value = Value::Text(room);
        },
        ValueRef::Maybe(text) => {
            let room = move_into_room(alloc, value, text)?;
            *value = Value::Maybe(room);
        },
    }
    Ok(())
}
