//! The topic `globals`: what the globals of a run have.
//!
//! A row is calls, parted by tabs; in keys and values a byte may be a backslash and three octal digits. The program has the
//! scalars FS, OFS, ORS, RS, SUBSEP, CONVFMT, OFMT, n and s, in the slots 0 to 8, and the arrays a and b, in the slots 0 and 1.
//!
//! Each answer comes after a space. A value has its mark, and a call takes values in the same form. A fault answers its name
//! in brackets.
//!
//! | call | does | answers |
//! |---|---|---|
//! | `l`slot | | the value of a scalar |
//! | `w`slot`=`value | sets a scalar | |
//! | `a`slot`=`text | puts a text after that of a scalar | |
//! | `r`slot`=`key, `o`slot`=`key | reads an element, or an old one | the value |
//! | `s`slot`=`key`=`value | sets an element | |
//! | `p`slot`=`key`=`value | adds to an element | |
//! | `i`slot`=`key | | whether the element is there: 1 or 0 |
//! | `d`slot`=`key | takes an element away | |
//! | `c`slot | takes all away | |
//! | `u`slot`=`text | gives the elements 1, 2, .. the pieces of a text between its bars, none of an empty one | |
//! | `k`slot | | the keys in their order, parted by `|` |
//! | `y` | goes on with a copy | |

ghost use Rattle.std.specs.Prelude.{IfOk};
ghost use Rattle.pawk_array.specs.Texts.{AreWithin};

use crate::marks::{push_value, value};
use crate::pieces::pieces_between;
use crate::text::{decode, number, piece, push_encoded, push_fault};
use pawk_array::Texts;
use pawk_code::word::Sign;
use pawk_store::{Globals, Seed};
use pawk_value::{lend, lend_held, to_num};
use pawk_world::{Halt, World};
use std::alloc::{AllocError, Global};
use std::ops::Range;

/// The names of the scalars.
const NAMES: [&[u8]; 9] = [
    b"FS", b"OFS", b"ORS", b"RS", b"SUBSEP", b"CONVFMT", b"OFMT", b"n", b"s",
];

/// The names of the scalars, by their slots.
fn names(alloc: Global) -> Result<Vec<Vec<u8>>, AllocError> {
    let mut names = Vec::new(alloc);
    for name in &NAMES {
        names.push(Vec::from_slice(alloc, *name)?)?;
    }
    Ok(names)
}

/// Globals with these scalars and two arrays.
fn begin(alloc: Global) -> Result<Globals, AllocError> {
    Globals::open(alloc, Seed::new(0), names(alloc)?.as_slice(), 2, &[])
}

/// The slot that a call names.
fn slot(call: &[u8]) -> usize {
    number(piece(call, b'=', 0)) as usize
}

/// The ranges of a text between its bars; none of an empty text.
fn pieces_between_bars(alloc: Global, text: &[u8]) -> Result<Vec<Range<usize>>, AllocError>
    ensures { IfOk result (λ pieces. AreWithin text.now pieces.items) }
{
    if text.is_empty() {
        return Ok(Vec::new(alloc));
    }
    pieces_between(alloc, text, b'|')
}

/// Adds all keys, parted by `|`.
fn push_keys(keys: &Texts, out: &mut Vec<u8>) -> Result<(), AllocError> {
    out.push(b' ')?;
    for place in 0..keys.len() {
        if place > 0 {
            out.push(b'|')?;
        }
        push_encoded(keys.text(place), out)?;
    }
    Ok(())
}

/// Reads an element, or an old one.
fn read(
    alloc: Global,
    globals: &mut Globals,
    word: u8,
    slot: usize,
    key: &[u8],
    out: &mut Vec<u8>,
) -> Result<(), Halt> {
    let mut bytes = Vec::new(alloc);
    let held = if word == b'o' {
        globals.old_element(slot, key, &mut bytes)?
    } else {
        globals.element(slot, key, &mut bytes)?
    };
    out.push(b' ')?;
    push_value(lend_held(held, bytes.as_slice()), out)?;
    Ok(())
}

/// Changes an element by a value.
fn change(
    alloc: Global,
    globals: &mut Globals,
    word: u8,
    rest: &[u8],
    key: &[u8],
) -> Result<(), Halt> {
    let value = value(alloc, piece(rest, b'=', 2))?;
    match word {
        b's' => globals.set_element(slot(rest), key, lend(&value)),
        _ => globals.add_element(slot(rest), key, Sign::Plus, to_num(&value)),
    }
}

/// A call with a key or a text.
fn ask_with(
    alloc: Global,
    globals: &mut Globals,
    word: u8,
    rest: &[u8],
    out: &mut Vec<u8>,
) -> Result<(), Halt> {
    let key = decode(alloc, piece(rest, b'=', 1))?;
    let key = key.as_slice();
    match word {
        b'a' => globals.append_scalar(slot(rest), key),
        b'r' | b'o' => read(alloc, globals, word, slot(rest), key, out),
        b'i' => {
            let is_there = globals.holds(slot(rest), key)?;
            Ok(out.extend_from_slice(if is_there { b" 1" } else { b" 0" })?)
        }
        b'd' => globals.remove(slot(rest), key),
        b'u' => globals.fill(slot(rest), key, pieces_between_bars(alloc, key)?),
        _ => change(alloc, globals, word, rest, key),
    }
}

/// A call.
fn ask(
    alloc: Global,
    globals: &mut Globals,
    word: u8,
    rest: &[u8],
    out: &mut Vec<u8>,
) -> Result<(), Halt> {
    match word {
        b'l' => {
            out.push(b' ')?;
            Ok(push_value(globals.scalar(slot(rest)), out)?)
        }
        b'w' => {
            let value = value(alloc, piece(rest, b'=', 1))?;
            globals.set_scalar(slot(rest), lend(&value))
        }
        b'k' => Ok(push_keys(&globals.keys(slot(rest))?, out)?),
        b'c' => globals.clear(slot(rest)),
        b'y' => {
            *globals = globals.copy(alloc)?;
            Ok(())
        }
        _ => ask_with(alloc, globals, word, rest, out),
    }
}

/// A call, or the name of its fault.
fn call(
    alloc: Global,
    globals: &mut Globals,
    call: &[u8],
    out: &mut Vec<u8>,
) -> Result<(), AllocError> {
    let [word, rest @ ..] = call else {
        return Ok(());
    };
    match ask(alloc, globals, *word, rest, out) {
        Ok(()) => Ok(()),
        Err(Halt::Fault(fault)) => push_fault(fault, out),
        Err(_) => Err(AllocError),
    }
}

/// Adds what the calls of a row answer, one after another.
fn push_calls(
    alloc: Global,
    globals: &mut Globals,
    row: &[u8],
    out: &mut Vec<u8>,
) -> Result<(), AllocError> {
    for word in row.split(|byte| *byte == b'\t') {
        call(alloc, globals, word, out)?;
    }
    Ok(())
}

/// Adds the answer to a row.
pub fn push_answer(alloc: Global, row: &[u8], out: &mut Vec<u8>) -> Result<(), AllocError> {
    push_calls(alloc, &mut begin(alloc)?, row, out)
}
