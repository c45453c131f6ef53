//! Regular expressions that cannot be read: the number 10.

use crate::case::{FaultyScript, byte_at};
use crate::lexical::what_of_escape;
use crate::note::{Note, Words};
use memchr::memrchr;
use pawk_ere_syntax::{Ere, EreRefusal};
use pawk_lex::token::TokenValue;
use std::alloc::{AllocError, Global};

/// How long an expression is at most in which the place is sought.
const LONGEST: usize = 2_000;

/// Why an expression cannot be read, and the place of the byte at fault in it, counted from 0.
#[derive(Clone, Copy)]
struct Finding {
    why: EreRefusal,
    place: usize,
}

/// Why a text is no expression.
fn refusal_of(alloc: Global, text: &[u8]) -> Option<EreRefusal> {
    match Ere::parse(alloc, text) {
        Ok(_) => None,
        Err(why) => Some(why),
    }
}

/// The least length from which on the text is refused for this cause, whatever its length.
fn least_length(alloc: Global, text: &[u8], why: EreRefusal) -> usize {
    for length in (0..text.len()).rev() {
        let part = text.get(..length).unwrap_or(&[]);
        if refusal_of(alloc, part) != Some(why) {
            return length.saturating_add(1);
        }
    }
    0
}

/// Why an expression cannot be read, and where it is at fault.
fn find(alloc: Global, text: &[u8]) -> Option<Finding> {
    if text.len() > LONGEST {
        return None;
    }
    let why = refusal_of(alloc, text)?;
    let place = least_length(alloc, text, why).saturating_sub(1);
    if why != EreRefusal::Bound {
        return Some(Finding { why, place });
    }
    let before = text.get(..place).unwrap_or(text);
    Some(Finding {
        why,
        place: memrchr(b'{', before).unwrap_or(place),
    })
}

/// What is reported about a form that is not defined, at this byte.
fn words_of_form(byte: u8) -> Words {
    match byte {
        b'*' | b'+' | b'?' => Words {
            what: "there is nothing to repeat before @",
            advice: "the sign itself is written \\@; of two repetitions leave one: a*",
        },
        b'{' => Words {
            what: "this { begins no count of what is before it",
            advice: "the sign itself is written \\{; a count begins with a number, as a{0,3}",
        },
        b'|' => Words {
            what: "one side of this | is empty",
            advice: "for one or nothing write (a)?; the sign itself is written \\|",
        },
        _ => Words {
            what: "a group, or a side of a |, is empty",
            advice: "for something or nothing write (a)?; the signs themselves are written \\( and \\)",
        },
    }
}

/// What to write in place of an escape that expressions do not have.
fn advice_of_escape(byte: u8) -> &'static str {
    match byte {
        b'd' => "write [0-9]",
        b'D' => "write [^0-9]",
        b's' => "write [ \\t]",
        b'S' => "write [^ \\t]",
        b'w' => "write [A-Za-z0-9_]",
        b'W' => "write [^A-Za-z0-9_]",
        b'B' | b'y' =>
            "the ends of words have no sign: write what is round them, as (^|[^a-z])word([^a-z]|$)",
        _ => "leave the backslash out: only signs, and a b f n r t v, have one",
    }
}

/// An escape that expressions do not have.
fn explain_escape(text: &[u8], place: usize, note: &mut Note) -> Result<(), AllocError> {
    let escape = match text.get(place..) {
        Some(rest) => rest.get(..2).unwrap_or(b"\\"),
        None => b"\\",
    };
    let words = Words {
        what: what_of_escape("expressions have no escape @", escape),
        advice: advice_of_escape(byte_at(escape, 1)),
    };
    note.explain(words, escape)
}

/// What is reported about the other causes.
fn words_of(why: EreRefusal) -> Words {
    match why {
        EreRefusal::Bound => Words {
            what: "a count is greater than 255, or the first number greater than the second",
            advice: "write a smaller count, as in a{2,5}",
        },
        EreRefusal::Bracket => Words {
            what: "what begins with this [ is no list of bytes",
            advice: "a ] is first, as in []a], a - first or last; ranges rise, as [a-z]; a / is written \\/\nthere are classes, as [[:alpha:]], but no [. and no [=",
        },
        EreRefusal::Group => Words {
            what: "this bracket has no partner",
            advice: "the signs themselves are written \\( and \\)",
        },
        EreRefusal::TooLarge => Words {
            what: "the expression is too large",
            advice: "its size with all counts written out is at most 4096: take smaller counts",
        },
        _ => Words {
            what: "this expression cannot be read",
            advice: "see docs/language.md",
        },
    }
}

/// Tells what was found in an expression.
fn explain_finding(text: &[u8], found: Finding, note: &mut Note) -> Result<(), AllocError> {
    match found.why {
        EreRefusal::Form => {
            let byte = byte_at(text, found.place);
            note.explain(words_of_form(byte), &[byte])
        }
        EreRefusal::Escape => explain_escape(text, found.place, note),
        why => note.explain(words_of(why), &[]),
    }
}

/// 10: a regular expression that is none. The place is that in the expression.
pub(crate) fn explain_expression(
    alloc: Global,
    case: &FaultyScript<'_, '_>,
    note: &mut Note,
) -> Result<(), AllocError> {
    let text = match case.value(case.count_before()) {
        Some(TokenValue::Ere(text)) => text.as_slice(),
        _ => &[],
    };
    match find(alloc, text) {
        Some(found) => {
            note.start = case.start.saturating_add(found.place).saturating_add(1);
            explain_finding(text, found, note)
        }
        None => note.tell("this expression cannot be read"),
    }
}
