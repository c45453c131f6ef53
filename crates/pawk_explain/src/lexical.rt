//! What is at fault with a byte, a form of input or output, or a numeral: the numbers 1, 3 and 8.

use crate::case::{FaultyScript, byte_at, name_at};
use crate::note::{Note, Words};
use crate::words::append_lines;
use itoa::Buffer;
use std::alloc::AllocError;

/// What is reported about a fraction.
const FRACTION: Words = Words {
    what: "this is a fraction, and numbers are whole",
    advice: "count in tenths or cents: 125 in place of 1.25",
};

/// Whether the byte at fault is in a string: one begins after the last token.
fn is_in_string(case: &FaultyScript<'_, '_>) -> bool {
    let last = case.count_before().saturating_sub(1);
    let end = match case.tokens.get(last) {
        Some(token) => token.span.end,
        None => 0,
    };
    let between = case.script.text().get(end..case.start).unwrap_or(&[]);
    between.contains(&b'"')
}

/// What is reported about an escape that is none: these words, where its byte can be shown.
pub(crate) fn what_of_escape(words: &'static str, escape: &[u8]) -> &'static str {
    if byte_at(escape, 1).is_ascii_graphic() {
        words
    } else {
        "this backslash begins no escape"
    }
}

/// The escapes that strings have.
pub(crate) const ESCAPES: &str =
    "there are \\\" \\/ \\\\ \\a \\b \\f \\n \\r \\t \\v, and \\ with one to three octal digits";

/// What is reported about a string that goes on in the next line.
const UNENDED: Words = Words {
    what: "a string cannot go on in the next line",
    advice: "end it, and write the next string after it: \"..\" \"..\"",
};

/// What is reported about a backslash outside strings and expressions.
const BACKSLASH: Words = Words {
    what: "this backslash is outside strings and expressions",
    advice: "it joins two lines where it is the last byte of one: no blank comes after it",
};

/// What is reported about an escape that strings do not have.
fn words_of_escape(escape: &[u8]) -> Words {
    Words {
        what: what_of_escape("strings have no escape @", escape),
        advice: "a backslash itself is written \\\\, also in a text that is an expression: \"\\\\.\"",
    }
}

/// A backslash.
fn explain_backslash(case: &FaultyScript<'_, '_>, note: &mut Note) -> Result<(), AllocError> {
    let escape = case.rest().get(..2).unwrap_or(b"\\");
    if !is_in_string(case) {
        return note.explain(BACKSLASH, &[]);
    }
    if escape.contains(&b'\n') {
        return note.explain(UNENDED, &[]);
    }
    append_lines(&mut note.advice, ESCAPES, &[])?;
    note.explain(words_of_escape(escape), escape)
}

/// What is reported about a point, and what is directly after it.
fn words_of_point(next: u8) -> Words {
    if next.is_ascii_digit() {
        FRACTION
    } else {
        Words {
            what: "this . is outside strings, expressions and numbers",
            advice: "",
        }
    }
}

/// What is reported about some bytes, if there is more to say than that they begin nothing.
fn words_of(byte: u8) -> Option<Words> {
    match byte {
        b'"' => Some(Words {
            what: "this string has no end on its line",
            advice: "write a \" at its end; a newline in a string is written \\n, a quote \\\"",
        }),
        b'/' => Some(Words {
            what: "this expression has no end on its line",
            advice: "write a / at its end; in an expression a / is written \\/, also between [ and ]",
        }),
        b'\'' => Some(Words {
            what: "a ' has no meaning in a program",
            advice: "strings are written in \"..\"; a program in a file (-f) needs no quotes of the shell",
        }),
        b'\r' => Some(Words {
            what: "here is a carriage return",
            advice: "take it out, as by tr -d '\\r'; only before a newline of a file of -f it is left out",
        }),
        b'&' => Some(Words {
            what: "a single & has no meaning",
            advice: "for \"and\" write &&",
        }),
        _ => None,
    }
}

/// What is reported about the other bytes that begin nothing.
fn words_of_other(byte: u8) -> Words {
    if byte >= 128 {
        Words {
            what: "this byte is no ASCII character",
            advice: "such bytes are for strings, expressions and comments alone",
        }
    } else {
        Words {
            what: "the sign @ has no meaning outside strings, expressions and comments",
            advice: "",
        }
    }
}

/// What is reported about a byte that controls a terminal.
const CONTROL: Words = Words {
    what: "the byte @ has no meaning outside strings, expressions and comments",
    advice: "",
};

/// A byte that begins nothing.
fn explain_other(byte: u8, note: &mut Note) -> Result<(), AllocError> {
    if byte.is_ascii_control() {
        let mut digits = Buffer::new();
        note.explain(CONTROL, digits.format(byte).as_bytes())
    } else {
        note.explain(words_of_other(byte), &[byte])
    }
}

/// 1: a byte that begins no token, or a string or an expression that cannot be read.
pub(crate) fn explain_token(
    case: &FaultyScript<'_, '_>,
    note: &mut Note,
) -> Result<(), AllocError> {
    let byte = case.byte();
    match words_of(byte) {
        Some(words) => note.explain(words, &[]),
        None => match byte {
            b'\\' => explain_backslash(case, note),
            b'.' => note.explain(words_of_point(byte_at(case.rest(), 1)), &[]),
            _ => explain_other(byte, note),
        },
    }
}

/// What to write in place of a pipe.
fn advice_of_pipe(text: &[u8]) -> &'static str {
    let after = text.get(1..).unwrap_or(&[]).trim_ascii_start();
    if name_at(after) == b"getline".as_slice() {
        "what a command writes is given by -v: -v name=\"$(command)\""
    } else {
        "write the pipe in the shell: pawk '..' file | sort"
    }
}

/// 3: a form of input or output that the language leaves out, with which this text begins.
pub(crate) fn words_of_input_output(text: &[u8]) -> Words {
    match (byte_at(text, 0), byte_at(text, 1)) {
        (b'|', _) => Words {
            what: "pawk runs no other program: there is no |",
            advice: advice_of_pipe(text),
        },
        (b'>', b'>') => Words {
            what: "all output goes to standard output: there is no >>",
            advice: "let the shell append it to a file: pawk '..' input >> file",
        },
        (b'>', _) => Words {
            what: "all output goes to standard output: there is no > in print",
            advice: "where it compares, write brackets: print (a > b)\nfor a file let the shell write it: pawk '..' input > file",
        },
        _ => Words {
            what: "there is no getline: only rules read records",
            advice: "name each file as an operand, and compare FILENAME, or FNR with NR\nwhat a command writes is given by -v: -v name=\"$(command)\"",
        },
    }
}

/// The text after the digits at its front.
fn after_digits(text: &[u8]) -> &[u8] {
    for (count, byte) in text.iter().enumerate() {
        if !byte.is_ascii_digit() {
            return text.get(count..).unwrap_or(&[]);
        }
    }
    &[]
}

/// Whether this is an exponent.
fn is_exponent(text: &[u8]) -> bool {
    match text {
        [b'e' | b'E', b'+' | b'-', digit, ..] => digit.is_ascii_digit(),
        [b'e' | b'E', digit, ..] => digit.is_ascii_digit(),
        _ => false,
    }
}

/// 8: a numeral, with which this text begins, is too great, or directly followed by a `.`, a letter or `_`.
pub(crate) fn words_of_numeral(text: &[u8]) -> Words {
    let rest = after_digits(text);
    let next = byte_at(rest, 0);
    if next == b'.' {
        FRACTION
    } else if is_exponent(rest) {
        Words {
            what: "this number has an exponent, and numbers are whole",
            advice: "write its digits: 1000 in place of 1e3",
        }
    } else if next == b'_' || next.is_ascii_alphabetic() {
        Words {
            what: "this number is directly followed by a letter",
            advice: "write a blank between them; there are decimal digits alone, as 26 for 0x1A",
        }
    } else {
        Words {
            what: "this number is greater than 9223372036854775807, the greatest there is",
            advice: "",
        }
    }
}
