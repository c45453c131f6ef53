//! Settings that are refused.

use crate::left_out;
use crate::lexical::ESCAPES;
use crate::words::{append_beginning, append_lines, append_words};
use itoa::Buffer;
use memchr::memchr;
use pawk_lex::vocabulary::{builtin, is_left_out, is_run_variable, reserved_word};
use pawk_settings::{BUDGET_LIMIT, SettingsRefusal};
use std::alloc::AllocError;

/// How many bytes of a value are shown at most.
const LONGEST: usize = 60;

/// Where a setting comes from.
#[derive(Clone, Copy)]
pub enum Origin<'a> {
    /// The value of a `-v`.
    Assignment(&'a str),
    /// The value of `-F`.
    Separator(&'a str),
}

/// Begins a line with the option and its value.
fn append_origin(out: &mut Vec<u8>, origin: Origin<'_>) -> Result<(), AllocError> {
    let (option, text) = match origin {
        Origin::Assignment(text) => ("  -v ", text),
        Origin::Separator(text) => ("  -F ", text),
    };
    out.extend_from_slice(option.as_bytes())?;
    append_beginning(out, text.as_bytes(), LONGEST)?;
    out.extend_from_slice(b": ")
}

/// Ends a line with these words; what follows a newline in them is a line of its own.
fn append_rest(out: &mut Vec<u8>, words: &str, insert: &[u8]) -> Result<(), AllocError> {
    append_words(out, words, insert)?;
    out.extend_from_slice(b"\n")
}

/// What is before the first `=`, if there is one.
fn name_in(text: &[u8]) -> Option<&[u8]> {
    text.get(..memchr(b'=', text)?)
}

/// The name that is assigned.
fn name_of<'a>(origin: Origin<'a>) -> Option<&'a [u8]> {
    match origin {
        Origin::Assignment(text) => name_in(text.as_bytes()),
        Origin::Separator(_) => Some(b"FS"),
    }
}

/// What is reported where what is assigned is no name.
fn words_of_name(name: Option<&[u8]>) -> &'static str {
    match name {
        None => "there is no = in it\n-v has a name, = and a value: -v n=1",
        Some([]) => "there is no name before the =\n-v has a name, = and a value: -v n=1",
        Some(_) =>
            "what is before the = is no name\na name is a letter or _, and then letters, digits and _",
    }
}

/// Whether this is a word of the language.
fn is_word(name: &[u8]) -> bool {
    reserved_word(name).is_some() || builtin(name).is_some() || name == b"getline".as_slice()
}

/// Why a name may not be assigned.
fn words_of_target(name: &[u8]) -> &'static str {
    if is_run_variable(name) {
        "@ is set by the run"
    } else if is_left_out(name) {
        "@ is left out of the language"
    } else if is_word(name) {
        "@ is a word of the language"
    } else {
        "the program has an array or a function @"
    }
}

/// What to do about a name that may not be assigned.
fn advice_of_target(name: &[u8]) -> &'static str {
    if is_left_out(name) {
        left_out::advice_of(name)
    } else {
        "take another name"
    }
}

/// A name may not be assigned.
fn append_target(out: &mut Vec<u8>, name: &[u8]) -> Result<(), AllocError> {
    append_rest(out, words_of_target(name), name)?;
    append_lines(out, advice_of_target(name), &[])
}

/// What is reported about a backslash in the value of an option, which begins no escape. `@` stands for the escapes.
fn words_of_escape(origin: Origin<'_>) -> &'static str {
    match origin {
        Origin::Assignment(_) =>
            "a backslash in it begins no escape\n@\na backslash itself is written \\\\, between quotes of the shell: -v 'e=\\\\.'",
        Origin::Separator(_) =>
            "a backslash in it begins no escape\n@\na single sign separates as it is, as -F '|'; a backslash itself is written \\\\",
    }
}

/// The budget is out of its range.
fn append_budget(out: &mut Vec<u8>) -> Result<(), AllocError> {
    let mut limit = Buffer::new();
    let digits = limit.format(BUDGET_LIMIT).as_bytes();
    append_lines(out, "the budget of steps, -s, is one of 1 to @", digits)
}

/// Appends the explanation of what is at fault with an option.
fn append_refusal(
    out: &mut Vec<u8>,
    refusal: SettingsRefusal,
    origin: Origin<'_>,
) -> Result<(), AllocError> {
    append_origin(out, origin)?;
    let name = name_of(origin);
    match refusal {
        SettingsRefusal::Name => append_rest(out, words_of_name(name), &[]),
        SettingsRefusal::Target => append_target(out, name.unwrap_or(b"it")),
        _ => append_rest(out, words_of_escape(origin), ESCAPES.as_bytes()),
    }
}

/// Appends the explanation of why settings are refused: which option, what is at fault, and what to write instead.
pub fn explain_setting(
    out: &mut Vec<u8>,
    refusal: SettingsRefusal,
    origin: Origin<'_>,
) -> Result<(), AllocError> {
    match refusal {
        SettingsRefusal::Budget => append_budget(out),
        SettingsRefusal::Memory => append_lines(out, "memory was refused", &[]),
        _ => append_refusal(out, refusal, origin),
    }
}
