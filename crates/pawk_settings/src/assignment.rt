//! An assignment before the run.

ghost use Rattle.std.specs.Prelude.{◌≡◌, ◌≢◌, ◌≤◌, ◌||◌, length, IfOk, IfSome, MatchResult, OnErr, is_some, Some, None};
ghost use Rattle.std.specs.Option.{is_none};
ghost use Rattle.std.specs.List.{list_all};
ghost use Rattle.pawk_lex.specs.Bytes as bytes;
ghost use Rattle.pawk_settings.specs.Escapes as escapes;
ghost use Rattle.pawk_settings.specs.SettingsViews.{is_refused_under, IsReading};
ghost use Rattle.pawk_settings.specs.Assignments as spec;

use crate::refusal::SettingsRefusal;
use pawk_lex::strings::string_byte;
use pawk_lex::vocabulary::{builtin, is_left_out, is_run_variable, reserved_word};
use pawk_syntax_check::functions::Functions;
use pawk_syntax_check::kinds::Kinds;
use std::alloc::{AllocError, Global};

/// A variable that is assigned before the program runs, and its value, a candidate.
#[derive(Drop)]
pub struct Assignment {
    pub name: Vec<u8>,
    pub value: Vec<u8>,
}

/// Whether a byte may begin a name.
fn is_first_name_byte(byte: u8) -> bool
    ensures { result ≡ spec.is_first_name_byte byte }
{
    byte.is_ascii_alphabetic() || byte == b'_'
}

/// Whether a byte may occur in a name.
fn is_name_byte(byte: u8) -> bool
    ensures { result ≡ bytes.is_name_byte byte }
{
    byte.is_ascii_alphanumeric() || byte == b'_'
}

/// Whether all bytes may occur in a name.
fn are_name_bytes(text: &[u8]) -> bool
    ensures { result ≡ list_all bytes.is_name_byte text.now }
{
    text.iter().all(|byte| is_name_byte(*byte))
}

/// Whether a text is a name.
fn is_name(text: &[u8]) -> bool
    ensures { result ≡ spec.is_name text.now }
{
    match text {
        [] => false,
        [first, rest @ ..] => is_first_name_byte(*first) && are_name_bytes(rest),
    }
}

/// Whether a text is a word that has a meaning of its own and is no variable.
fn is_word(text: &[u8]) -> bool
    ensures { result ≡ spec.is_word text.now }
{
    reserved_word(text).is_some()
        || builtin(text).is_some()
        || is_left_out(text)
        || text == b"getline".as_slice()
}

/// Whether a name may not be assigned.
fn is_refused<'t>(kinds: &Kinds<'t>, functions: &Functions<'t>, name: &'t [u8]) -> bool
    ensures { result ≡ is_refused_under kinds.now functions.now name.now }
{
    is_run_variable(name)
        || is_word(name)
        || kinds.is_array(0, name)
        || functions.get(name).is_some()
}

/// The byte that the front of a value stands for, and how many bytes write it; `None` at its end, and
/// where a backslash begins no escape.
#[tactic(auto, unfolding(crate::specs::Escapes::value_byte))]
fn value_byte(text: &[u8]) -> Option<(u8, usize)>
    ensures value { result ≡ escapes.value_byte text.now }
    ensures within { IfSome result (λ p. (1 ≤ p.1) × (p.1 ≤ length text.now)) }
{
    match text {
        [] => None,
        [b'"' | b'\n', ..] => Some((text[0], 1)),
        _ => string_byte(text),
    }
}

/// What a value stands for; `None` where a backslash begins no escape.
fn read_value(alloc: Global, mut text: &[u8]) -> Result<Option<Vec<u8>>, AllocError>
    ensures read { IfOk result (λ o. IfSome o (λ v. escapes.value_text text.entry.now ≡ Some v.items)) }
    ensures unread { IfOk result (λ o. is_none o ≡ is_none (escapes.value_text text.entry.now)) }
{
    let mut value = Vec::new(alloc);
    while let Some((byte, length)) = value_byte(text) {
        value.push(byte)?;
        text = &text[length..];
    }
    if text.is_empty() {
        Ok(Some(value))
    } else {
        Ok(None)
    }
}

impl Assignment {
    /// The assignment of a value to a name, where it may be.
    pub(crate) fn new<'t>(
        alloc: Global,
        kinds: &Kinds<'t>,
        functions: &Functions<'t>,
        name: &'t [u8],
        value: &[u8],
    ) -> Result<Assignment, SettingsRefusal>
        ensures { IsReading (is_refused_under kinds.now functions.now) (name.now, value.now) result }
    {
        if !is_name(name) {
            return Err(SettingsRefusal::Name);
        }
        if is_refused(kinds, functions, name) {
            return Err(SettingsRefusal::Target);
        }
        let Some(value) = read_value(alloc, value)? else {
            return Err(SettingsRefusal::Escape);
        };
        let name = Vec::from_slice(alloc, name)?;
        Ok(Assignment { name, value })
    }
}
