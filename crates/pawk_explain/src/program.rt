//! Programs that are refused.

use crate::calls::explain_call;
use crate::case::FaultyScript;
use crate::display::{append_position, append_source};
use crate::expression::explain_expression;
use crate::grammar::{NESTING, explain_unexpected, words_of_assigned, words_of_misplaced};
use crate::left_out::words_of_left_out;
use crate::lexical::{explain_token, words_of_input_output, words_of_numeral};
use crate::note::Note;
use crate::script::Script;
use crate::uses::explain_uses;
use crate::words::append_lines;
use pawk_lex::refusal::{Cause, SyntaxRefusal};
use pawk_lex::token_list::TokenList;
use std::alloc::{AllocError, Global};

/// Explains a cause.
fn explain_cause(
    alloc: Global,
    case: &FaultyScript<'_, '_>,
    cause: Cause,
    note: &mut Note,
) -> Result<(), AllocError> {
    match cause {
        Cause::Token => explain_token(case, note),
        Cause::Unexpected => explain_unexpected(case, note),
        Cause::InputOutput => note.explain(words_of_input_output(case.rest()), &[]),
        Cause::Assigned => note.explain(words_of_assigned(case.name()), case.name()),
        Cause::Uses => explain_uses(case, note),
        Cause::Call => explain_call(case, note),
        Cause::Misplaced => note.explain(words_of_misplaced(case.name()), case.name()),
        Cause::Numeral => note.explain(words_of_numeral(case.rest()), &[]),
        Cause::Nesting => note.explain(NESTING, &[]),
        Cause::Expression => explain_expression(alloc, case, note),
        Cause::LeftOut => note.explain(words_of_left_out(case.name()), case.name()),
    }
}

/// Explains a cause at the place of a note.
fn explain_place(
    alloc: Global,
    script: &Script<'_>,
    cause: Cause,
    note: &mut Note,
) -> Result<(), AllocError> {
    let list = TokenList::read(alloc, script.text())?;
    let case = FaultyScript {
        script,
        tokens: list.tokens.as_slice(),
        start: note.start,
    };
    explain_cause(alloc, &case, cause, note)
}

/// Appends the lines of a note: its position and what is at fault, the line of the program, and the advice.
fn append_note(out: &mut Vec<u8>, script: &Script<'_>, note: &Note) -> Result<(), AllocError> {
    out.extend_from_slice(b"  ")?;
    append_position(out, script, note.start)?;
    out.extend_from_slice(b": ")?;
    out.extend_from_slice(note.what.as_slice())?;
    out.extend_from_slice(b"\n")?;
    append_source(out, script.text(), note.start)?;
    out.extend_from_slice(note.advice.as_slice())
}

/// Appends the explanation of a cause at a place of a script, counted from 0.
fn append_explanation(
    alloc: Global,
    out: &mut Vec<u8>,
    script: &Script<'_>,
    cause: Cause,
    start: usize,
) -> Result<(), AllocError> {
    let mut note = Note::new(alloc, start);
    explain_place(alloc, script, cause, &mut note)?;
    append_note(out, script, &note)
}

/// Appends the explanation of why a program is refused: where, what is at fault, and what to write instead. The place of
/// the refusal is that in the script's text.
pub fn explain_program(
    alloc: Global,
    out: &mut Vec<u8>,
    script: &Script<'_>,
    refusal: SyntaxRefusal,
) -> Result<(), AllocError> {
    match refusal {
        SyntaxRefusal::At { cause, place } => {
            append_explanation(alloc, out, script, cause, place.saturating_sub(1))
        }
        SyntaxRefusal::Memory => {
            append_lines(out, "memory was refused while the program was read", &[])
        }
    }
}
