//! Calls that do not fit what they call: the number 6.

use crate::case::FaultyScript;
use crate::note::{Note, Words};
use crate::words::{append_number, append_words};
use pawk_lex::token::{Builtin, Mark, Token, TokenValue};
use std::alloc::AllocError;

/// How many brackets are open after a token.
fn depth_after(depth: usize, value: &TokenValue) -> usize {
    match value {
        TokenValue::Mark(Mark::LeftParenthesis | Mark::LeftBracket) => depth.saturating_add(1),
        TokenValue::Mark(Mark::RightParenthesis | Mark::RightBracket) => depth.saturating_sub(1),
        _ => depth,
    }
}

/// Whether this token is a mark.
fn is_mark(token: Option<&Token>, sign: Mark) -> bool {
    match token {
        Some(token) => matches!(&token.value, TokenValue::Mark(mark) if *mark == sign),
        None => false,
    }
}

/// How many members a list has that begins with these tokens, the first of which is its `(`.
fn count_members(tokens: &[Token]) -> usize {
    if !is_mark(tokens.first(), Mark::LeftParenthesis)
        || is_mark(tokens.get(1), Mark::RightParenthesis)
    {
        return 0;
    }
    let mut count: usize = 1;
    let mut depth = 0;
    for token in tokens {
        depth = depth_after(depth, &token.value);
        if depth == 0 {
            break;
        }
        if depth == 1 && matches!(&token.value, TokenValue::Mark(Mark::Comma)) {
            count = count.saturating_add(1);
        }
    }
    count
}

/// The tokens after those before this number, counted from 0.
fn tokens_from<'t>(tokens: &'t [Token], number: usize) -> &'t [Token] {
    tokens.get(number..).unwrap_or(&[])
}

/// Whether a token is this name, with or without a `(` directly after it.
fn has_name(token: &Token, name: &[u8]) -> bool {
    match &token.value {
        TokenValue::Name(text) => text.as_slice() == name,
        TokenValue::FunctionName(text) => text.as_slice() == name,
        _ => false,
    }
}

/// Whether the word before the token of this number is `function`.
fn is_defined_at(tokens: &[Token], number: usize) -> bool {
    number > 0 && is_mark(tokens.get(number.saturating_sub(1)), Mark::Function)
}

/// How many parameters the function of a name has, if one is defined.
fn count_parameters(tokens: &[Token], name: &[u8]) -> Option<usize> {
    for (number, token) in tokens.iter().enumerate() {
        if !has_name(token, name) || !is_defined_at(tokens, number) {
            continue;
        }
        return Some(count_members(tokens_from(tokens, number.saturating_add(1))));
    }
    None
}

/// How many arguments a built-in function takes, at least and at most.
fn takes(function: Builtin) -> (usize, usize) {
    match function {
        Builtin::Length => (0, 1),
        Builtin::Tolower | Builtin::Toupper | Builtin::Int => (1, 1),
        Builtin::Index | Builtin::Match => (2, 2),
        Builtin::Substr | Builtin::Split | Builtin::Sub | Builtin::Gsub => (2, 3),
        Builtin::Sprintf => (1, usize::MAX),
    }
}

/// How many arguments a built-in function takes, in words.
fn words_of(function: Builtin) -> &'static str {
    match function {
        Builtin::Length => " takes no argument or one",
        Builtin::Tolower | Builtin::Toupper | Builtin::Int => " takes one argument",
        Builtin::Index | Builtin::Match => " takes 2 arguments",
        Builtin::Substr | Builtin::Split | Builtin::Sub | Builtin::Gsub =>
            " takes 2 or 3 arguments",
        Builtin::Sprintf => " takes a format, and then its arguments",
    }
}

/// What is reported about what a built-in function writes into.
fn words_of_target(function: Builtin) -> Words {
    if function == Builtin::Split {
        Words {
            what: "the second argument of split is no array",
            advice: "write the name of an array there: split($0, part, \",\")",
        }
    } else {
        Words {
            what: "the third argument of @ cannot be assigned",
            advice: "write a variable, an element or a field there, or nothing for $0",
        }
    }
}

/// Tells how many arguments a call has.
fn tell_count(note: &mut Note, count: usize) -> Result<(), AllocError> {
    match count {
        0 => note.tell(", and here is none"),
        1 => note.tell(", and here is 1"),
        _ => {
            note.tell(", and here are ")?;
            append_number(&mut note.what, count as u64)
        }
    }
}

/// How many arguments the call at fault has.
fn count_arguments(case: &FaultyScript<'_, '_>) -> usize {
    count_members(tokens_from(case.tokens, case.count_before().saturating_add(1)))
}

/// A call of a built-in function.
fn explain_builtin(
    case: &FaultyScript<'_, '_>,
    function: Builtin,
    note: &mut Note,
) -> Result<(), AllocError> {
    let count = count_arguments(case);
    let (least, most) = takes(function);
    if least <= count && count <= most {
        return note.explain(words_of_target(function), function.name());
    }
    note.what.extend_from_slice(function.name())?;
    note.tell(words_of(function))?;
    tell_count(note, count)
}

/// A call of a function that is defined, with this number of parameters.
fn explain_function(
    case: &FaultyScript<'_, '_>,
    parameters: usize,
    note: &mut Note,
) -> Result<(), AllocError> {
    append_words(&mut note.what, "the function @ has ", case.name())?;
    append_number(&mut note.what, parameters as u64)?;
    note.tell(if parameters == 1 {
        " parameter"
    } else {
        " parameters"
    })?;
    tell_count(note, count_arguments(case))
}

/// Whether the name before the call is `func`, as other awks have it.
fn is_after_func(case: &FaultyScript<'_, '_>) -> bool {
    match case.tokens.get(..case.count_before()) {
        Some([.., token]) => has_name(token, b"func"),
        _ => false,
    }
}

/// What is reported about a call of a function that is not there.
fn words_of_missing(case: &FaultyScript<'_, '_>) -> Words {
    Words {
        what: "there is no function @",
        advice: if is_after_func(case) {
            "the word is not func: write function @(..) { .. }"
        } else {
            "define it: function @(..) { .. }; of other awks' functions only those of POSIX are there"
        },
    }
}

/// 6: a call that does not fit what it calls.
pub(crate) fn explain_call(case: &FaultyScript<'_, '_>, note: &mut Note) -> Result<(), AllocError> {
    if let Some(TokenValue::Builtin(function)) = case.value(case.count_before()) {
        return explain_builtin(case, *function, note);
    }
    match count_parameters(case.tokens, case.name()) {
        Some(parameters) => explain_function(case, parameters, note),
        None => note.explain(words_of_missing(case), case.name()),
    }
}
