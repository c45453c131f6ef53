//! What is at fault with a token where it is: the numbers 2, 4, 7 and 9.

use crate::case::FaultyScript;
use crate::note::{Note, Words};
use crate::words::append_beginning;
use pawk_lex::token::{Mark, Token, TokenValue};
use std::alloc::AllocError;

/// How many bytes of a token are shown at most.
const LONGEST: usize = 40;

/// What comes before the text of a token.
fn kind(value: &TokenValue) -> &'static str {
    match value {
        TokenValue::Number(_) => "the number ",
        TokenValue::String(_) => "the string ",
        TokenValue::Ere(_) => "the expression ",
        TokenValue::Name(_) => "the name ",
        TokenValue::FunctionName(_) => "the call of ",
        TokenValue::Builtin(_) => "the function ",
        TokenValue::Mark(mark) => kind_of_mark(*mark),
    }
}

/// Whether a mark is a word.
fn kind_of_mark(mark: Mark) -> &'static str {
    if mark.text().iter().all(|byte| byte.is_ascii_alphabetic()) {
        "the word "
    } else {
        ""
    }
}

/// What to write where this sign is not allowed.
fn advice_of(mark: Mark) -> &'static str {
    match mark {
        Mark::Newline =>
            "a newline may follow { , && || else do ; and the ) of a head; elsewhere write \\ before it",
        Mark::Less
        | Mark::LessEqual
        | Mark::Equal
        | Mark::NotEqual
        | Mark::Greater
        | Mark::GreaterEqual
        | Mark::Tilde
        | Mark::NotMatch =>
            "comparisons and matches do not chain: write brackets, or a < b && b < c",
        Mark::Assign
        | Mark::PlusAssign
        | Mark::MinusAssign
        | Mark::StarAssign
        | Mark::SlashAssign
        | Mark::PercentAssign
        | Mark::CaretAssign =>
            "only a variable, an element or a field is assigned; after an operator write brackets: a && (b = 1)",
        _ => "",
    }
}

/// Names a token.
fn tell_token(
    case: &FaultyScript<'_, '_>,
    token: &Token,
    note: &mut Note,
) -> Result<(), AllocError> {
    if matches!(&token.value, TokenValue::Mark(Mark::Newline)) {
        return note.tell("the end of the line");
    }
    let text = case.script.text().get(token.span.start..token.span.end);
    note.tell(kind(&token.value))?;
    append_beginning(&mut note.what, text.unwrap_or(&[]), LONGEST)
}

/// What is reported about a token, after its name.
fn words_of_token(value: &TokenValue) -> Words {
    Words {
        what: " is unexpected here",
        advice: match value {
            TokenValue::Mark(mark) => advice_of(*mark),
            _ => "",
        },
    }
}

/// What is reported about the end of the text.
const END: Words = Words {
    what: "the end of the program is unexpected here",
    advice: "is a }, a ) or a ] missing?",
};

/// 2: a token, or the end of the text, where it is not allowed.
pub(crate) fn explain_unexpected(
    case: &FaultyScript<'_, '_>,
    note: &mut Note,
) -> Result<(), AllocError> {
    match case.token() {
        Some(token) => {
            tell_token(case, token, note)?;
            note.explain(words_of_token(&token.value), &[])
        }
        None => note.explain(END, &[]),
    }
}

/// What to do in place of an assignment to a variable that the run sets.
fn advice_of_variable(name: &[u8]) -> &'static str {
    if name == b"NF".as_slice() {
        "assign a field to lengthen a record: $(NF + 1) = x; to shorten one, print the fields that stay"
    } else if name == b"NR".as_slice() || name == b"FNR".as_slice() {
        "count in a variable of your own: { n++ }"
    } else {
        "take a variable of your own"
    }
}

/// 4: a variable of this name, which may not be assigned, is a target.
pub(crate) fn words_of_assigned(name: &[u8]) -> Words {
    Words {
        what: "@ is set by the run, and cannot be assigned",
        advice: advice_of_variable(name),
    }
}

/// 7: a statement that begins with this word is outside what it belongs to.
pub(crate) fn words_of_misplaced(name: &[u8]) -> Words {
    match name.first() {
        Some(b'n') => Words {
            what: "@ is for rules alone, not for BEGIN, END and functions",
            advice: "let a function return a value, and write @ in the rule",
        },
        Some(b'r') => Words {
            what: "return is for functions alone",
            advice: "next ends the work on a record, exit the run",
        },
        _ => Words {
            what: "@ is for loops alone",
            advice: "next ends the work on a record, exit the run, return a call",
        },
    }
}

/// 9: nesting that is too deep.
pub(crate) const NESTING: Words = Words {
    what: "here begins what has more than 500 open brackets, or more than 200 levels",
    advice: "part it: give what lies inside to a variable or a function",
};
