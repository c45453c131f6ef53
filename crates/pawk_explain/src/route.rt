//! Which way a run went.

use crate::words::append_lines;
use pawk_admit::Reason;
use std::alloc::AllocError;

/// What a program does that cannot be done in chunks.
fn words_of(reason: Reason) -> &'static str {
    match reason {
        Reason::Assignment =>
            "a global is assigned otherwise than by statements with =, or an element is deleted",
        Reason::Addition =>
            "a global that is added to is read or assigned too, or is FS, OFS, ORS or SUBSEP",
        Reason::Range => "a pattern is a range of records, as /a/, /b/",
        Reason::Match => "match sets RSTART and RLENGTH",
        Reason::Split => "split fills a global array",
        Reason::Passing => "a global array is passed to a function",
        Reason::Value => "the value of an addition to a global is used, as in n++ == 5",
        Reason::Memory => "memory was refused for the plan of the chunks",
        Reason::NextFile => "nextfile passes over the rest of a file",
    }
}

/// Appends the explanation of why a program was not run in chunks.
pub fn explain_reason(out: &mut Vec<u8>, reason: Reason) -> Result<(), AllocError> {
    append_lines(out, words_of(reason), &[])?;
    append_lines(
        out,
        "so its records were run one after the other, by one thread",
        &[],
    )
}

/// Appends the explanation of the route `parallel`.
pub fn explain_parallel(out: &mut Vec<u8>) -> Result<(), AllocError> {
    append_lines(
        out,
        "the records were run in chunks, whose results were merged",
        &[],
    )
}

/// Appends the explanation of the route `redo`.
pub fn explain_redo(out: &mut Vec<u8>) -> Result<(), AllocError> {
    let words =
        "a record ended in a fault, or made an element of an array by reading it\nso from there on records were run one after the other";
    append_lines(out, words, &[])
}

/// Appends the explanation of the route `no main`.
pub fn explain_no_main(out: &mut Vec<u8>) -> Result<(), AllocError> {
    let words = "no record was read: the program has no rule and no END, or BEGIN ended the run";
    append_lines(out, words, &[])
}
