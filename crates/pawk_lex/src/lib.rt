//! The tokens of awk: a text is cut into names, words, numerals, strings, expressions between
//! slashes, signs and newlines, as POSIX.1-2017, awk, "Lexical Conventions", says, for an awk of
//! whole numbers; and the refusals of a program text.
#![tactic(auto)]

mod bytes;
mod fault;
pub mod laws;
mod lexemes;
pub mod lexer;
pub mod refusal;
mod scan;
pub mod signs;
pub mod strings;
pub mod token;
pub mod token_list;
pub mod vocabulary;
