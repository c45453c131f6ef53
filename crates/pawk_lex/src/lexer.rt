//! Cuts a text into tokens.

ghost use Rattle.std.specs.Prelude.{◌≡◌, ◌<◌, ◌≤◌, ◌^◌, [], length, None, IfSome, IfErr, IsTrue};
ghost use Rattle.pawk_lex.specs.Refusals.{is_lexer_answer, is_lexer_refusal};
ghost use Rattle.pawk_lex.specs.Cut.{Gap};

use crate::lexemes::token_at;
use crate::refusal::SyntaxRefusal;
use crate::scan::skip;
use crate::token::{Span, Token};
use std::alloc::Global;

/// Hands out the tokens of a text, one at a time. It walks the text once, and copies no more of
/// it than the bytes of names, strings and expressions into their tokens.
#[derive(Drop)]
pub struct Lexer<'t> {
    alloc: Global,
    size: usize,
    rest: &'t [u8],
    divides: bool,
    refusal: Option<SyntaxRefusal>,
    ghost within: { length rest.now ≤ size },
    ghost small: { size < 2 ^ 63 },
    ghost lexical: { IsTrue (is_lexer_answer refusal) },
}

impl<'t> Lexer<'t> {
    ghost use Rattle.pawk_lex.specs.Lexing.{state};
    ghost use Rattle.pawk_lex.specs.Reads.{start_state, Lexes, Refuses};

    /// A lexer that has read nothing of this text. It takes no memory itself; the bytes of its
    /// tokens are taken from this allocator.
    pub fn new(alloc: Global, text: &'t [u8]) -> Lexer<'t>
        ensures { state result ≡ start_state text.now }
    {
        Lexer {
            alloc,
            size: text.len(),
            rest: text,
            divides: false,
            refusal: None,
        }
    }

    /// The next token (POSIX.1-2017, awk, "Lexical Conventions") with its value and its span, whose
    /// bytes are counted from 0; or `None` at the end of the text and ever after.
    ///
    /// A text at fault is refused, with the place of the byte at fault counted from 1:
    /// - `Token` for a byte that begins no token, for an escape that is none, at its backslash, and
    ///   for a string or an expression without an end on its line, at its first byte;
    /// - `InputOutput` for `|`, `>>` and `getline`;
    /// - `Numeral` for a numeral above 9223372036854775807 or directly before `.`, a letter or `_`;
    /// - `LeftOut` for a name of the standard that the language leaves out, as `sin`.
    ///
    /// `Memory` comes only where a growth was refused, and only before a name, an expression or a
    /// string. Each later call answers the same refusal.
    pub fn next(&mut self) -> Result<Option<Token>, SyntaxRefusal>
        ensures reads { let old = state self.old in
            old.last_refusal ≡ None → Lexes old result (state self.new) }
        // At the end of the text, and so ever after.
        ensures end { let old = state self.old in
            old.last_refusal ≡ None → Gap old.rest [] → result ≡ Ok None }
        ensures again { let old = state self.old in
            IfSome old.last_refusal (λ e. Refuses result e × (state self.new ≡ old)) }
        // The refusals have the numbers 1, 3, 8, 11 and 12.
        ensures numbers { IfErr result (λ e. IsTrue (is_lexer_refusal e)) }
    {
        if let Some(refusal) = self.refusal {
            return Err(refusal);
        }
        let text = skip(self.rest);
        match token_at(self.alloc, self.divides, text) {
            Ok(None) => {
                self.rest = &[];
                Ok(None)
            }
            Ok(Some((value, rest))) => {
                let span = Span {
                    start: self.size - text.len(),
                    end: self.size - rest.len(),
                };
                self.divides = value.divides();
                self.rest = rest;
                Ok(Some(Token { value, span }))
            }
            Err(fault) => {
                let refusal = fault.refusal(self.size);
                self.refusal = Some(refusal);
                Err(refusal)
            }
        }
    }
}
