//! All tokens of a text.

use crate::lexer::Lexer;
use crate::refusal::SyntaxRefusal;
use crate::token::Token;
use std::alloc::{AllocError, Global};

/// The tokens of a text, up to its end or to where it is refused.
#[derive(Drop)]
pub struct TokenList {
    pub tokens: Vec<Token>,
    pub refusal: Option<SyntaxRefusal>,
}

impl TokenList {
    ghost use Rattle.std.specs.Prelude.{◌≡◌, List, None, IfOk};
    ghost use Rattle.pawk_lex.specs.Tokens.{Tok};
    ghost use Rattle.pawk_lex.specs.Cut.{Cut};
    ghost use Rattle.pawk_lex.specs.TokenLists.{IsTokenListOf, values};

    /// Reads all tokens of a text, or those before the first that is refused, with that refusal.
    /// The only error is a refused allocation.
    pub fn read(alloc: Global, text: &[u8]) -> Result<TokenList, AllocError>
        // The text is cut into the tokens; or into tokens and a rest that is refused.
        ensures tokens { IfOk result (λ r. IsTokenListOf text.now r) }
        // A text that is cut into tokens is read as those.
        ensures whole { (ts : List Tok) → Cut text.now ts →
            IfOk result (λ r. (values r.tokens.items ≡ ts) × (r.refusal ≡ None)) }
    {
        let mut lexer = Lexer::new(alloc, text);
        let mut tokens = Vec::new(alloc);
        loop {
            match lexer.next() {
                Ok(Some(token)) => tokens.push(token)?,
                Ok(None) => return Ok(TokenList {
                    tokens,
                    refusal: None,
                }),
                Err(SyntaxRefusal::At { cause, place }) => {
                    let refusal = Some(SyntaxRefusal::At { cause, place });
                    return Ok(TokenList { tokens, refusal });
                }
                Err(SyntaxRefusal::Memory) => return Err(AllocError),
            }
        }
    }
}
