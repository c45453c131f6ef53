//! A cursor over tokens.

ghost use Rattle.std.specs.Prelude.{◌≡◌, length, drop, OnOk, OnErr, nat_le, true, false};
ghost use Rattle.pawk_syntax_tree.specs.Parse as spec;
ghost use Rattle.pawk_syntax_parse.specs.Reads.{input, Gives, nothing};

use pawk_lex::refusal::{Cause, SyntaxRefusal};
use pawk_lex::token::{Mark, Token, TokenValue};
use pawk_syntax_tree::tree::Double;

/// How high a tree may be.
pub const GREATEST_HEIGHT: usize = 200;

/// The tokens that are left of a text, and what ends them.
#[derive(Clone, Copy)]
pub struct Cursor<'t> {
    pub rest: &'t [Token],
    /// How many bytes the text has.
    pub size: usize,
    /// Why the text has no more tokens, where that is not its end.
    pub refusal: Option<SyntaxRefusal>,
    /// Where the item begins that is read.
    pub item: usize,
}

impl<'t> Cursor<'t> {
    /// How many tokens there are.
    pub fn left(&self) -> usize
        ensures { result ≡ length (input self.now) }
    {
        self.rest.len()
    }

    /// Where the next token begins, or the text ends.
    pub fn place(&self) -> usize {
        match self.rest {
            [] => self.size,
            [next, ..] => next.span.start,
        }
    }

    /// Why the next token, or the end of the text, is not allowed here; `compares` says that `>` is a
    /// comparison.
    pub fn refuse(&self, compares: bool) -> SyntaxRefusal {
        match self.rest {
            [] => self.refusal.unwrap_or(SyntaxRefusal::At {
                cause: Cause::Unexpected,
                place: self.size.saturating_add(1),
            }),
            [next, ..] => {
                let cause = if !compares && matches!(&next.value, TokenValue::Mark(Mark::Greater)) {
                    Cause::InputOutput
                } else {
                    Cause::Unexpected
                };
                SyntaxRefusal::At {
                    cause,
                    place: next.span.start.saturating_add(1),
                }
            }
        }
    }

    /// The refusal of an item that is too high or nests too deep.
    pub fn too_deep(&self) -> SyntaxRefusal {
        SyntaxRefusal::At {
            cause: Cause::Nesting,
            place: self.item.saturating_add(1),
        }
    }

    /// A height that a tree may have.
    pub fn low(&self, height: usize) -> Result<(), SyntaxRefusal>
        ensures ok { OnOk result (nat_le height 200 ≡ true) }
        ensures err { OnErr result (nat_le height 200 ≡ false) }
    {
        if height <= GREATEST_HEIGHT {
            Ok(())
        } else {
            Err(self.too_deep())
        }
    }

    /// Whether this sign is the next token.
    #[tactic(auto, unfolding(pawk_syntax_tree::specs::Parse::sees, pawk_syntax_tree::specs::Parse::same_mark))]
    pub fn sees(&self, sign: Mark) -> bool
        ensures { result ≡ spec.sees sign (input self.now) }
    {
        match self.rest {
            [] => false,
            [next, ..] => match &next.value {
                TokenValue::Mark(mark) => *mark == sign,
                _ => false,
            },
        }
    }

    /// Passes over a token, if there is one.
    pub fn pass(&mut self)
        ensures { input self.new ≡ drop 1 (input self.old) }
    {
        if let [_, rest @ ..] = self.rest {
            self.rest = rest;
        }
    }

    /// Passes over the next token if it is this sign, and says whether it was.
    #[tactic(auto, unfolding(pawk_syntax_tree::specs::Parse::after))]
    pub fn eat(&mut self, sign: Mark) -> bool
        ensures seen { result ≡ spec.sees sign (input self.old) }
        ensures after { input self.new ≡ spec.after sign (input self.old) }
    {
        let seen = self.sees(sign);
        if seen {
            self.pass();
        }
        seen
    }

    /// Passes over this sign, or refuses the next token where it is another; `compares` is as for `refuse`.
    #[tactic(auto, unfolding(pawk_syntax_tree::specs::Parse::expect))]
    pub fn expect(&mut self, sign: Mark, compares: bool) -> Result<(), SyntaxRefusal>
        ensures { Gives nothing (spec.expect sign (input self.old)) result (input self.new) }
    {
        if self.sees(sign) {
            self.pass();
            Ok(())
        } else {
            Err(self.refuse(compares))
        }
    }

    /// Passes over the newlines that come next.
    #[tactic(auto, using(crate::proofs::Lines::one_line, crate::proofs::Lines::shorter, crate::proofs::Lines::no_line_left))]
    pub fn skip_lines(&mut self)
        ensures { input self.new ≡ spec.skip_lines (input self.old) }
    {
        while self.sees(Mark::Newline) {
            self.pass();
        }
    }

    /// Passes over the newlines that may follow this operator: those after `||` and `&&`.
    #[tactic(auto, unfolding(pawk_syntax_tree::specs::Parse::after_op))]
    pub fn after_op(&mut self, op: Double)
        ensures { input self.new ≡ spec.after_op op (input self.old) }
    {
        match op {
            Double::Or | Double::And => self.skip_lines(),
            _ => {}
        }
    }
}
