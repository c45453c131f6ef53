// Building the tree of an expression, token by token.

ghost use Rattle.pawk_ere_syntax.specs.Builder.{alternation_of, builder_of, option_of};
ghost use Rattle.pawk_ere_syntax.specs.Limits.{greatest_size};
ghost use Rattle.pawk_ere_syntax.specs.Machine.{after_bar, after_close, after_times, branch_with, finish, gain, nothing, put, repeated_piece, start, step, weight, whole, with_piece};
ghost use Rattle.pawk_ere_syntax.specs.Refusals.{Gives};
ghost use Rattle.pawk_ere_syntax.specs.Tree.{pattern_of};
ghost use Rattle.std.specs.Prelude.{◌≡◌, ◌+◌, ◌<◌, ◌≤◌, ◌∷◌, IfOk, MatchOption, Some};

use crate::expression::{Expression, repeated_size_of, size_of};
use crate::limits::GREATEST_SIZE;
use crate::refusal::EreRefusal;
use crate::token::EreToken;
use std::alloc::{AllocError, Global};

/// What is read of an alternation: the alternatives before the last bar, what is after it before the last piece, and
/// the last piece.
#[derive(Drop)]
struct Alternation {
    alternatives: Option<Expression>,
    branch: Option<Expression>,
    piece: Option<Expression>,
}

impl Alternation {
    /// Nothing is read.
    fn new() -> Alternation
        ensures { alternation_of result ≡ nothing }
    {
        Alternation {
            alternatives: None,
            branch: None,
            piece: None,
        }
    }

    /// The whole of it, if its last branch is not empty.
    fn whole(self, alloc: Global) -> Result<Option<Expression>, AllocError>
        ensures { IfOk result (λ o. option_of o ≡ whole (alternation_of self)) }
    {
        let Alternation {
            alternatives,
            branch,
            piece,
        } = self;
        match branch_with(alloc, branch, piece)? {
            None => Ok(None),
            Some(b) => match alternatives {
                None => Ok(Some(b)),
                Some(a) => Ok(Some(Expression::Either(Box::new(alloc, a)?, Box::new(alloc, b)?))),
            },
        }
    }

    /// The alternation with one more piece at its end.
    fn put(self, alloc: Global, piece: Expression) -> Result<Alternation, AllocError>
        ensures { let old = alternation_of self in
            IfOk result (λ a. alternation_of a ≡ put old (pattern_of piece)) }
    {
        let Alternation {
            alternatives,
            branch,
            piece: last,
        } = self;
        Ok(Alternation {
            alternatives,
            branch: branch_with(alloc, branch, last)?,
            piece: Some(piece),
        })
    }
}

/// A branch with one more piece, where there is one.
fn branch_with(
    alloc: Global,
    branch: Option<Expression>,
    piece: Option<Expression>,
) -> Result<Option<Expression>, AllocError>
    ensures { IfOk result (λ o. option_of o ≡ branch_with (option_of branch) (option_of piece)) }
{
    match piece {
        None => Ok(branch),
        Some(p) => match branch {
            None => Ok(Some(p)),
            Some(b) => Ok(Some(Expression::Sequence(Box::new(alloc, b)?, Box::new(alloc, p)?))),
        },
    }
}

/// The piece, repeated. Only a byte set or a group may be.
fn repeat(
    alloc: Global,
    piece: Option<Expression>,
    least: u8,
    most: Option<u8>,
) -> Result<Expression, EreRefusal>
    ensures { Gives pattern_of result (repeated_piece (option_of piece) least most) }
{
    match piece {
        Some(Expression::Bytes(set)) => Ok(Expression::Repeat(
            Box::new(alloc, Expression::Bytes(set))?,
            least,
            most,
        )),
        Some(Expression::Group(a)) => Ok(Expression::Repeat(
            Box::new(alloc, Expression::Group(a))?,
            least,
            most,
        )),
        _ => Err(EreRefusal::Form),
    }
}

/// The alternation that is being read, and those around it, the innermost last.
#[derive(Drop)]
pub struct Builder {
    here: Alternation,
    outer: Vec<Alternation>,
}

impl Builder {
    /// A builder that has read nothing yet.
    pub fn new(alloc: Global) -> Builder
        ensures { builder_of result ≡ start }
    {
        Builder {
            here: Alternation::new(),
            outer: Vec::new(alloc),
        }
    }

    fn put(self, alloc: Global, piece: Expression) -> Result<Builder, AllocError>
        ensures { let old = builder_of self in
            IfOk result (λ b. builder_of b ≡ with_piece old (pattern_of piece)) }
    {
        let Builder { here, outer } = self;
        Ok(Builder {
            here: here.put(alloc, piece)?,
            outer,
        })
    }

    fn after_times(self, alloc: Global, least: u8, most: Option<u8>) -> Result<Builder, EreRefusal>
        ensures { let repeated = repeated_piece (builder_of self).here.piece least most in
            Gives builder_of result (after_times (builder_of self) repeated) }
    {
        let Builder { here, outer } = self;
        let Alternation {
            alternatives,
            branch,
            piece,
        } = here;
        let piece = Some(repeat(alloc, piece, least, most)?);
        Ok(Builder {
            here: Alternation {
                alternatives,
                branch,
                piece,
            },
            outer,
        })
    }

    fn after_bar(self, alloc: Global) -> Result<Builder, EreRefusal>
        ensures { let old = builder_of self in
            Gives builder_of result (after_bar old (whole old.here)) }
    {
        let Builder { here, outer } = self;
        match here.whole(alloc)? {
            None => Err(EreRefusal::Form),
            Some(a) => Ok(Builder {
                here: Alternation {
                    alternatives: Some(a),
                    branch: None,
                    piece: None,
                },
                outer,
            }),
        }
    }

    fn after_open(self) -> Result<Builder, EreRefusal>
        ensures { let old = builder_of self in
            Gives builder_of result (Some (record { here = nothing; outer = old.here ∷ old.outer })) }
    {
        let Builder { here, mut outer } = self;
        outer.push(here)?;
        Ok(Builder {
            here: Alternation {
                alternatives: None,
                branch: None,
                piece: None,
            },
            outer,
        })
    }

    fn after_close(self, alloc: Global) -> Result<Builder, EreRefusal>
        ensures { let old = builder_of self in
            Gives builder_of result (after_close (whole old.here) old.outer) }
    {
        let Builder { here, mut outer } = self;
        match here.whole(alloc)? {
            None => Err(EreRefusal::Form),
            Some(a) => match outer.pop() {
                None => Err(EreRefusal::Group),
                Some(around) => Ok(Builder {
                    here: around.put(alloc, Expression::Group(Box::new(alloc, a)?))?,
                    outer,
                }),
            },
        }
    }

    /// The builder after one more token.
    pub fn advance(self, alloc: Global, token: EreToken) -> Result<Builder, EreRefusal>
        ensures { Gives builder_of result (step token (builder_of self)) }
    {
        match token {
            EreToken::Leaf(set) => {
                let set = Box::new(alloc, set)?;
                Ok(self.put(alloc, Expression::Bytes(set))?)
            }
            EreToken::Caret => Ok(self.put(alloc, Expression::Start)?),
            EreToken::Dollar => Ok(self.put(alloc, Expression::End)?),
            EreToken::Times(least, most) => self.after_times(alloc, least, most),
            EreToken::Bar => self.after_bar(alloc),
            EreToken::Open => self.after_open(),
            EreToken::Close => self.after_close(alloc),
        }
    }

    /// What was read, at the end.
    pub fn finish(self, alloc: Global) -> Result<Expression, EreRefusal>
        ensures { Gives pattern_of result (finish (builder_of self)) }
    {
        let Builder { here, outer } = self;
        if !outer.is_empty() {
            return Err(EreRefusal::Group);
        }
        match here.whole(alloc)? {
            None => Err(EreRefusal::Form),
            Some(e) => Ok(e),
        }
    }

    /// By how much a token makes what was read larger, where that is at most the greatest size.
    fn gain(&self, token: &EreToken) -> Option<u32>
        requires { weight (builder_of self.now) ≤ greatest_size }
        ensures { let gained = gain token.now (builder_of self.now) in
            MatchOption result (greatest_size < weight (builder_of self.now) + gained) (λ n. n ≡ gained) }
    {
        match token {
            EreToken::Leaf(_)
            | EreToken::Caret
            | EreToken::Dollar
            | EreToken::Bar
            | EreToken::Open => Some(1),
            EreToken::Close => Some(0),
            EreToken::Times(least, most) => match &self.here.piece {
                None => Some(repeated_size_of(0, *least, *most)),
                Some(piece) => {
                    let size = size_of(piece)?;
                    Some(repeated_size_of(size, *least, *most).saturating_sub(size))
                }
            },
        }
    }

    /// The size of what was read once the token is, where that is at most the greatest size.
    pub fn size_after(&self, size: u32, token: &EreToken) -> Option<u32>
        requires sized { size ≡ weight (builder_of self.now) }
        requires small { size ≤ greatest_size }
        ensures { let larger = weight (builder_of self.now) + gain token.now (builder_of self.now) in
            MatchOption result (greatest_size < larger) (λ n. (n ≡ larger) × (n ≤ greatest_size)) }
    {
        let size = size.checked_add(self.gain(token)?)?;
        if size > GREATEST_SIZE {
            return None;
        }
        Some(size)
    }
}
