// A first look at a text: which form is not defined, and where. It keeps two words whatever the text.

ghost use Rattle.pawk_ere_syntax.specs.Causes.{IsFirstCause, Stops, place_cause, step_cause, token_cause};
ghost use Rattle.pawk_ere_syntax.specs.Refusals.{Gives, TellsOfForm};
ghost use Rattle.pawk_ere_syntax.specs.Grammar.{IsSound};
ghost use Rattle.pawk_ere_syntax.specs.Shape.{shape_after};
ghost use Rattle.pawk_ere_syntax.specs.declared.token.EreToken.TheVariants.{Close};
ghost use Rattle.pawk_ere_syntax.specs.Tokens.{HasForm, SpellsNone, token_at};
ghost use Rattle.std.specs.Prelude.{◌≡◌, ◌+◌, ◌<◌, ◌≤◌, ◌^◌, length, IfErr, IfOk};

use crate::lex::token;
use crate::refusal::EreRefusal;
use crate::token::EreToken;

/// What a branch ends with.
#[derive(Clone, Copy, PartialEq, Eq)]
enum Last {
    Nothing,
    /// An anchor or a repetition.
    Fixed,
    /// What may be repeated.
    Repeatable,
}

/// How many groups are open, and what the branch that is being read ends with.
#[derive(Clone, Copy)]
struct Shape {
    open_groups: usize,
    last: Last,
}

/// The shape after a token.
fn advance(shape: Shape, token: &EreToken) -> Result<Shape, EreRefusal>
    requires { shape.open_groups + 1 < 2 ^ 64 }
    ensures value { Gives (λ new. new) result (shape_after token.now shape) }
    ensures stops { IfErr result
        (Stops (shape_after token.now shape) (step_cause token.now shape)) }
    ensures grows { IfOk result (λ new. new.open_groups ≤ shape.open_groups + 1) }
{
    let open_groups = shape.open_groups;
    match token {
        EreToken::Leaf(_) => Ok(Shape {
            open_groups,
            last: Last::Repeatable,
        }),
        EreToken::Caret | EreToken::Dollar => Ok(Shape {
            open_groups,
            last: Last::Fixed,
        }),
        EreToken::Times(_, _) => match shape.last {
            Last::Repeatable => Ok(Shape {
                open_groups,
                last: Last::Fixed,
            }),
            _ => Err(EreRefusal::Form),
        },
        EreToken::Bar => match shape.last {
            Last::Nothing => Err(EreRefusal::Form),
            _ => Ok(Shape {
                open_groups,
                last: Last::Nothing,
            }),
        },
        EreToken::Open => Ok(Shape {
            open_groups: open_groups + 1,
            last: Last::Nothing,
        }),
        EreToken::Close => close(shape),
    }
}

/// The shape after a `)`.
fn close(shape: Shape) -> Result<Shape, EreRefusal>
    ensures value { Gives (λ new. new) result (shape_after Close shape) }
    ensures stops { IfErr result (Stops (shape_after Close shape) (step_cause Close shape)) }
    ensures shrinks { IfOk result (λ new. new.open_groups + 1 ≡ shape.open_groups) }
{
    if shape.open_groups == 0 {
        return Err(EreRefusal::Group);
    }
    match shape.last {
        Last::Nothing => Err(EreRefusal::Form),
        _ => Ok(Shape {
            open_groups: shape.open_groups - 1,
            last: Last::Repeatable,
        }),
    }
}

/// The first token, and what follows. Where no repetition is allowed, a `{` is reported as such, whatever its numbers.
fn next(shape: Shape, text: &[u8]) -> Result<(EreToken, &[u8]), EreRefusal>
    ensures value { Gives (λ x. (x.0, x.1.now)) result (token_at text.now) }
    ensures stops { IfErr result
        (Stops (token_at text.now) (place_cause shape.last (token_cause text.now))) }
    ensures shorter { IfOk result (λ x. length x.1.now < length text.now) }
    ensures sound { IfOk result (λ x. IsSound x.0) }
{
    match token(text) {
        Ok(found) => Ok(found),
        Err(EreRefusal::Bound) if shape.last != Last::Repeatable => Err(EreRefusal::Form),
        Err(why) => Err(why),
    }
}

/// Looks whether the text has the form of an expression, of whatever size.
pub fn check(text: &[u8]) -> Result<(), EreRefusal>
    requires { length text.now ≡ 0 → ⊥ }
    ensures form { IfOk result (λ x. HasForm text.now) }
    ensures refused { IfErr result (λ why. TellsOfForm why (SpellsNone text.now)) }
    ensures cause { IfErr result (IsFirstCause text.now) }
{
    let mut shape = Shape {
        open_groups: 0,
        last: Last::Nothing,
    };
    let mut rest = text;
    while !rest.is_empty() {
        let (token, more) = next(shape, rest)?;
        shape = advance(shape, &token)?;
        rest = more;
    }
    if shape.open_groups != 0 {
        return Err(EreRefusal::Group);
    }
    match shape.last {
        Last::Nothing => Err(EreRefusal::Form),
        _ => Ok(()),
    }
}
