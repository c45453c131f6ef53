// Bounds of repetitions.

ghost use Rattle.pawk_ere_syntax.specs.Bounds.{after_comma, between, bound_at, from_least, most_of, number_at, number_more};
ghost use Rattle.pawk_ere_syntax.specs.Causes.{Stops, bound_cause, comma_cause, most_cause};
ghost use Rattle.pawk_ere_syntax.specs.declared.refusal.EreRefusal.TheVariants.{Form, Bound};
ghost use Rattle.pawk_ere_syntax.specs.Grammar.{IsSound};
ghost use Rattle.pawk_ere_syntax.specs.Limits.{greatest_bound};
ghost use Rattle.pawk_ere_syntax.specs.Refusals.{Gives};
ghost use Rattle.std.specs.Prelude.{◌≡◌, ◌+◌, ◌<◌, ◌≤◌, length, IfErr, IfOk};

use crate::limits::GREATEST_BOUND;
use crate::refusal::EreRefusal;
use crate::token::EreToken;

/// What stands for every number above the greatest bound.
const ABOVE: u16 = GREATEST_BOUND as u16 + 1;

/// The rest of a number, and what follows it.
fn more_digits(value: u16, text: &[u8]) -> (u16, &[u8])
    requires { value ≤ greatest_bound + 1 }
    ensures value { number_more value text.now ≡ (result.0, result.1.now) }
    ensures small { result.0 ≤ greatest_bound + 1 }
    ensures shorter { length result.1.now ≤ length text.now }
{
    let mut sum = value;
    let mut rest = text;
    while let [c, more @ ..] = rest {
        if *c < b'0' || *c > b'9' {
            break;
        }
        sum = (sum * 10 + u16::from(*c - b'0')).min(ABOVE);
        rest = more;
    }
    (sum, rest)
}

/// A number, and what follows it.
#[tactic(auto, unfolding(crate::specs::Bounds::number_at))]
fn number(text: &[u8]) -> Result<(u16, &[u8]), EreRefusal>
    ensures value { Gives (λ x. (x.0, x.1.now)) result (number_at text.now) }
    ensures stops { IfErr result (Stops (number_at text.now) Form) }
    ensures small { IfOk result (λ x. x.0 ≤ greatest_bound + 1) }
    ensures shorter { IfOk result (λ x. length x.1.now < length text.now) }
{
    match text {
        [c, rest @ ..] if *c >= b'0' && *c <= b'9' => Ok(more_digits(u16::from(*c - b'0'), rest)),
        _ => Err(EreRefusal::Form),
    }
}

/// A repetition of at least `least` turns, where that bound is not too great.
fn turns_from(least: u16, rest: &[u8]) -> Result<(EreToken, &[u8]), EreRefusal>
    ensures value { Gives (λ x. (x.0, x.1.now)) result (from_least least rest.now) }
    ensures stops { IfErr result (Stops (from_least least rest.now) Bound) }
    ensures same { IfOk result (λ x. x.1.now ≡ rest.now) }
    ensures sound { IfOk result (λ x. IsSound x.0) }
{
    if least > u16::from(GREATEST_BOUND) {
        return Err(EreRefusal::Bound);
    }
    Ok((EreToken::Times(least as u8, None), rest))
}

/// A repetition of `least` to `most` turns, where the bounds are in order and not too great.
fn turns_between(least: u16, most: u16, rest: &[u8]) -> Result<(EreToken, &[u8]), EreRefusal>
    ensures value { Gives (λ x. (x.0, x.1.now)) result (between least most rest.now) }
    ensures stops { IfErr result (Stops (between least most rest.now) Bound) }
    ensures same { IfOk result (λ x. x.1.now ≡ rest.now) }
    ensures sound { IfOk result (λ x. IsSound x.0) }
{
    if least > most || most > u16::from(GREATEST_BOUND) {
        return Err(EreRefusal::Bound);
    }
    Ok((EreToken::Times(least as u8, Some(most as u8)), rest))
}

/// The greater bound, and the closing brace.
fn greater_bound(least: u16, text: &[u8]) -> Result<(EreToken, &[u8]), EreRefusal>
    ensures value { Gives (λ x. (x.0, x.1.now)) result (most_of least (number_at text.now)) }
    ensures stops { IfErr result
        (Stops (most_of least (number_at text.now)) (most_cause (number_at text.now))) }
    ensures shorter { IfOk result (λ x. length x.1.now < length text.now) }
    ensures sound { IfOk result (λ x. IsSound x.0) }
{
    let (most, rest) = number(text)?;
    match rest {
        [c, rest @ ..] if *c == b'}' => turns_between(least, most, rest),
        _ => Err(EreRefusal::Form),
    }
}

/// What is after the comma of a bound.
fn open_bound(least: u16, text: &[u8]) -> Result<(EreToken, &[u8]), EreRefusal>
    ensures value { Gives (λ x. (x.0, x.1.now)) result (after_comma least text.now) }
    ensures stops { IfErr result (Stops (after_comma least text.now) (comma_cause text.now)) }
    ensures shorter { IfOk result (λ x. length x.1.now < length text.now) }
    ensures sound { IfOk result (λ x. IsSound x.0) }
{
    match text {
        [] => Err(EreRefusal::Form),
        [c, rest @ ..] => {
            if *c == b'}' {
                return turns_from(least, rest);
            }
            greater_bound(least, text)
        }
    }
}

/// What is after an opening brace. `Bound` is reported only where the brace has its form.
#[tactic(auto, unfolding(crate::specs::Bounds::bound_at))]
pub fn bound(text: &[u8]) -> Result<(EreToken, &[u8]), EreRefusal>
    ensures value { Gives (λ x. (x.0, x.1.now)) result (bound_at text.now) }
    ensures stops { IfErr result (Stops (bound_at text.now) (bound_cause (number_at text.now))) }
    ensures shorter { IfOk result (λ x. length x.1.now < length text.now) }
    ensures sound { IfOk result (λ x. IsSound x.0) }
{
    let (least, rest) = number(text)?;
    match rest {
        [] => Err(EreRefusal::Form),
        [c, rest @ ..] => {
            if *c == b'}' {
                return turns_between(least, least, rest);
            }
            if *c == b',' {
                return open_bound(least, rest);
            }
            Err(EreRefusal::Form)
        }
    }
}
