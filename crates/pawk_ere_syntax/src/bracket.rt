// Bracket expressions.

ghost use Rattle.pawk_ere_syntax.specs.Brackets.{begins, bracket_at, class_at, from_point, goes_on, item_at, item_ranges, items, point_at, range_to};
ghost use Rattle.pawk_ere_syntax.specs.Causes.{Stops, bracket_cause, from_cause, item_cause, items_cause, point_cause, range_cause};
ghost use Rattle.pawk_ere_syntax.specs.declared.refusal.EreRefusal.TheVariants.{Bracket};
ghost use Rattle.pawk_ere_syntax.specs.Refusals.{Gives};
ghost use Rattle.pawk_ere_syntax.specs.Sets.{none, with_ranges};
ghost use Rattle.std.specs.Prelude.{◌≡◌, ℕ, ◌+◌, ◌<◌, ◌≤◌, ◌&&◌, true, false, not, drop, length, None, Some, IfErr, IfOk, IfSome, MatchOption};

use crate::byte_set::ByteSet;
use crate::class::{CLASSES, Class, class_among};
use crate::escape::escape;
use crate::refusal::EreRefusal;

/// An item of a bracket expression: the bytes from one to another, both included, or a class.
#[derive(Clone, Copy)]
pub enum BracketItem {
    Range(u8, u8),
    Class(Class),
}

/// Whether the text begins with the byte.
fn begins(byte: u8, text: &[u8]) -> bool
    ensures { result ≡ begins byte text.now }
{
    match text {
        [] => false,
        [c, ..] => *c == byte,
    }
}

/// The class after `[:`.
#[tactic(auto, unfolding(crate::specs::Brackets::class_at))]
fn class_item(text: &[u8]) -> Result<(BracketItem, &[u8]), EreRefusal>
    ensures value { Gives (λ x. (x.0, x.1.now)) result (class_at text.now) }
    ensures stops { IfErr result (Stops (class_at text.now) Bracket) }
    ensures shorter { IfOk result (λ x. length x.1.now ≤ length text.now) }
{
    match class_among(&CLASSES, text) {
        Some((class, rest)) => Ok((BracketItem::Class(class), rest)),
        None => Err(EreRefusal::Bracket),
    }
}

/// A point: a byte itself, or one that an escape makes.
#[tactic(auto, unfolding(crate::specs::Brackets::point_at, crate::specs::Causes::point_cause))]
fn point(text: &[u8]) -> Result<(u8, &[u8]), EreRefusal>
    ensures value { Gives (λ x. (x.0, x.1.now)) result (point_at text.now) }
    ensures stops { IfErr result (Stops (point_at text.now) (point_cause text.now)) }
    ensures shorter { IfOk result (λ x. length x.1.now < length text.now) }
{
    match text {
        [] => Err(EreRefusal::Bracket),
        [c, rest @ ..] => {
            if *c == b'\\' {
                return escape(rest);
            }
            if *c == b'[' && (begins(b':', rest) || begins(b'.', rest) || begins(b'=', rest)) {
                return Err(EreRefusal::Bracket);
            }
            Ok((*c, rest))
        }
    }
}

/// Whether a `-` is next that is not the last item.
fn is_range(text: &[u8]) -> bool
    ensures { result ≡ goes_on text.now }
{
    match text {
        [] => false,
        [c, rest @ ..] => *c == b'-' && !begins(b']', rest),
    }
}

/// A range up to the point that is next.
fn range_from(low: u8, text: &[u8]) -> Result<(BracketItem, &[u8]), EreRefusal>
    ensures value { Gives (λ x. (x.0, x.1.now)) result (range_to low (point_at text.now)) }
    ensures stops { IfErr result (Stops (range_to low (point_at text.now))
        (range_cause (point_at text.now) (point_cause text.now))) }
    ensures shorter { IfOk result (λ x. length x.1.now < length text.now) }
{
    let (high, rest) = point(text)?;
    if low > high {
        return Err(EreRefusal::Bracket);
    }
    Ok((BracketItem::Range(low, high), rest))
}

/// A point, or a range from it.
fn point_or_range(text: &[u8]) -> Result<(BracketItem, &[u8]), EreRefusal>
    ensures value { Gives (λ x. (x.0, x.1.now)) result (from_point (point_at text.now)) }
    ensures stops { IfErr result (Stops (from_point (point_at text.now))
        (from_cause (point_at text.now) (point_cause text.now))) }
    ensures shorter { IfOk result (λ x. length x.1.now < length text.now) }
{
    let (low, rest) = point(text)?;
    if is_range(rest) {
        return range_from(low, &rest[1..]);
    }
    Ok((BracketItem::Range(low, low), rest))
}

/// An item.
#[tactic(auto, unfolding(crate::specs::Brackets::item_at, crate::specs::Causes::item_cause))]
fn one_item(first: bool, text: &[u8]) -> Result<(BracketItem, &[u8]), EreRefusal>
    ensures value { Gives (λ x. (x.0, x.1.now)) result (item_at first text.now) }
    ensures stops { IfErr result (Stops (item_at first text.now) (item_cause first text.now)) }
    ensures shorter { IfOk result (λ x. length x.1.now < length text.now) }
{
    match text {
        [] => Err(EreRefusal::Bracket),
        [c, rest @ ..] => {
            if *c == b'[' && begins(b':', rest) {
                return class_item(&rest[1..]);
            }
            if *c == b'-' && !first {
                if begins(b']', rest) {
                    return Ok((BracketItem::Range(b'-', b'-'), rest));
                }
                return Err(EreRefusal::Bracket);
            }
            point_or_range(text)
        }
    }
}

/// Adds the bytes of an item.
fn insert_item(set: &mut ByteSet, item: BracketItem)
    ensures { set.new.members ≡ with_ranges (item_ranges item) set.old.members }
{
    match item {
        BracketItem::Range(low, high) => set.insert_range(low, high),
        BracketItem::Class(class) => set.insert_ranges(class.ranges()),
    }
}

/// What follows the `]` that ends the items, if it is next.
fn end(first: bool, text: &[u8]) -> Option<&[u8]>
    ensures value { let ends = begins 93 text.now && not first in
        MatchOption result (ends ≡ false) (λ rest. (ends ≡ true) × (rest.now ≡ drop 1 text.now)) }
    ensures shorter { IfSome result (λ rest. length rest.now < length text.now) }
{
    match text {
        [c, rest @ ..] if *c == b']' && !first => Some(rest),
        _ => None,
    }
}

/// The items up to the `]` that ends them, as a set, and what follows.
fn items_of(text: &[u8]) -> Result<(ByteSet, &[u8]), EreRefusal>
    ensures value { (n : ℕ) → length text.now ≤ n
        → Gives (λ x. (x.0.members, x.1.now)) result (items n none true text.now) }
    ensures stops { (n : ℕ) → length text.now ≤ n
        → IfErr result (Stops (items n none true text.now) (items_cause n true text.now)) }
    ensures shorter { IfOk result (λ x. length x.1.now < length text.now) }
{
    let mut set = ByteSet::none();
    let mut first = true;
    let mut rest = text;
    while !rest.is_empty() {
        match end(first, rest) {
            Some(after) => return Ok((set, after)),
            None => {}
        }
        let (next, more) = one_item(first, rest)?;
        insert_item(&mut set, next);
        first = false;
        rest = more;
    }
    Err(EreRefusal::Bracket)
}

/// What is after `[`: the set, and what follows.
#[tactic(auto, unfolding(crate::specs::Brackets::bracket_at, crate::specs::Causes::bracket_cause))]
pub fn bracket(text: &[u8]) -> Result<(ByteSet, &[u8]), EreRefusal>
    ensures value { Gives (λ x. (x.0.members, x.1.now)) result (bracket_at text.now) }
    ensures stops { IfErr result (Stops (bracket_at text.now) (bracket_cause text.now)) }
    ensures shorter { IfOk result (λ x. length x.1.now ≤ length text.now) }
{
    if begins(b'^', text) {
        let (set, rest) = items_of(&text[1..])?;
        return Ok((set.complement(), rest));
    }
    items_of(text)
}
