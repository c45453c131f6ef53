// Searches for an expression that is n bytes of one set, or one or more of them, and nothing else.

ghost use Rattle.pawk_ere_automaton.specs.Members.{members_of};
ghost use Rattle.pawk_ere.specs.Runs.{AllHold, IsRun, IsTurns, NoneHolds};
ghost use Rattle.pawk_ere_automaton.specs.Regex.{Regex, Takes};
ghost use Rattle.pawk_ere_automaton.specs.Tree.{regex_of};
ghost use Rattle.pawk_ere_syntax.specs.Pattern.{HasMatch, Holds, IsFound};
ghost use Rattle.pawk_ere_syntax.specs.Sets.{IsOnlyMember};
ghost use Rattle.std.specs.Prelude.{◌↔◌, ◌<◌, ◌≤◌, length, slice_index, IfSome, IsTrue, MatchOption};

use memchr::memchr;
use pawk_ere_automaton::{Members, Node};

/// The byte set and the number of bytes, where the expression is seen to match n bytes of one set and nothing else.
pub fn run_of(node: &Node) -> Option<(&Members, usize)>
    ensures { IfSome result (λ run. IsRun (regex_of node.now) (members_of run.0.now) run.1) }
{
    match node {
        Node::Bytes(set) => Some((set, 1)),
        Node::Sequence(a, b) => {
            if let Node::Empty = &**b {
                return run_of(a);
            }
            None
        }
        Node::Copies(copies, a) => {
            let (set, count) = run_of(a)?;
            let count = (*copies as usize).checked_mul(count)?;
            Some((set, count))
        }
        Node::Empty
        | Node::Start
        | Node::End
        | Node::Either(_, _)
        | Node::Star(_)
        | Node::Plus(_) => None,
    }
}

/// The byte set, where the expression is seen to match one byte of it or more and nothing else.
pub fn turns_of(node: &Node) -> Option<&Members>
    ensures { IfSome result (λ set. IsTurns (regex_of node.now) (members_of set.now)) }
{
    match node {
        Node::Sequence(a, b) => {
            if let Node::Empty = &**b {
                return turns_of(a);
            }
            None
        }
        Node::Plus(turn) => {
            let (set, count) = run_of(turn)?;
            if count == 1 {
                return Some(set);
            }
            None
        }
        Node::Empty
        | Node::Start
        | Node::End
        | Node::Bytes(_)
        | Node::Either(_, _)
        | Node::Copies(_, _)
        | Node::Star(_) => None,
    }
}

/// The last place from `low` on and before `high` whose byte does not belong to the set.
fn last_other(set: &Members, text: &[u8], low: usize, high: usize) -> Option<usize>
    requires { high ≤ length text.now }
    ensures { MatchOption result (AllHold (members_of set.now) text.now low high)
        (λ place. (low ≤ place) × (place < high)
        × (Holds (members_of set.now) (slice_index text.now place) → ⊥)) }
{
    let mut place = high;
    while low < place {
        place -= 1;
        if !set.contains(text[place]) {
            return Some(place);
        }
    }
    None
}

/// The first place from `from` on whose byte belongs to the set, if there is one.
fn first_member(set: &Members, text: &[u8], from: usize) -> Option<usize>
    requires { from ≤ length text.now }
    ensures { MatchOption result
        (NoneHolds (members_of set.now) text.now from (length text.now))
        (λ place. (from ≤ place) × (place < length text.now)
        × Holds (members_of set.now) (slice_index text.now place)
        × NoneHolds (members_of set.now) text.now from place) }
{
    let mut place = from;
    while place < text.len() {
        if set.contains(text[place]) {
            return Some(place);
        }
        place += 1;
    }
    None
}

/// The leftmost match of an expression that matches one byte of the set and nothing else.
fn search_one(set: &Members, text: &[u8], from: usize) -> Option<(usize, usize)>
    requires { from ≤ length text.now }
    ensures { (e : Regex) → IsRun e (members_of set.now) 1 → IsFound (Takes e text.now) from result }
{
    match first_member(set, text, from) {
        None => None,
        Some(place) => Some((place, place + 1)),
    }
}

/// The leftmost match of an expression that matches `count` bytes of the set and nothing else. No byte is read more than
/// twice: a byte of another kind ends each match that starts before it.
pub fn search_run(set: &Members, count: usize, text: &[u8], from: usize) -> Option<(usize, usize)>
    requires some { 1 ≤ count }
    requires within { from ≤ length text.now }
    ensures { (e : Regex) → IsRun e (members_of set.now) count → IsFound (Takes e text.now) from result }
{
    if count == 1 {
        return search_one(set, text, from);
    }
    let mut start = from;
    while count <= text.len() - start {
        match last_other(set, text, start, start + count) {
            None => return Some((start, start + count)),
            Some(place) => start = place + 1,
        }
    }
    None
}

/// Whether `count` bytes of the set come in a row at `from` or later.
pub fn has_run(set: &Members, count: usize, text: &[u8], from: usize) -> bool
    requires some { 1 ≤ count }
    requires within { from ≤ length text.now }
    ensures { (e : Regex) → IsRun e (members_of set.now) count
        → IsTrue result ↔ HasMatch (Takes e text.now) from }
{
    match search_run(set, count, text, from) {
        None => false,
        Some(_) => true,
    }
}

/// The first place from `from` on whose byte does not belong to the set, or the end of the text.
fn members_end(set: &Members, text: &[u8], from: usize) -> usize
    requires { from ≤ length text.now }
    ensures after { from ≤ result }
    ensures all { AllHold (members_of set.now) text.now from result }
    ensures other { result < length text.now
        → Holds (members_of set.now) (slice_index text.now result) → ⊥ }
{
    let mut end = from;
    while end < text.len() {
        if !set.contains(text[end]) {
            return end;
        }
        end += 1;
    }
    end
}

/// The first place from `from` on whose byte belongs to the set, if there is one, of which `only` is the one member where it
/// has no other.
fn first_place(set: &Members, only: Option<u8>, text: &[u8], from: usize) -> Option<usize>
    requires only { IfSome only (λ byte. IsOnlyMember (members_of set.now) byte) }
    requires within { from ≤ length text.now }
    ensures { MatchOption result
        (NoneHolds (members_of set.now) text.now from (length text.now))
        (λ place. (from ≤ place) × (place < length text.now)
        × Holds (members_of set.now) (slice_index text.now place)
        × NoneHolds (members_of set.now) text.now from place) }
{
    let Some(byte) = only else {
        return first_member(set, text, from);
    };
    match memchr(byte, &text[from..]) {
        None => None,
        Some(ahead) => Some(from + ahead),
    }
}

/// The leftmost match of an expression that matches one byte of the set or more and nothing else, and of those from there the
/// longest. `only` is the one member of the set where it has no other. No byte is read twice.
pub fn search_turns(
    set: &Members,
    only: Option<u8>,
    text: &[u8],
    from: usize,
) -> Option<(usize, usize)>
    requires only { IfSome only (λ byte. IsOnlyMember (members_of set.now) byte) }
    requires within { from ≤ length text.now }
    ensures { (e : Regex) → IsTurns e (members_of set.now) → IsFound (Takes e text.now) from result }
{
    match first_place(set, only, text, from) {
        None => None,
        Some(start) => Some((start, members_end(set, text, start + 1))),
    }
}

/// Whether a byte of the set occurs at `from` or later. `only` is its one member where it has no other.
pub fn has_turns(set: &Members, only: Option<u8>, text: &[u8], from: usize) -> bool
    requires only { IfSome only (λ byte. IsOnlyMember (members_of set.now) byte) }
    requires within { from ≤ length text.now }
    ensures { (e : Regex) → IsTurns e (members_of set.now)
        → IsTrue result ↔ HasMatch (Takes e text.now) from }
{
    match search_turns(set, only, text, from) {
        None => false,
        Some(_) => true,
    }
}
