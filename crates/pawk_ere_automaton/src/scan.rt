// Walks over a text, from state to state.

ghost use Rattle.pawk_ere_automaton.specs.Hints.{BeginsWith};
ghost use Rattle.pawk_ere_syntax.specs.Pattern.{HasMatch, IsFound, IsLongest, MayStart, NoneFrom, StartsNone};
ghost use Rattle.pawk_ere_automaton.specs.Misses.{AreMissesOf};
ghost use Rattle.pawk_ere_automaton.specs.Regex.{Regex, Takes};
ghost use Rattle.pawk_ere_automaton.specs.Table.{IsTable};
ghost use Rattle.pawk_ere_automaton.specs.Tree.{regex_of};
ghost use Rattle.std.specs.Prelude.{◌≡◌, ◌≢◌, ◌↔◌, ℕ, ◌+◌, ◌<◌, ◌≤◌, length, slice_index, IfOk, IfSome, IsTrue, MatchOption};
ghost use Rattle.std.specs.Bool.{OnFalse};

use crate::misses::Misses;
use crate::node::Node;
use crate::notes::{note_starts, note_walk};
use crate::table::{BYTES, FIRST, IDLE, LATER, OPEN, StateTable, close, found_after, state_after};
use memchr::memchr;
use std::alloc::{AllocError, Global};

/// Where the links of the idle state lie.
const IDLE_LINKS: usize = IDLE * BYTES;

/// An expression with at least this number of places is first tried at the place where the search begins.
const WIDE: usize = 128;

/// The place from a place on up to which each byte keeps the idle state.
#[inline(always)]
fn row_end(table: &StateTable, text: &[u8], place: usize) -> usize
    requires wide { 1024 ≤ length table.now.next.items }
    requires within { place ≤ length text.now }
    ensures after { place ≤ result }
    ensures within { result ≤ length text.now }
    ensures idle { (k : ℕ) → place ≤ k → k < result
        → slice_index table.now.next.items (768 + slice_index text.now k) ≡ 3 }
{
    let mut end = place;
    while end < text.len() {
        if table.next[IDLE_LINKS + text[end] as usize] != IDLE as u16 {
            return end;
        }
        end += 1;
    }
    end
}

/// The first place from a place on where the byte occurs, or the end of the text.
fn byte_end(byte: u8, text: &[u8], place: usize) -> usize
    requires { place ≤ length text.now }
    ensures after { place ≤ result }
    ensures within { result ≤ length text.now }
    ensures none { (k : ℕ) → place ≤ k → k < result → slice_index text.now k ≢ byte }
{
    match memchr(byte, &text[place..]) {
        None => text.len(),
        Some(ahead) => place + ahead,
    }
}

/// A place at or after a place past the text's first, before which no match starts.
#[inline(always)]
fn idle_end(node: &Node, table: &StateTable, first: Option<u8>, text: &[u8], place: usize) -> usize
    requires table { IsTable (regex_of node.now) table.now }
    requires begins { IfSome first (λ byte. BeginsWith (regex_of node.now) byte) }
    requires later { 0 < place }
    requires within { place ≤ length text.now }
    ensures after { place ≤ result }
    ensures within { result ≤ length text.now }
    ensures none { (k : ℕ) → place ≤ k → k < result
        → StartsNone (Takes (regex_of node.now) text.now) k }
{
    if let Some(byte) = first {
        return byte_end(byte, text, place);
    }
    if table.states[IDLE].ends_inside {
        return place;
    }
    row_end(table, text, place)
}

/// If there is a match at `from` or later: a place before which none starts, and where the first one ends. One walk
/// finds both, for all starts at once. An `Err` leaves a table too.
pub fn first_start(
    alloc: Global,
    node: &Node,
    table: &mut StateTable,
    first: Option<u8>,
    text: &[u8],
    from: usize,
) -> Result<Option<(usize, usize)>, AllocError>
    requires table { IsTable (regex_of node.now) table.old }
    requires begins { IfSome first (λ byte. BeginsWith (regex_of node.now) byte) }
    requires within { from ≤ length text.now }
    ensures table { IsTable (regex_of node.now) table.new }
    ensures start { IfOk result (λ start. MatchOption start
        (NoneFrom (Takes (regex_of node.now) text.now) from)
        (λ x. MayStart (Takes (regex_of node.now) text.now) from x.0 × (x.0 ≤ x.1)
        × (x.1 ≤ length text.now))) }
{
    let mut begin = from;
    let mut place = from;
    let mut at = if from == 0 { OPEN } else { IDLE };
    while place < text.len() {
        let state = &table.states[at];
        if state.ends_inside {
            return Ok(Some((begin, place)));
        }
        if state.is_dead {
            return Ok(None);
        }
        let next = table.next[at * BYTES + text[place] as usize] as usize;
        at = if next != 0 {
            next
        } else {
            found_after(alloc, node, table, at, text[place])?
        };
        place += 1;
        if at == IDLE {
            place = idle_end(node, table, first, text, place);
            begin = place;
        }
    }
    if table.states[at].ends_at_end {
        return Ok(Some((begin, place)));
    }
    Ok(None)
}

/// What a walk from a place has come to.
#[derive(Clone, Copy)]
struct Walk {
    /// Where the longest match ends, if there is one.
    best: Option<usize>,
    /// Where the walk ended.
    end: usize,
}

/// Where the longest match from a place ends. An `Err` leaves a table too.
#[inline(always)]
fn longest_from(
    alloc: Global,
    node: &Node,
    table: &mut StateTable,
    text: &[u8],
    from: usize,
) -> Result<Walk, AllocError>
    requires table { IsTable (regex_of node.now) table.old }
    requires within { from ≤ length text.now }
    ensures table { IsTable (regex_of node.now) table.new }
    ensures end { IfOk result (λ walk. walk.end ≤ length text.now) }
    ensures longest { IfOk result (λ walk. MatchOption walk.best
        (StartsNone (Takes (regex_of node.now) text.now) from)
        (IsLongest (Takes (regex_of node.now) text.now) from)) }
{
    let mut best = None;
    let mut place = from;
    let mut at = if from == 0 { FIRST } else { LATER };
    while place < text.len() {
        let state = &table.states[at];
        if state.ends_inside {
            best = Some(place);
        }
        if state.is_dead {
            return Ok(Walk { best, end: place });
        }
        at = state_after(alloc, node, table, at, text[place])?;
        place += 1;
    }
    if table.states[at].ends_at_end {
        best = Some(place);
    }
    Ok(Walk { best, end: place })
}

/// What `longest_from` answers, by a walk that ends where it meets a miss.
#[inline(never)]
fn longest_until(
    alloc: Global,
    node: &Node,
    table: &mut StateTable,
    misses: &Misses,
    text: &[u8],
    from: usize,
) -> Result<Walk, AllocError>
    requires table { IsTable (regex_of node.now) table.old }
    requires misses { AreMissesOf (regex_of node.now) text.now misses.now }
    requires within { from ≤ length text.now }
    ensures table { IsTable (regex_of node.now) table.new }
    ensures end { IfOk result (λ walk. walk.end ≤ length text.now) }
    ensures longest { IfOk result (λ walk. MatchOption walk.best
        (StartsNone (Takes (regex_of node.now) text.now) from)
        (IsLongest (Takes (regex_of node.now) text.now) from)) }
{
    let mut best = None;
    let mut place = from;
    let mut at = if from == 0 { FIRST } else { LATER };
    while place < text.len() {
        let state = &table.states[at];
        if misses.has(at, &state.marks, place, from) {
            return Ok(Walk { best, end: place });
        }
        if state.ends_inside {
            best = Some(place);
        }
        if state.is_dead {
            return Ok(Walk { best, end: place });
        }
        at = state_after(alloc, node, table, at, text[place])?;
        place += 1;
    }
    if table.states[at].ends_at_end {
        best = Some(place);
    }
    Ok(Walk { best, end: place })
}

/// What `longest_from` answers, with the misses that there are.
#[inline(always)]
fn longest_walk(
    alloc: Global,
    node: &Node,
    table: &mut StateTable,
    misses: &Misses,
    text: &[u8],
    from: usize,
) -> Result<Walk, AllocError>
    requires table { IsTable (regex_of node.now) table.old }
    requires misses { AreMissesOf (regex_of node.now) text.now misses.now }
    requires within { from ≤ length text.now }
    ensures table { IsTable (regex_of node.now) table.new }
    ensures end { IfOk result (λ walk. walk.end ≤ length text.now) }
    ensures longest { IfOk result (λ walk. MatchOption walk.best
        (StartsNone (Takes (regex_of node.now) text.now) from)
        (IsLongest (Takes (regex_of node.now) text.now) from)) }
{
    if misses.rows.is_empty() {
        return longest_from(alloc, node, table, text, from);
    }
    longest_until(alloc, node, table, misses, text, from)
}

/// Where the longest match from a place ends. What the walk found to lead to nothing is held. An `Err` leaves a table too.
#[inline(always)]
fn longest_noted(
    alloc: Global,
    node: &Node,
    table: &mut StateTable,
    misses: &mut Misses,
    text: &[u8],
    from: usize,
) -> Result<Option<usize>, AllocError>
    requires table { IsTable (regex_of node.now) table.old }
    requires misses { AreMissesOf (regex_of node.now) text.now misses.old }
    requires within { from ≤ length text.now }
    ensures table { IsTable (regex_of node.now) table.new }
    ensures misses { AreMissesOf (regex_of node.now) text.now misses.new }
    ensures longest { IfOk result (λ end. MatchOption end
        (StartsNone (Takes (regex_of node.now) text.now) from)
        (IsLongest (Takes (regex_of node.now) text.now) from)) }
{
    let walk = longest_walk(alloc, node, table, misses, text, from)?;
    let past = walk.best.unwrap_or(from);
    if misses.wants(walk.end.saturating_sub(past)) {
        note_walk(node, table, misses, text, from, past, walk.end)?;
    }
    Ok(walk.best)
}

/// Where a walk ended that found that no match starts from `low` to `high`, both included; `None` where one may. The walk
/// ends where it meets a miss. An `Err` leaves a table too.
fn starts_within(
    alloc: Global,
    node: &Node,
    table: &mut StateTable,
    misses: &Misses,
    text: &[u8],
    low: usize,
    high: usize,
) -> Result<Option<usize>, AllocError>
    requires table { IsTable (regex_of node.now) table.old }
    requires misses { AreMissesOf (regex_of node.now) text.now misses.now }
    requires ordered { low ≤ high }
    requires within { high < length text.now }
    ensures table { IsTable (regex_of node.now) table.new }
    ensures end { IfOk result (λ told. IfSome told (λ end. end ≤ length text.now)) }
    ensures none { IfOk result (λ told. IfSome told (λ _.
        (k : ℕ) → low ≤ k → k ≤ high → StartsNone (Takes (regex_of node.now) text.now) k)) }
{
    let mut at = if low == 0 { OPEN } else { IDLE };
    let mut place = low;
    while place <= high {
        if table.states[at].ends_inside {
            return Ok(None);
        }
        at = state_after(alloc, node, table, at, text[place])?;
        place += 1;
    }
    at = close(alloc, node, table, at)?;
    'later: while place < text.len() {
        let state = &table.states[at];
        if state.ends_inside {
            return Ok(None);
        }
        if state.is_dead {
            return Ok(Some(place));
        }
        if misses.has(at, &state.marks, place, high) {
            return Ok(Some(place));
        }
        at = state_after(alloc, node, table, at, text[place])?;
        place += 1;
    }
    if table.states[at].ends_at_end {
        return Ok(None);
    }
    Ok(Some(place))
}

/// Whether a match may start from `low` to `high`, both included. What the walk found to lead to nothing is held. An `Err`
/// leaves a table too.
fn starts_noted(
    alloc: Global,
    node: &Node,
    table: &mut StateTable,
    misses: &mut Misses,
    text: &[u8],
    low: usize,
    high: usize,
) -> Result<bool, AllocError>
    requires table { IsTable (regex_of node.now) table.old }
    requires misses { AreMissesOf (regex_of node.now) text.now misses.old }
    requires ordered { low ≤ high }
    requires within { high < length text.now }
    ensures table { IsTable (regex_of node.now) table.new }
    ensures misses { AreMissesOf (regex_of node.now) text.now misses.new }
    ensures none { IfOk result (λ told. OnFalse told
        ((k : ℕ) → low ≤ k → k ≤ high → StartsNone (Takes (regex_of node.now) text.now) k)) }
{
    match starts_within(alloc, node, table, misses, text, low, high)? {
        None => Ok(true),
        Some(end) => {
            if misses.wants(end.saturating_sub(high)) {
                note_starts(node, table, misses, text, low, high, end)?;
            }
            Ok(false)
        }
    }
}

/// A place from `low` to `high`, before which no match starts from `low` on.
/// An `Err` leaves a table too.
#[inline(never)]
fn least_start(
    alloc: Global,
    node: &Node,
    table: &mut StateTable,
    misses: &mut Misses,
    text: &[u8],
    low: usize,
    high: usize,
) -> Result<usize, AllocError>
    requires table { IsTable (regex_of node.now) table.old }
    requires misses { AreMissesOf (regex_of node.now) text.now misses.old }
    requires within { high ≤ length text.now }
    ensures table { IsTable (regex_of node.now) table.new }
    ensures misses { AreMissesOf (regex_of node.now) text.now misses.new }
    ensures none { IfOk result (λ least. (k : ℕ) → low ≤ k → k < least
        → StartsNone (Takes (regex_of node.now) text.now) k) }
    ensures after { IfOk result (λ least. low ≤ least) }
{
    let mut least = low;
    let mut most = high;
    while least < most {
        let middle = least + (most - least) / 2;
        if starts_noted(alloc, node, table, misses, text, least, middle)? {
            most = middle;
        } else {
            least = middle + 1;
        }
    }
    Ok(least)
}

/// The leftmost match that starts at `from` or later, and of those the longest. An `Err` leaves a table too.
fn search_on(
    alloc: Global,
    node: &Node,
    table: &mut StateTable,
    misses: &mut Misses,
    first: Option<u8>,
    text: &[u8],
    from: usize,
) -> Result<Option<(usize, usize)>, AllocError>
    requires table { IsTable (regex_of node.now) table.old }
    requires misses { AreMissesOf (regex_of node.now) text.now misses.old }
    requires begins { IfSome first (λ byte. BeginsWith (regex_of node.now) byte) }
    requires within { from ≤ length text.now }
    ensures table { IsTable (regex_of node.now) table.new }
    ensures misses { AreMissesOf (regex_of node.now) text.now misses.new }
    ensures found { IfOk result (λ found. IsFound (Takes (regex_of node.now) text.now) from found) }
{
    let (begin, high) = match first_start(alloc, node, table, first, text, from)? {
        None => return Ok(None),
        Some(ends) => ends,
    };
    if let Some(end) = longest_noted(alloc, node, table, misses, text, begin)? {
        return Ok(Some((begin, end)));
    }
    let least = least_start(alloc, node, table, misses, text, begin, high)?;
    for start in least..text.len() + 1 {
        match longest_noted(alloc, node, table, misses, text, start)? {
            Some(end) => return Ok(Some((start, end))),
            None => {}
        }
    }
    Ok(None)
}

/// The leftmost match that starts at `from` or later, and of those the longest. An expression of many places is first tried at
/// `from` itself: where one match follows the other, the sets of places of all starts at once are never met. An `Err` leaves a
/// table too.
///
/// What walks over this text found to lead to nothing is held in `misses`, so that no later search over the same text walks
/// there again: searches that each begin where the last match ended take together a time linear in the text. That is so
/// unless the table is begun anew again and again (an expression with more sets of places than a table has room for), or
/// `^` or `$` stand in alternatives.
pub fn search(
    alloc: Global,
    node: &Node,
    table: &mut StateTable,
    misses: &mut Misses,
    first: Option<u8>,
    text: &[u8],
    from: usize,
) -> Result<Option<(usize, usize)>, AllocError>
    requires table { IsTable (regex_of node.now) table.old }
    requires misses { AreMissesOf (regex_of node.now) text.now misses.old }
    requires begins { IfSome first (λ byte. BeginsWith (regex_of node.now) byte) }
    requires within { from ≤ length text.now }
    ensures table { IsTable (regex_of node.now) table.new }
    ensures misses { AreMissesOf (regex_of node.now) text.now misses.new }
    ensures found { IfOk result (λ found. IsFound (Takes (regex_of node.now) text.now) from found) }
{
    if table.states[IDLE].marks.len() >= WIDE {
        if let Some(end) = longest_noted(alloc, node, table, misses, text, from)? {
            return Ok(Some((from, end)));
        }
    }
    search_on(alloc, node, table, misses, first, text, from)
}

/// Whether a match starts at `from` or later. An `Err` leaves a table too.
pub fn has_match(
    alloc: Global,
    node: &Node,
    table: &mut StateTable,
    first: Option<u8>,
    text: &[u8],
    from: usize,
) -> Result<bool, AllocError>
    requires table { IsTable (regex_of node.now) table.old }
    requires begins { IfSome first (λ byte. BeginsWith (regex_of node.now) byte) }
    requires within { from ≤ length text.now }
    ensures table { IsTable (regex_of node.now) table.new }
    ensures told { IfOk result
        (λ told. IsTrue told ↔ HasMatch (Takes (regex_of node.now) text.now) from) }
{
    match first_start(alloc, node, table, first, text, from)? {
        None => Ok(false),
        Some(_) => Ok(true),
    }
}
