// A table of the sets of places that a matcher has met.

ghost use Rattle.pawk_ere_automaton.specs.Marks.{shift};
ghost use Rattle.pawk_ere_automaton.specs.Table.{ends_with, HasKey, IsBegin, IsDead, IsState, IsTable, KeepsStates, LeadsTo};
ghost use Rattle.pawk_ere_automaton.specs.Tree.{regex_of};
ghost use Rattle.pawk_ere_automaton.specs.declared.table.State.{State};
ghost use Rattle.std.specs.Prelude.{◌≡◌, ◌+◌, ◌*◌, ◌<◌, ◌≤◌, ℕ, ◌⊎◌, [], true, false, length, slice_get, slice_index, replicate, Some, IsTrue, IfOk, IfSome, MatchOption};

use crate::hints::is_anchored;
use crate::marks::{StepByte, StepSource, is_empty, look, note_turns, place_count, push_shifted};
use crate::node::Node;
use std::alloc::{AllocError, Global};

/// A table has no more states than this.
const MOST_STATES: usize = 512;

/// The states of a table take about this many bytes at most, but for the first few: this, less `TREE_BYTES` for each
/// place, so that a tree and its table, of which either grows with the places, stay below 1,048,576 bytes together.
const TABLE_BYTES: usize = 370_000;

/// The bytes that a table leaves to the tree for each place.
const TREE_BYTES: usize = 54;

/// The bytes that a state takes beside its marks: itself, and what is linked to it.
const STATE_BYTES: usize = 640;

/// The state where a match begins, at the text's first place.
pub const FIRST: usize = 0;

/// The state where a match begins, at a later place.
pub const LATER: usize = 1;

/// The state where a match may begin, here or later, at the text's first place.
pub const OPEN: usize = 2;

/// The state where a match may begin, here or later, and none has begun.
pub const IDLE: usize = 3;

/// How many bytes there are: the links of a state.
pub const BYTES: usize = 256;

/// The links of the four states where a match begins.
const FIRST_LINKS: usize = 1024;

/// The places in the index by hash.
const SLOTS: usize = 1024;

/// How many slots are looked at for a state.
const TRIES: usize = 8;

/// A set of places, with what is known of it.
#[derive(Drop)]
pub struct State {
    /// A match may begin here.
    pub enter: bool,
    /// A match may begin at each later place too.
    pub stays: bool,
    /// This is the text's first place.
    pub first: bool,
    pub marks: Vec<bool>,
    /// A match ends here, if this is not the end of the text.
    pub ends_inside: bool,
    /// A match ends here, if this is the end of the text.
    pub ends_at_end: bool,
    /// No place is marked and no match may begin here or later: nothing can come of it.
    pub is_dead: bool,
    pub hash: u64,
}

/// The states that were met, and the state after each of them by each byte, where it is known.
#[derive(Drop)]
pub struct StateTable {
    pub states: Vec<State>,
    /// 256 numbers of states for each state; 0 where the state is not known.
    pub next: Vec<u16>,
    /// Numbers of states by the hash of their marks; a hint, which is tested where it is used.
    pub slots: Vec<u16>,
    /// How often the table was emptied.
    pub emptied: u64,
}

/// A hash of the marks: sums of sums of them, one addition each for a mark.
fn hash_of(stays: bool, marks: &[bool]) -> u64 {
    let mut sums: [u64; 3] = [0, 0, 0];
    for mark in marks {
        sums[0] = sums[0].wrapping_add(u64::from(*mark));
        sums[1] = sums[1].wrapping_add(sums[0]);
        sums[2] = sums[2].wrapping_add(sums[1]);
    }
    let mixed = sums[2].wrapping_mul(0x9e37_79b9_7f4a_7c15)
        ^ sums[1].wrapping_mul(0xc2b2_ae3d_27d4_eb4f);
    let hash = mixed
        .wrapping_add(sums[0])
        .wrapping_add(u64::from(stays))
        .wrapping_mul(0xff51_afd7_ed55_8ccd);
    hash ^ (hash >> 32)
}

/// Whether a match ends with these marks.
fn ends(node: &Node, enter: bool, marks: &[bool], first: bool, last: bool) -> bool
    ensures { result ≡ ends_with (regex_of node.now) enter marks.now first last }
{
    let view = look(node, marks, first, last);
    (enter && view.nullable) || view.ends
}

/// Whether nothing can come of a state.
fn is_dead(node: &Node, enter: bool, first: bool, marks: &[bool]) -> bool
    ensures { IsTrue result → IsDead (regex_of node.now) enter first marks.now }
{
    if !is_empty(marks) {
        return false;
    }
    if !enter {
        return true;
    }
    if first {
        return false;
    }
    is_anchored(node)
}

/// A state with what is known of it.
fn new_state(node: &Node, enter: bool, stays: bool, first: bool, marks: Vec<bool>) -> State
    ensures state { IsState (regex_of node.now) result }
    ensures enter { result.enter ≡ enter }
    ensures stays { result.stays ≡ stays }
    ensures first { result.first ≡ first }
    ensures marks { result.marks.items ≡ marks.items }
{
    State {
        ends_inside: ends(node, enter, &marks, first, false),
        ends_at_end: ends(node, enter, &marks, first, true),
        is_dead: is_dead(node, enter, first, &marks),
        hash: hash_of(stays, &marks),
        enter,
        stays,
        first,
        marks,
    }
}

/// A state where a match begins.
fn begin_state(alloc: Global, node: &Node, stays: bool, first: bool) -> Result<State, AllocError>
    ensures state { IfOk result (λ s. IsState (regex_of node.now) s) }
    ensures begin { IfOk result (λ s. IsBegin s stays first) }
{
    let marks = vec![in alloc; false; place_count(node)]?;
    Ok(new_state(node, true, stays, first, marks))
}

/// A table of the four states where a match begins.
pub fn begin(alloc: Global, node: &Node, emptied: u64) -> Result<StateTable, AllocError>
    ensures table { IfOk result (λ t. IsTable (regex_of node.now) t) }
    ensures few { IfOk result (λ t. length t.states.items ≡ 4) }
{
    let next = vec![in alloc; 0; FIRST_LINKS]?;
    let mut states = Vec::new(alloc);
    states.push(begin_state(alloc, node, false, true)?)?;
    states.push(begin_state(alloc, node, false, false)?)?;
    states.push(begin_state(alloc, node, true, true)?)?;
    let idle = begin_state(alloc, node, true, false)?;
    let mut slots = vec![in alloc; 0; SLOTS]?;
    remember(&mut slots, idle.hash, IDLE);
    states.push(idle)?;
    Ok(StateTable {
        states,
        next,
        slots,
        emptied,
    })
}

/// Whether it is the state after one that stays open or not, with these marks.
fn has_key(state: &State, stays: bool, hash: u64, marks: &[bool]) -> bool
    ensures { IsTrue result → HasKey state.now stays marks.now }
{
    if state.hash != hash || state.first {
        return false;
    }
    if state.enter != stays {
        return false;
    }
    if state.stays != stays {
        return false;
    }
    state.marks.as_slice() == marks
}

/// The slot to look at for a hash.
fn slot_of(hash: u64, attempt: usize) -> usize {
    ((hash % SLOTS as u64) as usize).wrapping_add(attempt) % SLOTS
}

/// The state with this key, if it is found by its hash.
fn position_of(table: &StateTable, stays: bool, hash: u64, marks: &[bool]) -> Option<usize>
    ensures { IfSome result (λ r. (t : State) × (slice_get table.now.states.items r ≡ Some t)
        × HasKey t stays marks.now) }
{
    for attempt in 0..TRIES {
        let hint = table
            .slots
            .get(slot_of(hash, attempt))
            .copied()
            .unwrap_or(0) as usize;
        if hint == 0 {
            return None;
        }
        if hint < table.states.len() {
            let state = &table.states[hint];
            if has_key(state, stays, hash, marks) {
                return Some(hint);
            }
        }
    }
    None
}

/// Notes where a state is, for its hash.
fn remember(slots: &mut Vec<u16>, hash: u64, place: usize)
    requires { place < 512 }
{
    let mut chosen = slot_of(hash, 0);
    for attempt in 0..TRIES {
        let slot = slot_of(hash, attempt);
        if slots.get(slot).copied().unwrap_or(0) == 0 {
            chosen = slot;
            break;
        }
    }
    if chosen < slots.len() {
        slots[chosen] = place as u16;
    }
}

/// The marks after one more byte.
fn marks_after(alloc: Global, node: &Node, state: &State, byte: u8) -> Result<Vec<bool>, AllocError>
    ensures { IfOk result (λ v. v.items
        ≡ shift (regex_of node.now) state.now.enter state.now.marks.items byte state.now.first) }
{
    let mut turns = Vec::new(alloc);
    note_turns(node, &state.marks, state.first, &mut turns)?;
    let mut marks = Vec::with_capacity(alloc, state.marks.len())?;
    let source = StepSource {
        marks: &state.marks,
        turns: &turns,
    };
    let step = StepByte {
        byte,
        first: state.first,
    };
    push_shifted(node, state.enter, source, step, &mut marks)?;
    Ok(marks)
}

/// Adds a state, with no state known after it.
fn add_state(table: &mut StateTable, node: &Node, state: State) -> Result<usize, AllocError>
    requires table { IsTable (regex_of node.now) table.old }
    requires room { length table.old.states.items < 512 }
    requires state { IsState (regex_of node.now) state }
    ensures table { IsTable (regex_of node.now) table.new }
    ensures added { IfOk result (λ r. slice_get table.new.states.items r ≡ Some state) }
    ensures kept { KeepsStates table.old.states.items table.new.states.items }
{
    let place = table.states.len();
    let hash = state.hash;
    table.next.extend_from_slice(&[0; 256])?;
    table.states.push(state)?;
    remember(&mut table.slots, hash, place);
    Ok(place)
}

/// How many states a table has at most, where each has this number of places.
fn most_states(places: usize) -> usize
    ensures { result ≤ 512 }
{
    let bytes = TABLE_BYTES.saturating_sub(places.saturating_mul(TREE_BYTES));
    (bytes / places.saturating_add(STATE_BYTES).max(1)).min(MOST_STATES)
}

/// Where a state was put.
#[derive(Clone, Copy)]
struct Put {
    place: usize,
    /// The other states are where they were: the table was not begun again.
    keeps: bool,
}

/// Puts a state with these marks into the table, which is begun again where it is full.
fn put_state(
    alloc: Global,
    node: &Node,
    table: &mut StateTable,
    stays: bool,
    marks: Vec<bool>,
) -> Result<Put, AllocError>
    requires { IsTable (regex_of node.now) table.old }
    ensures table { IsTable (regex_of node.now) table.new }
    ensures key { IfOk result
        (λ r. (t : State) × (slice_get table.new.states.items r.place ≡ Some t)
        × HasKey t stays marks.items) }
    ensures keeps { IfOk result
        (λ r. r.keeps ≡ true → KeepsStates table.old.states.items table.new.states.items) }
{
    let mut keeps = true;
    if table.states.len() >= most_states(marks.len()) {
        *table = begin(alloc, node, table.emptied.saturating_add(1))?;
        keeps = false;
    }
    let place = add_state(table, node, new_state(node, stays, stays, false, marks))?;
    Ok(Put { place, keeps })
}

/// Notes which state comes after a state of the table.
fn link(node: &Node, table: &mut StateTable, place: usize, byte: u8, next: usize)
    requires table { IsTable (regex_of node.now) table.old }
    requires within { place < length table.old.states.items }
    requires small { next < 512 }
    requires leads { (s : State) → slice_get table.old.states.items place ≡ Some s
        → LeadsTo (regex_of node.now) table.old.states.items s byte next }
    ensures table { IsTable (regex_of node.now) table.new }
    ensures same { table.new.states ≡ table.old.states }
{
    table.next[place * BYTES + byte as usize] = next as u16;
}

/// The state with the same marks where no match may begin any more. An `Err` leaves a table too.
pub fn close(
    alloc: Global,
    node: &Node,
    table: &mut StateTable,
    place: usize,
) -> Result<usize, AllocError>
    requires table { IsTable (regex_of node.now) table.old }
    requires within { place < length table.old.states.items }
    ensures table { IsTable (regex_of node.now) table.new }
    ensures closed { IfOk result (λ r. (s : State) → slice_get table.old.states.items place ≡ Some s
        → (t : State) × (slice_get table.new.states.items r ≡ Some t)
        × HasKey t false s.marks.items) }
{
    let state = &table.states[place];
    let hash = hash_of(false, &state.marks);
    if let Some(found) = position_of(table, false, hash, &state.marks) {
        return Ok(found);
    }
    let marks = Vec::from_slice(alloc, &state.marks)?;
    Ok(put_state(alloc, node, table, false, marks)?.place)
}

/// The state after one more byte, which was not known. An `Err` leaves a table too.
#[cold]
#[inline(never)]
pub fn found_after(
    alloc: Global,
    node: &Node,
    table: &mut StateTable,
    place: usize,
    byte: u8,
) -> Result<usize, AllocError>
    requires table { IsTable (regex_of node.now) table.old }
    requires within { place < length table.old.states.items }
    ensures table { IsTable (regex_of node.now) table.new }
    ensures leads { IfOk result (λ r. (s : State) → slice_get table.old.states.items place ≡ Some s
        → LeadsTo (regex_of node.now) table.new.states.items s byte r) }
{
    let state = &table.states[place];
    let stays = state.stays;
    let marks = marks_after(alloc, node, state, byte)?;
    let hash = hash_of(stays, &marks);
    if let Some(next) = position_of(table, stays, hash, &marks) {
        link(node, table, place, byte, next);
        return Ok(next);
    }
    let put = put_state(alloc, node, table, stays, marks)?;
    if put.keeps {
        link(node, table, place, byte, put.place);
    }
    Ok(put.place)
}

/// The state after one more byte. An `Err` leaves a table too.
#[inline(always)]
pub fn state_after(
    alloc: Global,
    node: &Node,
    table: &mut StateTable,
    place: usize,
    byte: u8,
) -> Result<usize, AllocError>
    requires table { IsTable (regex_of node.now) table.old }
    requires within { place < length table.old.states.items }
    ensures table { IsTable (regex_of node.now) table.new }
    ensures leads { IfOk result (λ r. (s : State) → slice_get table.old.states.items place ≡ Some s
        → LeadsTo (regex_of node.now) table.new.states.items s byte r) }
{
    let next = table.next[place * BYTES + byte as usize];
    if next != 0 {
        return Ok(next as usize);
    }
    found_after(alloc, node, table, place, byte)
}
