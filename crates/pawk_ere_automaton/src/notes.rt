// Walks that were made in vain are made again, and what they led through is noted.

ghost use Rattle.pawk_ere_automaton.specs.Misses.{AreMissesOf};
ghost use Rattle.pawk_ere_automaton.specs.Regex.{Regex, Takes};
ghost use Rattle.pawk_ere_automaton.specs.Table.{IsTable};
ghost use Rattle.pawk_ere_automaton.specs.Tree.{regex_of};
ghost use Rattle.pawk_ere_syntax.specs.Pattern.{StartsNone};
ghost use Rattle.std.specs.Prelude.{◌≡◌, ℕ, ◌<◌, ◌≤◌, length};

use crate::misses::Misses;
use crate::node::Node;
use crate::table::{FIRST, IDLE, LATER, OPEN, StateTable, close, state_after};
use std::alloc::AllocError;

/// Notes the states of the walk from `from` at the places after `past`, before `end`: no match from `from` ends there. An
/// `Err` leaves a table too.
#[cold]
#[inline(never)]
pub fn note_walk(
    node: &Node,
    table: &mut StateTable,
    misses: &mut Misses,
    text: &[u8],
    from: usize,
    past: usize,
    end: usize,
) -> Result<(), AllocError>
    requires table { IsTable (regex_of node.now) table.old }
    requires misses { AreMissesOf (regex_of node.now) text.now misses.old }
    requires within { from ≤ length text.now }
    requires end { end ≤ length text.now }
    requires quiet { (j : ℕ) → past < j → Takes (regex_of node.now) text.now from j → ⊥ }
    ensures table { IsTable (regex_of node.now) table.new }
    ensures misses { AreMissesOf (regex_of node.now) text.now misses.new }
{
    let alloc = misses.alloc;
    let mut place = from;
    let mut at = if from == 0 { FIRST } else { LATER };
    while place < end {
        misses.note(at, &table.states[at].marks, place, past)?;
        at = state_after(alloc, node, table, at, text[place])?;
        place += 1;
    }
    Ok(())
}

/// Notes the states of the walk for all starts from `low` to `high`, both included, at the places after `high`, before
/// `end`: no match starts there. An `Err` leaves a table too.
#[cold]
#[inline(never)]
pub fn note_starts(
    node: &Node,
    table: &mut StateTable,
    misses: &mut Misses,
    text: &[u8],
    low: usize,
    high: usize,
    end: usize,
) -> Result<(), AllocError>
    requires table { IsTable (regex_of node.now) table.old }
    requires misses { AreMissesOf (regex_of node.now) text.now misses.old }
    requires ordered { low ≤ high }
    requires within { high < length text.now }
    requires end { end ≤ length text.now }
    requires none { (k : ℕ) → low ≤ k → k ≤ high
        → StartsNone (Takes (regex_of node.now) text.now) k }
    ensures table { IsTable (regex_of node.now) table.new }
    ensures misses { AreMissesOf (regex_of node.now) text.now misses.new }
{
    let alloc = misses.alloc;
    let mut at = if low == 0 { OPEN } else { IDLE };
    let mut place = low;
    while place <= high {
        at = state_after(alloc, node, table, at, text[place])?;
        place += 1;
    }
    at = close(alloc, node, table, at)?;
    'later: while place < end {
        misses.note(at, &table.states[at].marks, place, high)?;
        at = state_after(alloc, node, table, at, text[place])?;
        place += 1;
    }
    Ok(())
}
