// What walks over one text have found to lead to nothing.

ghost use Rattle.pawk_ere_automaton.specs.Misses.{AreMissesOf, IsRowOf, NoRest};
ghost use Rattle.pawk_ere_automaton.specs.Regex.{Regex};
ghost use Rattle.std.specs.List.{All};
ghost use Rattle.std.specs.Prelude.{◌≡◌, ◌⊎◌, ◌^◌, ◌*◌, ◌<◌, ℕ, List, true, false, length, get_or, IsTrue, OnOk};

use std::alloc::{AllocError, Global};

/// Misses are held at each place of a text that is a multiple of this number: a walk in vain goes on for no more bytes
/// than this before it meets one, and a set of places takes one byte for so many bytes of the text.
const STRIDE: usize = 64;

/// A walk in vain is long if it went on for at least this number of bytes. A shorter one is sooner made again than noted.
const LONG: usize = 256;

/// The places where walks with these marks lead to nothing.
#[derive(Drop)]
pub struct Row {
    pub marks: Vec<bool>,
    /// For each multiple of the stride: with the marks, no match ends there or later.
    pub silent: Vec<bool>,
}

/// What walks over one text have found to lead to nothing: of states by their numbers, with their marks, since a table
/// that is begun anew has other states at the same numbers. A miss is a fact of the marks alone and stays true.
#[derive(Drop)]
pub struct Misses {
    pub alloc: Global,
    pub rows: Vec<Row>,
    /// A walk went on in vain for long: the next one is noted.
    pub wanted: bool,
}

/// Whether no match ends at this multiple of the stride or later whose walk has these marks there.
fn is_silent(row: &Row, marks: &[bool], number: usize) -> bool
    ensures { (e : Regex) (text : List ℕ) → IsRowOf e text row.now → IsTrue result
        → NoRest e marks.now text (64 * number) }
{
    match row.silent.get(number) {
        Some(true) => row.marks.as_slice() == marks,
        _ => false,
    }
}

/// Notes a number among those that are noted.
fn note_number(silent: &mut Vec<bool>, number: usize) -> Result<(), AllocError>
    requires { number < 2 ^ 63 }
    ensures { (i : ℕ) → get_or silent.new.items i false ≡ true
        → (get_or silent.old.items i false ≡ true) ⊎ (i ≡ number) }
{
    while silent.len() <= number {
        silent.push(false)?;
    }
    silent[number] = true;
    Ok(())
}

/// Makes it a row of these marks.
fn fit_row(alloc: Global, row: &mut Row, marks: &[bool]) -> Result<(), AllocError>
    ensures row { (e : Regex) (text : List ℕ) → IsRowOf e text row.old → IsRowOf e text row.new }
    ensures marks { OnOk result (row.new.marks.items ≡ marks.now) }
{
    if row.marks.as_slice() == marks {
        return Ok(());
    }
    *row = Row {
        marks: Vec::from_slice(alloc, marks)?,
        silent: Vec::new(alloc),
    };
    Ok(())
}

/// Notes in a row that no match ends at this multiple of the stride or later whose walk has these marks there.
fn note_row(alloc: Global, row: &mut Row, marks: &[bool], number: usize) -> Result<(), AllocError>
    requires { number < 2 ^ 63 }
    ensures { (e : Regex) (text : List ℕ) → IsRowOf e text row.old
        → NoRest e marks.now text (64 * number) → IsRowOf e text row.new }
{
    fit_row(alloc, row, marks)?;
    note_number(&mut row.silent, number)
}

/// Adds empty rows until there is one of this number.
fn add_rows(alloc: Global, rows: &mut Vec<Row>, at: usize) -> Result<(), AllocError>
    requires { at < 2 ^ 63 }
    ensures rows { (e : Regex) (text : List ℕ) → All (IsRowOf e text) rows.old.items
        → All (IsRowOf e text) rows.new.items }
    ensures long { OnOk result (at < length rows.new.items) }
{
    while rows.len() <= at {
        rows.push(Row {
            marks: Vec::new(alloc),
            silent: Vec::new(alloc),
        })?;
    }
    Ok(())
}

impl Misses {
    /// None yet. Takes no memory.
    pub fn none(alloc: Global) -> Misses
        ensures { (e : Regex) (text : List ℕ) → AreMissesOf e text result }
    {
        Misses {
            alloc,
            rows: Vec::new(alloc),
            wanted: false,
        }
    }

    /// Whether a walk that went on in vain for this number of bytes is to be noted: each long one but the first, so that a
    /// text with one such walk pays nothing.
    #[inline(always)]
    pub fn wants(&mut self, bytes: usize) -> bool
        ensures { self.new.rows ≡ self.old.rows }
    {
        if bytes < LONG {
            return false;
        }
        let wanted = self.wanted;
        self.wanted = true;
        wanted
    }

    /// Whether it is held that no match ends at this multiple of the stride or later whose walk is there in the state of this
    /// number, with these marks.
    #[inline(never)]
    fn holds(&self, at: usize, marks: &[bool], number: usize) -> bool
        ensures { (e : Regex) (text : List ℕ) → AreMissesOf e text self.now → IsTrue result
            → NoRest e marks.now text (64 * number) }
    {
        match self.rows.get(at) {
            Some(row) => is_silent(row, marks, number),
            None => false,
        }
    }

    /// Whether a walk that is past a place, in the state of this number, with these marks, is held to lead to nothing: no
    /// match ends at `place` or later whose walk has them there.
    #[inline(always)]
    pub fn has(&self, at: usize, marks: &[bool], place: usize, past: usize) -> bool
        ensures past { IsTrue result → past < place }
        ensures silent { (e : Regex) (text : List ℕ) → AreMissesOf e text self.now → IsTrue result
            → NoRest e marks.now text place }
    {
        if place % STRIDE != 0 || place <= past {
            return false;
        }
        self.holds(at, marks, place / STRIDE)
    }

    /// Holds of a place past another one, if it is a multiple of the stride, that no match ends there or later whose walk is
    /// there in the state of this number, with these marks.
    pub fn note(
        &mut self,
        at: usize,
        marks: &[bool],
        place: usize,
        past: usize,
    ) -> Result<(), AllocError>
        requires { at < 2 ^ 63 }
        ensures { (e : Regex) (text : List ℕ) → AreMissesOf e text self.old
            → (past < place → NoRest e marks.now text place) → AreMissesOf e text self.new }
    {
        if place % STRIDE != 0 || place <= past {
            return Ok(());
        }
        add_rows(self.alloc, &mut self.rows, at)?;
        note_row(self.alloc, &mut self.rows[at], marks, place / STRIDE)
    }
}
