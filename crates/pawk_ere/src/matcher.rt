// A matcher of one expression.

ghost use Rattle.pawk_ere.specs.Answers.{AreMissesFor, IsAnswer, IsFor};
ghost use Rattle.pawk_ere_syntax.specs.Pattern.{HasMatch, Matches, Pattern};
ghost use Rattle.pawk_ere_syntax.specs.Spelled.{expression};
ghost use Rattle.std.specs.Prelude.{◌≡◌, ◌↔◌, ◌≤◌, ℕ, List, length, IfOk, IsTrue};

use crate::literal::{has_literal, search_literal};
use crate::run::{has_run, has_turns, search_run, search_turns};
use crate::words::{Prefilter, lacks_words, prefilter_of};
use pawk_ere_automaton::{Misses, Node, StateTable, begin, expand, first_byte, has_match, search};
use pawk_ere_syntax::Ere;
use std::alloc::{AllocError, Global};
use std::marker::Model;

/// A matcher of one expression, with a table of the sets of places that it has met.
#[derive(Drop)]
pub struct Matcher {
    alloc: Global,
    node: Node,
    table: StateTable,
    /// The byte that each match begins with, if one is known.
    first: Option<u8>,
    /// What is looked for in a text before it is walked over.
    prefilter: Prefilter,
}

impl Model for Matcher {
    ghost use Rattle.pawk_ere_automaton.specs.Regex.{Regex};
    ghost use Rattle.pawk_ere_automaton.specs.Tree.{regex_of};
    ghost use Rattle.pawk_ere.specs.Coding.{regex_code};
    ghost use Rattle.pawk_ere.specs.Holding.{IsMatcher};

    ghost Value = { Regex };

    ghost coded = { regex_code };

    ghost view = { λ m. regex_of m.node };

    ghost invariant = { λ m. IsMatcher (regex_of m.node) m.table m.first m.prefilter };
}

impl Matcher {
    /// A matcher of the expression, with a table that is empty but for the states where a match begins.
    pub fn new(alloc: Global, ere: &Ere) -> Result<Matcher, AllocError>
        ensures { IfOk result (λ m. IsFor (expression ere.now) m) }
    {
        let node = expand(alloc, ere.root())?;
        let table = begin(alloc, &node, 0)?;
        let first = first_byte(&node);
        let prefilter = prefilter_of(alloc, &node)?;
        Ok(Matcher {
            alloc,
            node,
            table,
            first,
            prefilter,
        })
    }

    /// No misses yet, for the searches of one text. Takes no memory.
    pub fn no_misses(&self) -> Misses
        ensures { (text : List ℕ) → AreMissesFor self.now text result }
    {
        Misses::none(self.alloc)
    }

    /// The leftmost match that starts at the byte `from` or later, and of those the longest (XBD 9.1): the byte where it
    /// starts, and the byte after it, counted from 0. After an `Err` the matcher answers as before.
    pub fn find(&mut self, text: &[u8], from: usize) -> Result<Option<(usize, usize)>, AllocError>
        requires { from ≤ length text.now }
        ensures answer { (e : Pattern) → IsFor e self.old
            → IfOk result (λ found. IsAnswer e text.now from found) }
        ensures same { self.new ≡ self.old }
    {
        let mut misses = self.no_misses();
        self.find_next(&mut misses, text, from)
    }

    /// What [`find`](Matcher::find) answers, one of many searches of one text, which all pass the same `misses`: what one
    /// search finds to lead to nothing no later one walks over again. Searches that each begin where the last match ended
    /// take together a time linear in the text, unless the expression has more sets of places than a table has room for, or
    /// `^` or `$` in alternatives.
    pub fn find_next(
        &mut self,
        misses: &mut Misses,
        text: &[u8],
        from: usize,
    ) -> Result<Option<(usize, usize)>, AllocError>
        requires within { from ≤ length text.now }
        requires misses { AreMissesFor self.old text.now misses.old }
        ensures answer { (e : Pattern) → IsFor e self.old
            → IfOk result (λ found. IsAnswer e text.now from found) }
        ensures misses { AreMissesFor self.old text.now misses.new }
        ensures same { self.new ≡ self.old }
    {
        match &self.prefilter {
            Prefilter::Literal(literal) => return Ok(search_literal(literal, text, from)),
            Prefilter::Run(set, count) => return Ok(search_run(set, *count, text, from)),
            Prefilter::Turns(set, only) => return Ok(search_turns(set, *only, text, from)),
            Prefilter::Words(words) => {
                if from == 0 && lacks_words(words, text) {
                    return Ok(None);
                }
            }
        }
        search(
            self.alloc,
            &self.node,
            &mut self.table,
            misses,
            self.first,
            text,
            from,
        )
    }

    /// Whether a match starts at the byte `from` or later. After an `Err` the matcher answers as before.
    pub fn is_match(&mut self, text: &[u8], from: usize) -> Result<bool, AllocError>
        requires { from ≤ length text.now }
        ensures answer { (e : Pattern) → IsFor e self.old
            → IfOk result (λ told. IsTrue told ↔ HasMatch (Matches e text.now) from) }
        ensures same { self.new ≡ self.old }
    {
        match &self.prefilter {
            Prefilter::Literal(literal) => return Ok(has_literal(literal, text, from)),
            Prefilter::Run(set, count) => return Ok(has_run(set, *count, text, from)),
            Prefilter::Turns(set, only) => return Ok(has_turns(set, *only, text, from)),
            Prefilter::Words(words) => {
                if from == 0 && lacks_words(words, text) {
                    return Ok(false);
                }
            }
        }
        has_match(
            self.alloc,
            &self.node,
            &mut self.table,
            self.first,
            text,
            from,
        )
    }

    /// How often the table was emptied since the matcher was made.
    pub fn emptyings(&self) -> u64 {
        self.table.emptied
    }
}
