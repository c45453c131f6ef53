// Words that a text must hold to have a match.

ghost use Rattle.pawk_ere_automaton.specs.Members.{members_of};
ghost use Rattle.pawk_ere.specs.Words.{AreNeeded, HoldsNone, AreFeatures, IsPrefilter, NeedsWords};
ghost use Rattle.pawk_ere_syntax.specs.Spelled.{expression};
ghost use Rattle.pawk_ere_automaton.specs.Regex.{Regex, Bytes, Sequence, Either, Plus, copies};
ghost use Rattle.pawk_ere_automaton.specs.Tree.{regex_of};
ghost use Rattle.std.specs.Prelude.{◌≡◌, ◌≤◌, ◌⊎◌, [], false, length, IfOk, IsTrue};

use crate::run::{run_of, turns_of};
use memchr::memmem::{Finder, FinderBuilder};
use pawk_ere_automaton::{Members, Node, expand, is_anchored};
use pawk_ere_syntax::Ere;
use std::alloc::{AllocError, Global};

/// More words than this are not looked for.
const MOST_WORDS: usize = 4;

/// In a text that is shorter no words are looked for: to walk over it costs no more.
const LEAST_LENGTH: usize = 64;

/// Of a word no more bytes than this are weighed.
const MOST_WEIGHED: usize = 16;

/// What is seen of the matches of an expression.
#[derive(Drop)]
pub struct Features {
    /// Each match ends with these bytes.
    pub tail: Vec<u8>,
    /// The expression matches the tail and nothing else.
    pub whole: bool,
    /// Each match holds one of these words. If there are none, nothing is known.
    pub words: Vec<Finder<'static>>,
}

/// What is looked for in a text before it is walked over.
#[derive(Drop)]
pub enum Prefilter {
    /// The expression matches these bytes and nothing else.
    Literal(Finder<'static>),
    /// The expression matches n bytes of this set, at least one, and nothing else.
    Run(Box<Members>, usize),
    /// The expression matches one byte of this set or more and nothing else. The byte is its one member, where it has no
    /// other.
    Turns(Box<Members>, Option<u8>),
    /// Each match holds one of these words. If there are none, nothing is known.
    Words(Vec<Finder<'static>>),
}

/// How rare a word is taken to be. Letters and digits count twice, since most lines hold the other bytes; one byte alone is no word.
fn weight(word: &[u8]) -> usize {
    if word.len() < 2 {
        return 0;
    }
    let mut weight = 0usize;
    for byte in word.iter().take(MOST_WEIGHED) {
        weight = weight.saturating_add(if byte.is_ascii_alphanumeric() { 2 } else { 1 });
    }
    weight
}

/// The weight of the lightest word, or 0 if there is none.
fn least_weight(words: &[Finder<'static>]) -> usize {
    let mut least = 0;
    for word in words {
        let weight = weight(word.needle());
        if least == 0 || weight < least {
            least = weight;
        }
    }
    least
}

/// The heavier of the two: fewer texts hold such words.
fn heavier(first: Vec<Finder<'static>>, second: Vec<Finder<'static>>) -> Vec<Finder<'static>>
    ensures { (result.items ≡ first.entry.items) ⊎ (result.items ≡ second.entry.items) }
{
    if least_weight(&first) > least_weight(&second) {
        first
    } else {
        second
    }
}

/// Words that are needed: those that are known, or the tail where it is heavier.
fn needed_words(features: Features) -> Result<Vec<Finder<'static>>, AllocError>
    ensures { (e : Regex) → AreFeatures e features
        → IfOk result (λ words. AreNeeded e words.items) }
{
    let Features {
        tail,
        whole: _,
        mut words,
    } = features;
    if weight(&tail) <= least_weight(&words) {
        return Ok(words);
    }
    words.clear();
    words.push(FinderBuilder::new().build_forward_owned(tail))?;
    Ok(words)
}

/// Nothing is seen.
#[inline(never)]
fn nothing(alloc: Global) -> Features
    ensures tail { result.tail.items ≡ [] }
    ensures whole { result.whole ≡ false }
    ensures words { result.words.items ≡ [] }
{
    Features {
        tail: Vec::new(alloc),
        whole: false,
        words: Vec::new(alloc),
    }
}

/// What is seen of one byte.
#[inline(never)]
fn in_bytes(alloc: Global, set: &Members) -> Result<Features, AllocError>
    ensures { IfOk result (λ features. AreFeatures (Bytes (members_of set.now)) features) }
{
    let mut features = nothing(alloc);
    if let Some(byte) = set.only_member() {
        features.tail.push(byte)?;
        features.whole = true;
    }
    Ok(features)
}

/// What is seen of one after the other.
#[inline(never)]
fn in_sequence(first: Features, second: Features) -> Result<Features, AllocError>
    ensures { (a b : Regex) → AreFeatures a first → AreFeatures b second
        → IfOk result (λ features. AreFeatures (Sequence a b) features) }
{
    let mut features = second;
    if features.whole {
        let mut both = first;
        both.tail.extend_from_slice(&features.tail)?;
        return Ok(both);
    }
    features.words = heavier(needed_words(first)?, features.words);
    Ok(features)
}

/// What is seen of one or the other.
#[inline(never)]
fn in_either(alloc: Global, first: Features, second: Features) -> Result<Features, AllocError>
    ensures { (a b : Regex) → AreFeatures a first → AreFeatures b second
        → IfOk result (λ features. AreFeatures (Either a b) features) }
{
    let mut features = nothing(alloc);
    let mut words = needed_words(first)?;
    let mut others = needed_words(second)?;
    if words.is_empty() || others.is_empty() {
        return Ok(features);
    }
    if words.len().saturating_add(others.len()) <= MOST_WORDS {
        words.append(&mut others)?;
        features.words = words;
    }
    Ok(features)
}

/// What is seen of one turn or more.
#[inline(never)]
fn in_turns(turn: Features) -> Features
    ensures { (a : Regex) → AreFeatures a turn → AreFeatures (Plus a) result }
{
    let mut features = turn;
    features.whole = false;
    features
}

/// What is seen of the matches of an expression. What follows a first part is outside the recursion, whose frames stay
/// small.
#[cycle(features)]
fn features_of(alloc: Global, node: &Node) -> Result<Features, AllocError>
    ensures { IfOk result (λ features. AreFeatures (regex_of node.now) features) }
{
    match node {
        Node::Empty | Node::Start | Node::End | Node::Star(_) => Ok(nothing(alloc)),
        Node::Bytes(set) => in_bytes(alloc, set),
        Node::Sequence(a, b) => with_second(alloc, features_of(alloc, a)?, b),
        Node::Either(a, b) => with_other(alloc, features_of(alloc, a)?, b),
        Node::Copies(count, a) => of_copies(alloc, *count, a),
        Node::Plus(a) => Ok(in_turns(features_of(alloc, a)?)),
    }
}

/// What is seen of one part and a second one after it.
#[cycle(features)]
#[inline(never)]
fn with_second(alloc: Global, first: Features, second: &Node) -> Result<Features, AllocError>
    ensures { (a : Regex) → AreFeatures a first
        → IfOk result (λ features. AreFeatures (Sequence a (regex_of second.now)) features) }
{
    if let Node::Empty = second {
        return Ok(first);
    }
    in_sequence(first, features_of(alloc, second)?)
}

/// What is seen of one alternative and another one.
#[cycle(features)]
#[inline(never)]
fn with_other(alloc: Global, first: Features, second: &Node) -> Result<Features, AllocError>
    ensures { (a : Regex) → AreFeatures a first
        → IfOk result (λ features. AreFeatures (Either a (regex_of second.now)) features) }
{
    in_either(alloc, first, features_of(alloc, second)?)
}

/// What is seen of `count` copies.
#[cycle(features)]
#[inline(never)]
fn of_copies(alloc: Global, count: u8, a: &Node) -> Result<Features, AllocError>
    ensures { IfOk result (λ features. AreFeatures (copies count (regex_of a.now)) features) }
{
    if count == 0 {
        return Ok(nothing(alloc));
    }
    let mut all = features_of(alloc, a)?;
    for _i in 1..count {
        all = in_sequence(features_of(alloc, a)?, all)?;
    }
    Ok(all)
}

/// What to look for in a text before it is walked over. An anchored expression gives up early by itself.
pub fn prefilter_of(alloc: Global, node: &Node) -> Result<Prefilter, AllocError>
    ensures { IfOk result (λ prefilter. IsPrefilter (regex_of node.now) prefilter) }
{
    let features = features_of(alloc, node)?;
    if features.whole {
        let literal = FinderBuilder::new().build_forward_owned(features.tail);
        return Ok(Prefilter::Literal(literal));
    }
    if let Some((set, count)) = run_of(node) {
        if count > 0 {
            return Ok(Prefilter::Run(Box::new(alloc, *set)?, count));
        }
    }
    if let Some(set) = turns_of(node) {
        return Ok(Prefilter::Turns(Box::new(alloc, *set)?, set.only_member()));
    }
    if is_anchored(node) {
        return Ok(Prefilter::Words(Vec::new(alloc)));
    }
    Ok(Prefilter::Words(needed_words(features)?))
}

/// Whether a text is seen to hold none of the words. Where there are none, and in a short text, nothing is seen.
#[inline(never)]
pub fn lacks_words(words: &[Finder<'static>], text: &[u8]) -> bool
    ensures some { IsTrue result → 1 ≤ length words.now }
    ensures none { IsTrue result → HoldsNone text.now words.now }
{
    if text.len() < LEAST_LENGTH {
        return false;
    }
    for word in words {
        if word.find(text).is_some() {
            return false;
        }
    }
    !words.is_empty()
}

/// Words of which each text holds one in which the expression matches; none where no such are known.
///
/// The error comes where memory was refused.
///
/// POSIX.1-2017, XBD 9.4, "Extended Regular Expressions".
pub fn needed_words_of(alloc: Global, ere: &Ere) -> Result<Vec<Finder<'static>>, AllocError>
    ensures { IfOk result (λ words. NeedsWords (expression ere.now) words.items) }
{
    let node = expand(alloc, ere.root())?;
    needed_words(features_of(alloc, &node)?)
}
