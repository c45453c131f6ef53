//! Passing over records that no rule is for.

ghost use Rattle.std.specs.Prelude.{◌≡◌, ◌≤◌, ◌↔◌, List, ℕ, length, map, IfOk, IfSome, OnOk, IsTrue, None, false};
ghost use Rattle.pawk_code.specs.ProgramViews.{code_view, rule_view};
ghost use Rattle.pawk_code.specs.Programs.{Code as Program};
ghost use Rattle.pawk_input.specs.Walk.{items_left};
ghost use Rattle.pawk_value.specs.Conversion.{text_of};
ghost use Rattle.pawk_store.specs.Records.{Left, is_inside};
ghost use Rattle.pawk_store.specs.Runs.{records_from};
ghost use Rattle.pawk_prefilter.specs.Needs.{moved_on};
ghost use Rattle.pawk_store.specs.StateViews.{state_of};
ghost use Rattle.pawk_prefilter.specs.Passages.{AreNeeded, IsPassage, end_with, texts_of};

use crate::needs::words_of_selector;
use crate::resets::any_resets;
use itoa::Buffer;
use memchr::memmem::Finder;
use pawk_code::program::{Code, Rule};
use pawk_code::slots::FS;
use pawk_input::Records;
use pawk_store::RecordState;
use pawk_value::text_in;
use pawk_world::World;
use std::alloc::{AllocError, Global};
use std::marker::Model;

/// Where fewer records than this for each word are passed over at once, a search is hardly worth its time.
const FEW: usize = 2;

/// More words than this are not looked for.
const MOST_WORDS: usize = 8;

/// After a search that was not worth its time no more records than this are read before the next one.
const LONGEST_PAUSE: u32 = 63;

/// What is known of the records that no rule of a program is for.
#[derive(Drop)]
pub struct Passage {
    /// Each record holds one of these that a rule is for, unless a range has begun; none where no such are known.
    words: Option<Vec<Finder<'static>>>,
    /// Whether a pattern sets what `match` sets.
    resets: bool,
    /// How many records are read after a search that is not worth its time.
    pause: u32,
    /// How many records are read before the next search.
    wait: u32,
}

impl Model for Passage {
    ghost use Rattle.pawk_prefilter.specs.Passages.{Known};
    ghost use Rattle.std.specs.Option.{option_map};
    ghost use Rattle.std.specs.Prelude.{ℕ, List, Vec};
    ghost use Rattle.std.specs.declared.alloc.Global.{Global};

    ghost Value = { Known };

    ghost view = { λ p. record {
      words = option_map (λ (words : Vec (List ℕ) Global). words.items) p.words;
      resets = p.resets;
    } };
}

/// Words of which a record holds one that any of the rules is for, unless a range has begun; none
/// where no such are known.
fn words_of_rules(
    alloc: Global,
    expressions: &[Vec<u8>],
    rules: &[Rule],
) -> Result<Option<Vec<Finder<'static>>>, AllocError>
    ensures { IfOk result (λ known. IfSome known (λ words.
        AreNeeded (texts_of expressions.now) (map rule_view rules.now) words.items)) }
{
    let mut all = Vec::new(alloc);
    for rule in rules {
        let mut words = words_of_selector(alloc, expressions, &rule.selector)?;
        if words.is_empty() {
            return Ok(None);
        }
        all.append(&mut words)?;
    }
    if all.len() > MOST_WORDS {
        return Ok(None);
    }
    Ok(Some(all))
}

/// Whether records may be passed over: FS is one byte, and no range has begun.
fn may_pass<W: World>(world: &W, state: &RecordState<'_>) -> bool
    ensures separator { IsTrue result → length (text_of (W.calls.look 0 (W.state world.now))) ≡ 1 }
    ensures outside { IsTrue result → (n : ℕ) → is_inside n (state_of state.now) ≡ false }
{
    let mut buffer = Buffer::new();
    let fs = text_in(world.scalar(FS), &mut buffer);
    fs.len() == 1 && !state.ranges.contains(&true)
}

/// Counts records that were passed over, and sets what their patterns set.
fn move_on(state: &mut RecordState<'_>, passed: u64, resets: bool) -> Result<(), AllocError>
    ensures { OnOk result (state_of state.new ≡ moved_on resets passed (state_of state.old)) }
{
    if passed > 0 {
        state.nr = state.nr.checked_add(passed).ok_or(AllocError)?;
        if resets {
            state.rstart = 0;
            state.rlength = -1;
        }
    }
    Ok(())
}

impl Passage {
    /// What is known of the rules of a program.
    ///
    /// The error comes where memory was refused.
    pub fn of(alloc: Global, code: &Code) -> Result<Passage, AllocError>
        ensures { IfOk result (IsPassage (code_view code.now)) }
    {
        let words = words_of_rules(alloc, code.expressions.as_slice(), code.rules.as_slice())?;
        Ok(Passage {
            words,
            resets: any_resets(code.rules.as_slice()),
            pause: 0,
            wait: 0,
        })
    }

    /// Whether no record is ever passed over, since no words are known.
    pub fn passes_none(&self) -> bool
        ensures { IsTrue result ↔ (self.now.words ≡ None) }
    {
        self.words.is_none()
    }

    /// Waits longer and longer after searches that pass over fewer records than this.
    fn weigh(&mut self, passed: u64, few: u64)
        ensures { self.new ≡ self.old }
    {
        self.pause = if passed < few {
            LONGEST_PAUSE.min(self.pause.saturating_mul(2).saturating_add(1))
        } else {
            0
        };
        self.wait = self.pause;
    }

    /// Looks for the next record that a rule may be for, and passes over those before it.
    fn search<W: World>(
        &mut self,
        records: &mut Records<'_>,
        world: &W,
        state: &mut RecordState<'_>,
    ) -> Result<(), AllocError>
        ensures same { self.new ≡ self.old }
        ensures fewer { length (items_left records.new) ≤ length (items_left records.old) }
        ensures passed { OnOk result ((code : Program) → IsPassage code self.old →
            (budget : ℕ) (output : List ℕ) (left : Left) →
            records_from W.calls code.expressions code budget None
            (end_with (W.state world.now) output left state.new) (items_left records.new)
            ≡ records_from W.calls code.expressions code budget None
            (end_with (W.state world.now) output left state.old) (items_left records.old)) }
    {
        let Some(words) = &self.words else {
            return Ok(());
        };
        if !may_pass(world, state) {
            return Ok(());
        }
        let few = words.len().saturating_mul(FEW) as u64;
        let passed = records.pass_over(words.as_slice());
        self.weigh(passed, few);
        move_on(state, passed, self.resets)
    }

    /// Passes over records that no rule is for, where others follow: counts them, and sets what their
    /// patterns set. The records that are left end as all of them do.
    ///
    /// The error comes where 2^64 records were read, which no memory holds.
    ///
    /// POSIX.1-2017, awk, "Overall Program Structure" and "Patterns".
    #[inline(always)]
    pub fn pass_over<W: World>(
        &mut self,
        records: &mut Records<'_>,
        world: &W,
        state: &mut RecordState<'_>,
    ) -> Result<(), AllocError>
        ensures same { self.new ≡ self.old }
        ensures fewer { length (items_left records.new) ≤ length (items_left records.old) }
        ensures passed { OnOk result ((code : Program) → IsPassage code self.old →
            (budget : ℕ) (output : List ℕ) (left : Left) →
            records_from W.calls code.expressions code budget None
            (end_with (W.state world.now) output left state.new) (items_left records.new)
            ≡ records_from W.calls code.expressions code budget None
            (end_with (W.state world.now) output left state.old) (items_left records.old)) }
    {
        if self.words.is_none() {
            return Ok(());
        }
        if self.wait > 0 {
            self.wait -= 1;
            return Ok(());
        }
        self.search(records, world, state)
    }
}
