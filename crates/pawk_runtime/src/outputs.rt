//! Steps, keys and output.

ghost use Rattle.std.specs.Prelude.{◌≤◌, ◌<◌, ◌∷◌, [], OnOk};
ghost use Rattle.pawk_store.specs.Meaning.{key_of, print_line, print_text};
ghost use Rattle.pawk_store.specs.Parts.{tick};
ghost use Rattle.pawk_runtime.specs.Moments.{moment};
ghost use Rattle.pawk_runtime.specs.Yields.{Yields};

use crate::run::{Run, take_buffer};
use crate::scalars::{push_joined, push_separator, scalar_text};
use itoa::Buffer;
use pawk_array::Texts;
use pawk_code::slots::{OFS, ORS, SUBSEP};
use pawk_value::{Fault, LENGTH_LIMIT};
use pawk_world::{Halt, World};

/// One step of the budget.
///
/// Fault `steps` where none is left.
#[inline(always)]
pub fn tick<W: World>(world: &W, run: &mut Run<'_>) -> Result<(), Halt>
    ensures left { run.new.left ≤ run.old.left }
    ensures less { OnOk result (run.new.left < run.old.left) }
    ensures outcome { Yields (λ _. tt)
        (tick
        (moment (W.state world.now) run.old)) result (moment (W.state world.now) run.new) }
{
    if run.left == 0 {
        return Err(Halt::Fault(Fault::Steps));
    }
    run.left -= 1;
    Ok(())
}

/// The key that these texts are together: several are joined by SUBSEP.
fn joined_key<W: World>(texts: &Texts, world: &W, run: &mut Run<'_>) -> Result<Vec<u8>, Halt>
    ensures left { run.new.left ≤ run.old.left }
    ensures outcome { Yields (λ key. key.items)
        (key_of W.calls texts.now
        (moment (W.state world.now) run.old)) result (moment (W.state world.now) run.new) }
{
    let mut key = take_buffer(run.alloc, &mut run.spare);
    if texts.len() == 0 {
        return Ok(key);
    }
    if texts.len() == 1 {
        key.extend_from_slice(texts.text(0))?;
        return Ok(key);
    }
    let mut buffer = Buffer::new();
    push_joined(texts, scalar_text(SUBSEP, world, &mut buffer), &mut key)?;
    if key.len() > LENGTH_LIMIT {
        return Err(Halt::Fault(Fault::Length));
    }
    Ok(key)
}

/// The key that subscripts spell: several are joined by SUBSEP. The room of the texts is kept.
///
/// Fault `length` where it is longer than a text may be.
///
/// POSIX.1-2017, awk, "Variables and Special Variables" (`SUBSEP`).
pub fn key_of_texts<W: World>(texts: Texts, world: &W, run: &mut Run<'_>) -> Result<Vec<u8>, Halt>
    ensures left { run.new.left ≤ run.old.left }
    ensures outcome { Yields (λ key. key.items)
        (key_of W.calls texts
        (moment (W.state world.now) run.old)) result (moment (W.state world.now) run.new) }
{
    let key = joined_key(&texts, world, run);
    run.texts = texts;
    key
}

/// Prints texts with OFS between them and ORS after them.
fn print_joined<W: World>(texts: &Texts, world: &W, run: &mut Run<'_>) -> Result<(), Halt>
    ensures left { run.new.left ≤ run.old.left }
    ensures outcome { Yields (λ _. tt)
        (print_line W.calls texts.now
        (moment (W.state world.now) run.old)) result (moment (W.state world.now) run.new) }
{
    let mut between = Buffer::new();
    let mut behind = Buffer::new();
    push_joined(
        texts,
        scalar_text(OFS, world, &mut between),
        &mut run.output,
    )?;
    push_separator(scalar_text(ORS, world, &mut behind), &mut run.output)?;
    Ok(())
}

/// Prints texts with OFS between them and ORS after them. Their room is kept.
///
/// POSIX.1-2017, awk, "Output Statements" (`print`).
pub fn print_line<W: World>(texts: Texts, world: &W, run: &mut Run<'_>) -> Result<(), Halt>
    ensures left { run.new.left ≤ run.old.left }
    ensures outcome { Yields (λ _. tt)
        (print_line W.calls texts
        (moment (W.state world.now) run.old)) result (moment (W.state world.now) run.new) }
{
    let printed = print_joined(&texts, world, run);
    run.texts = texts;
    printed
}

/// Prints a text with ORS after it.
///
/// POSIX.1-2017, awk, "Output Statements" (`print`).
#[inline(always)]
pub fn print_alone<W: World>(text: &[u8], world: &W, run: &mut Run<'_>) -> Result<(), Halt>
    ensures left { run.new.left ≤ run.old.left }
    ensures outcome { Yields (λ _. tt)
        (print_line W.calls (text.now ∷ [])
        (moment (W.state world.now) run.old)) result (moment (W.state world.now) run.new) }
{
    let mut behind = Buffer::new();
    run.output.extend_from_slice(text)?;
    push_separator(scalar_text(ORS, world, &mut behind), &mut run.output)?;
    Ok(())
}

/// Prints a text as it is.
pub fn print_bytes<W: World>(text: &[u8], world: &W, run: &mut Run<'_>) -> Result<(), Halt>
    ensures left { run.new.left ≤ run.old.left }
    ensures outcome { Yields (λ _. tt)
        (print_text text.now
        (moment (W.state world.now) run.old)) result (moment (W.state world.now) run.new) }
{
    run.output.extend_from_slice(text)?;
    Ok(())
}
