//! A table file as far as it is written.

ghost use Rattle.std.specs.Prelude.{◌≡◌, ◌≤◌, ℕ, List, None, length, IfOk};
ghost use Rattle.pawk_map.specs.Maps.{GoesUnder, Ground, Tells, held_items};
ghost use Rattle.pawk_map.specs.Maps.{IsFront, IsHeld};
ghost use Rattle.pawk_map.specs.Sections.{SaySections, name_after};
ghost use Rattle.pawk_map.specs.declared.draft.Course.TheVariants.{On};
ghost use Rattle.pawk_shards.specs.Told.{kept_records};
ghost use Rattle.pawk_tables.specs.Layout.{Section};

use crate::refusal::MapRefusal;
use crate::write::write_lines;
use pawk_device::Sink;
use pawk_records::Separator;
use pawk_tables::{push_file, push_kept};
use sha2::Sha256;
use std::alloc::{AllocError, Global};

/// How far a table file is written.
#[derive(Drop)]
pub struct Progress {
    /// The digest of what was written.
    pub digest: Sha256,
    /// The name of the file that the last section is of; before the first section none.
    pub name: Vec<u8>,
    /// How many records the sections have.
    pub records: u64,
}

/// The last record that came, which is held back from what is written.
#[derive(Drop)]
pub struct Held {
    /// The name of its file.
    pub name: Vec<u8>,
    /// How many records of the file came before.
    pub fnr: u64,
    /// Its bytes, with what ends it.
    pub bytes: Vec<u8>,
}

/// A table file as far as it is written, and the last record that came, which is held back.
#[derive(Drop)]
pub struct Draft {
    /// How far the file is written.
    pub progress: Progress,
    /// The record that is held back, if there is one.
    pub held: Option<Held>,
}

/// Whether more records of a shard are run.
#[derive(Clone, Copy, PartialEq, Eq, Drop)]
pub enum Course {
    /// All so far went through.
    On,
    /// The last ones did not, and are kept as bytes: those that follow are left unread.
    Over,
}

/// What is held back after records that were left so: this last record of a file, so many of whose records came before.
///
/// The error comes where memory was refused.
pub(crate) fn held_of(
    alloc: Global,
    course: Course,
    name: &[u8],
    fnr: u64,
    last: Vec<u8>,
) -> Result<Option<Held>, AllocError>
    ensures { IfOk result (IsHeld course name.now fnr last.items) }
{
    match course {
        Course::On => Ok(Some(Held {
            name: Vec::from_slice(alloc, name)?,
            fnr,
            bytes: last,
        })),
        Course::Over => Ok(None),
    }
}

/// The line of a file, where the section before is not of it.
///
/// The error comes where memory was refused.
fn file_line(alloc: Global, last: &[u8], name: &[u8]) -> Result<Vec<u8>, AllocError>
    ensures { IfOk result (λ line. IsFront last.now name.now line.items) }
{
    let mut line = Vec::new(alloc);
    if last != name {
        push_file(&mut line, name)?;
    }
    Ok(line)
}

/// Writes lines of sections that have so many records of a file of this name, after the line of the file where the last section
/// that was written is not of it. Where there is no record nothing is written.
///
/// `Write` comes where a write failed, `Memory` where memory was refused, and `Input` where there are more records than can be
/// counted.
pub fn write_sections<K: Sink>(
    alloc: Global,
    progress: Progress,
    name: &[u8],
    lines: &[u8],
    records: u64,
    sink: &mut K,
) -> Result<Progress, MapRefusal>
    ensures some { IfOk result (λ new. (scalars arrays : ℕ) (sections : List Section) →
        (records ≡ 0 → ⊥) → SaySections scalars arrays sections lines.now →
        name_after name.now sections ≡ name.now →
        GoesUnder scalars arrays (K.taken sink.old) (K.taken sink.new) progress new
        name.now sections records) }
    ensures none { records ≡ 0 → IfOk result (λ new.
        (new ≡ progress) × (K.taken sink.new ≡ K.taken sink.old)) }
{
    if records == 0 {
        return Ok(progress);
    }
    let mut progress = progress;
    let line = file_line(alloc, &progress.name, name)?;
    write_lines(sink, &mut progress.digest, &line)?;
    write_lines(sink, &mut progress.digest, lines)?;
    progress.name = Vec::from_slice(alloc, name)?;
    progress.records = progress
        .records
        .checked_add(records)
        .ok_or(MapRefusal::Input)?;
    Ok(progress)
}

/// Writes a record that was held back as bytes. What has no record changes nothing.
fn keep_last<K: Sink>(
    alloc: Global,
    rs: &[u8],
    progress: Progress,
    held: Held,
    sink: &mut K,
) -> Result<Progress, MapRefusal>
    requires { length rs.now ≤ 1 }
    ensures { IfOk result (λ new. (u : Ground) → u.rs ≡ rs.now →
        Tells u (K.taken sink.old) (K.taken sink.new) progress
        (kept_records u.rs held.name.items held.fnr held.bytes.items) On new) }
{
    let Held { name, fnr, bytes } = held;
    let count = Separator::of(rs).count_records(&bytes) as u64;
    if count == 0 {
        return Ok(progress);
    }
    let mut lines = Vec::new(alloc);
    push_kept(&mut lines, fnr, &bytes)?;
    write_sections(alloc, progress, &name, &lines, count, sink)
}

/// Writes the record that is held back, if there is one, as bytes: the section of a table file that keeps it. The bytes of `RS` are
/// at most one.
///
/// `Write` comes where a write failed, `Memory` where memory was refused, and `Input` where there are more records than can be
/// counted.
pub fn keep_held<K: Sink>(
    alloc: Global,
    rs: &[u8],
    draft: Draft,
    sink: &mut K,
) -> Result<Progress, MapRefusal>
    requires { length rs.now ≤ 1 }
    ensures tells { IfOk result (λ new. (u : Ground) → u.rs ≡ rs.now →
        Tells u (K.taken sink.old) (K.taken sink.new) draft.progress
        (held_items u.rs draft.held) On new) }
    ensures none { draft.held ≡ None → IfOk result (λ new.
        (new ≡ draft.progress) × (K.taken sink.new ≡ K.taken sink.old)) }
{
    let Draft { progress, held } = draft;
    match held {
        Some(held) => keep_last(alloc, rs, progress, held, sink),
        None => Ok(progress),
    }
}
