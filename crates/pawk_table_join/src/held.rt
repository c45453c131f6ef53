//! The record that is held back.

ghost use Rattle.pawk_table_join.specs.Joins.{IsUsable};

use crate::draft::Joined;
use crate::refusal::JoinRefusal;
use crate::setting::JoinSetting;
use pawk_device::Sink;
use pawk_map::{Apart, Course, Held, MapRefusal, run_apart, write_sections};
use pawk_pieces::Piece;
use pawk_routes::Open;
use pawk_tables::{ReadSection, Section, push_records, read_section};
use std::sync::Wait;
use std::thread::Threads;

/// Adds a part that was run here; other sections are none.
fn add_run<K: Sink>(
    setting: JoinSetting<'_>,
    joined: Joined,
    part: Section<'_>,
    sink: &mut K,
) -> Result<Joined, JoinRefusal> {
    match part {
        Section::Part {
            records,
            output,
            table,
        } => joined.add_part(setting, records, output, table, sink),
        Section::File(_) | Section::Kept { .. } => Err(JoinRefusal::Part(MapRefusal::Damage)),
    }
}

/// Adds the parts that lines say, which have so many records.
fn add_lines<K: Sink>(
    setting: JoinSetting<'_>,
    joined: Joined,
    lines: Vec<u8>,
    records: u64,
    sink: &mut K,
) -> Result<Joined, JoinRefusal> {
    let mut lines = lines;
    push_records(&mut lines, records)?;
    let mut joined = joined;
    let mut rest = lines.as_slice();
    for _ in 0..lines.len() {
        let (item, after) = read_section(setting.setting.alloc, setting.shape, rest)?;
        match item {
            ReadSection::Section(part) => joined = add_run(setting, joined, part, sink)?,
            ReadSection::Records(_) => return Ok(joined),
        }
        rest = after;
    }
    Err(JoinRefusal::Part(MapRefusal::Damage))
}

/// Adds what a record left that was run apart, in a file of this name: its part, or its bytes, where it was not left through.
fn add_apart<K: Sink>(
    setting: JoinSetting<'_>,
    joined: Joined,
    name: &[u8],
    apart: Apart,
    sink: &mut K,
) -> Result<(Joined, Course), JoinRefusal> {
    let Apart {
        lines,
        records,
        is_through,
        bytes: _,
    } = apart;
    if is_through {
        let joined = add_lines(setting, joined, lines, records, sink)?;
        return Ok((joined, Course::On));
    }
    let alloc = setting.setting.alloc;
    let joined = joined.write_pending(alloc, sink)?;
    let Joined {
        progress,
        pending,
        held,
    } = joined;
    let progress = write_sections(alloc, progress, name, &lines, records, sink)?;
    let joined = Joined {
        progress,
        pending,
        held,
    };
    Ok((joined, Course::Over))
}

/// Runs the record that is held back, if there is one, as a part of its own, since another record follows it. Tells whether more
/// records are run after it.
///
/// `Write` comes where a write failed, `Memory` where memory was refused, `Input` where records cannot be counted on, and `Damage`
/// where something was noted that no line can say.
pub(crate) fn run_held<K: Sink, R: Threads + Wait>(
    rt: &R,
    setting: JoinSetting<'_>,
    joined: Joined,
    sink: &mut K,
) -> Result<(Joined, Course), JoinRefusal>
    requires { IsUsable setting }
{
    let count = joined.part_count()?;
    let before = setting.before.checked_add(count).ok_or(MapRefusal::Input)?;
    let Joined {
        progress,
        pending,
        held,
    } = joined;
    let joined = Joined {
        progress,
        pending,
        held: None,
    };
    match held {
        Some(Held { name, fnr, bytes }) => {
            let piece = Piece {
                rs: setting.rs,
                name: &name,
                fnr,
                bytes,
            };
            let apart = run_apart(rt, setting.setting, before, piece, &Open)?;
            add_apart(setting, joined, &name, apart, sink)
        }
        None => Ok((joined, Course::On)),
    }
}
