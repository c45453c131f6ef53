//! Sections of a table that is joined to those before it.

ghost use Rattle.pawk_table_join.specs.Joins.{IsUsable};

use crate::draft::Joined;
use crate::held::run_held;
use crate::refusal::JoinRefusal;
use crate::setting::JoinSetting;
use pawk_device::Sink;
use pawk_map::{Course, Held, MapRefusal};
use pawk_tables::Section;
use std::alloc::{AllocError, Global};
use std::sync::Wait;
use std::thread::Threads;

/// Tables as far as they are joined, where the sections that follow are of a file.
#[derive(Drop)]
pub(crate) struct Step<'t> {
    pub(crate) joined: Joined,
    /// The name of the file.
    pub(crate) name: &'t [u8],
    /// Whether more records are run.
    pub(crate) course: Course,
}

/// A record of the file of this name, of which so many records came before, to be held back.
///
/// The error comes where memory was refused.
fn held_of(alloc: Global, name: &[u8], fnr: u64, bytes: &[u8]) -> Result<Held, AllocError> {
    Ok(Held {
        name: Vec::from_slice(alloc, name)?,
        fnr,
        bytes: Vec::from_slice(alloc, bytes)?,
    })
}

/// Joins a section with records, after the record that is held back was run. `Damage` comes where it has none.
fn add_section<K: Sink>(
    setting: JoinSetting<'_>,
    joined: Joined,
    name: &[u8],
    section: Section<'_>,
    sink: &mut K,
) -> Result<Joined, JoinRefusal> {
    match section {
        Section::File(_) => Ok(joined),
        Section::Part {
            records,
            output,
            table,
        } => joined.add_part(setting, records, output, table, sink),
        Section::Kept { fnr, bytes } => {
            if setting.separator.count_records(bytes) == 0 {
                return Err(JoinRefusal::Part(MapRefusal::Damage));
            }
            let mut joined = joined;
            joined.held = Some(held_of(setting.setting.alloc, name, fnr, bytes)?);
            Ok(joined)
        }
    }
}

/// Joins a section: the name of a file, or records, before which the one that is held back is run. Where that one does not go
/// through, the section is left out.
///
/// The refusals are those of [`join_table`](crate::table::join_table), without `Before`.
pub(crate) fn join_section<'t, K: Sink, R: Threads + Wait>(
    rt: &R,
    setting: JoinSetting<'_>,
    step: Step<'t>,
    section: Section<'t>,
    sink: &mut K,
) -> Result<Step<'t>, JoinRefusal>
    requires { IsUsable setting }
{
    let Step {
        joined,
        name,
        course,
    } = step;
    if let Section::File(name) = section {
        return Ok(Step {
            joined,
            name,
            course,
        });
    }
    let (joined, course) = run_held(rt, setting, joined, sink)?;
    let joined = match course {
        Course::On => add_section(setting, joined, name, section, sink)?,
        Course::Over => joined,
    };
    Ok(Step {
        joined,
        name,
        course,
    })
}
