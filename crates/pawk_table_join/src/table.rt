//! A table that is joined to those before it.

ghost use Rattle.pawk_table_join.specs.Joins.{IsUsable};

use crate::draft::Joined;
use crate::held::run_held;
use crate::order::Neighbour;
use crate::refusal::JoinRefusal;
use crate::section::{Step, join_section};
use crate::setting::JoinSetting;
use pawk_device::Sink;
use pawk_map::{Course, MapRefusal};
use pawk_numbered::reads_number;
use pawk_tables::{ReadSection, read_section};
use std::sync::Wait;
use std::thread::Threads;

/// Whether a table may end here, which began after `begun` records and says that it has so many: its last record is held back.
fn may_end(
    setting: JoinSetting<'_>,
    joined: &Joined,
    begun: u64,
    records: u64,
) -> Result<bool, JoinRefusal> {
    let count = joined.count(setting.separator)?.saturating_sub(begun);
    Ok(count == records && (records == 0 || joined.held.is_some()))
}

/// Joins the sections of a table, which begins after so many records.
fn join_sections<K: Sink, R: Threads + Wait>(
    rt: &R,
    setting: JoinSetting<'_>,
    joined: Joined,
    begun: u64,
    sections: &[u8],
    sink: &mut K,
) -> Result<(Joined, Course), JoinRefusal>
    requires { IsUsable setting }
{
    let mut step = Step {
        joined,
        name: &[],
        course: Course::On,
    };
    let mut rest = sections;
    for _ in 0..sections.len() {
        let (item, after) = read_section(setting.setting.alloc, setting.shape, rest)?;
        match item {
            ReadSection::Section(section) => {
                step = join_section(rt, setting, step, section, sink)?;
                if let Course::Over = step.course {
                    return Ok((step.joined, Course::Over));
                }
                rest = after;
            }
            ReadSection::Records(records) => {
                if may_end(setting, &step.joined, begun, records)? {
                    return Ok((step.joined, Course::On));
                }
                return Err(JoinRefusal::Part(MapRefusal::Damage));
            }
        }
    }
    Err(JoinRefusal::Part(MapRefusal::Damage))
}

/// Whether a table says that other records come before its own than there are, and that matters to the program.
fn is_elsewhere(setting: JoinSetting<'_>, before: u64, come: u64) -> bool {
    before != come && reads_number(setting.setting.job.code)
}

/// Joins a table to those before it. Its last record is held back. Tells whether more records are run after it: where one of its
/// records, or the one that was held back, does not go through, what follows it is left out.
///
/// `Before` comes where the program reads `NR` and other records come before the table than it says, `Damage` where its bytes are
/// no sections of a table of the program, where they say another number of records than they have, or where the last record is
/// none that is kept; `Input` where records cannot be counted, `Memory` where memory was refused, `Write` where a write failed.
pub(crate) fn join_table<K: Sink, R: Threads + Wait>(
    rt: &R,
    setting: JoinSetting<'_>,
    joined: Joined,
    table: Neighbour<'_, '_>,
    sink: &mut K,
) -> Result<(Joined, Course), JoinRefusal>
    requires { IsUsable setting }
{
    let begun = joined.count(setting.separator)?;
    let come = setting.before.checked_add(begun).ok_or(MapRefusal::Input)?;
    let before = table.before;
    if !is_elsewhere(setting, before, come) {
        return join_sections(rt, setting, joined, begun, table.sections, sink);
    }
    // Where the record that is held back ends the run, no record follows it.
    match run_held(rt, setting, joined, sink)? {
        (joined, Course::Over) => Ok((joined, Course::Over)),
        (_, Course::On) => Err(JoinRefusal::Before { before, come }),
    }
}
