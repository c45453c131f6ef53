//! A join of tables.

ghost use Rattle.std.specs.Prelude.{◌≤◌, length};
ghost use Rattle.pawk_code.specs.ProgramViews.{code_view};
ghost use Rattle.pawk_pieces.specs.Begins.{IsStart};
ghost use Rattle.pawk_store.specs.Openings.{pairs_of};
ghost use Rattle.pawk_table_join.specs.Joins.{IsUsable};

use crate::draft::Joined;
use crate::order::{JoinOrder, Neighbour};
use crate::refusal::{JoinRefusal, JoinStop, at};
use crate::setting::JoinSetting;
use crate::table::join_table;
use pawk_device::Sink;
use pawk_map::{Course, Draft, MapRefusal, Progress, Setting, end_file, keep_held, write_lines};
use pawk_pieces::{Begun, Flow, Start, begin_flow};
use pawk_records::Separator;
use pawk_routes::{Cutting, Way};
use pawk_tables::{Shape, push_header};
use sha2::{Digest, Sha256};
use std::alloc::Global;
use std::sync::Wait;
use std::thread::Threads;

/// Writes what the table of all begins with, and gives how far it is written.
fn write_header<K: Sink>(
    alloc: Global,
    order: JoinOrder<'_>,
    sink: &mut K,
) -> Result<Progress, JoinRefusal> {
    let mut digest = Sha256::new();
    let mut lines = Vec::new(alloc);
    push_header(&mut lines, &order.header)?;
    write_lines(sink, &mut digest, &lines)?;
    Ok(Progress {
        digest,
        name: Vec::new(alloc),
        records: 0,
    })
}

/// Writes the table of all where no record is read.
fn join_nothing<K: Sink>(
    alloc: Global,
    order: JoinOrder<'_>,
    sink: &mut K,
) -> Result<(), JoinRefusal> {
    let progress = write_header(alloc, order, sink)?;
    Ok(end_file(alloc, progress.digest, 0, sink)?)
}

/// Joins tables, one after the other, up to where no more records are run.
fn join_each<'a, K: Sink, R: Threads + Wait>(
    rt: &R,
    setting: JoinSetting<'_>,
    joined: Joined,
    tables: &[Neighbour<'a, '_>],
    sink: &mut K,
) -> Result<Joined, JoinStop<'a>>
    requires { IsUsable setting }
{
    let mut joined = joined;
    for table in tables {
        let (next, course) = at(table.name, join_table(rt, setting, joined, *table, sink))?;
        joined = next;
        if let Course::Over = course {
            break;
        }
    }
    Ok(joined)
}

/// Writes what is not written yet of tables that were joined, and the end of the table of all.
fn end_join<K: Sink>(
    setting: JoinSetting<'_>,
    joined: Joined,
    sink: &mut K,
) -> Result<(), JoinRefusal>
    requires { length setting.rs.now ≤ 1 }
{
    let alloc = setting.setting.alloc;
    let Joined {
        progress,
        pending: _,
        held,
    } = joined.write_pending(alloc, sink)?;
    let progress = keep_held(alloc, setting.rs, Draft { progress, held }, sink)?;
    Ok(end_file(alloc, progress.digest, progress.records, sink)?)
}

/// Writes the table of all from its first section on; failures of the whole are those of the table of this name.
fn join_sections_of_all<'a, K: Sink, R: Threads + Wait>(
    rt: &R,
    setting: JoinSetting<'_>,
    progress: Progress,
    name: &'a str,
    tables: &[Neighbour<'a, '_>],
    sink: &mut K,
) -> Result<(), JoinStop<'a>>
    requires { IsUsable setting }
{
    let joined = Joined {
        progress,
        pending: None,
        held: None,
    };
    let joined = join_each(rt, setting, joined, tables, sink)?;
    at(name, end_join(setting, joined, sink))
}

/// Writes the table of all after BEGIN, where records are read.
fn join_on<'a, K: Sink, R: Threads + Wait>(
    rt: &R,
    order: JoinOrder<'_>,
    start: Start,
    name: &'a str,
    tables: &[Neighbour<'a, '_>],
    sink: &mut K,
) -> Result<(), JoinStop<'a>>
    requires { IsStart (code_view order.job.code.now) order.job.budget
        (pairs_of order.header.assignments.now) (pairs_of order.header.first.now) start }
{
    let Start {
        flow,
        output: _,
        rs,
        roles,
    } = start;
    let roles = match roles {
        Ok(roles) => roles,
        Err(reason) => return at(
            name,
            Err(JoinRefusal::Part(MapRefusal::NotAdmitted(reason))),
        ),
    };
    let Flow {
        alloc,
        globals,
        state: kept,
    } = flow;
    let mut kept = kept;
    let state = kept.lend();
    // One record is one chunk.
    let cutting = Cutting::AtLeast(u64::MAX);
    let setting = JoinSetting {
        setting: Setting {
            alloc,
            job: order.job,
            globals: &globals,
            roles: &roles,
            state: &state,
            way: Way {
                cutting: &cutting,
                workers: 1,
            },
        },
        rs: &rs,
        separator: Separator::of(&rs),
        shape: Shape {
            seed: order.job.seed,
            scalars: globals.scalar_count(),
            arrays: globals.array_count(),
        },
        before: order.header.before,
    };
    let progress = at(name, write_header(alloc, order, sink))?;
    join_sections_of_all(rt, setting, progress, name, tables, sink)
}

/// Joins tables of neighbouring shards, in their order, to one table of them all, and writes it to a sink. BEGIN is run, and what
/// it writes is left out.
///
/// Parts that follow each other are composed where their tables may be. A record that a table keeps is run as a part of its own,
/// over the globals that BEGIN left, where another record follows it; where it does not go through, it stays kept, and what
/// follows it is left out. The last record stays kept.
///
/// The stop names a table. Its refusal is `NotAdmitted` where the records may not be run in chunks, and nothing was written then;
/// `Before` where the program reads `NR` and other records come before the table than it says; `Damage` where its bytes are no
/// sections of a table of the program; `Input` where records cannot be counted, `Memory` where memory was refused, `Write` where a
/// write failed. What was written then is no whole table.
pub fn join<'a, K: Sink, R: Threads + Wait>(
    rt: &R,
    alloc: Global,
    order: JoinOrder<'_>,
    tables: &[Neighbour<'a, '_>],
    sink: &mut K,
) -> Result<(), JoinStop<'a>> {
    let name = match tables.first() {
        Some(table) => table.name,
        None => "",
    };
    let (assignments, first) = (order.header.assignments, order.header.first);
    match begin_flow(alloc, order.job, assignments, first) {
        Ok(Begun::Ended(_, _)) => at(name, join_nothing(alloc, order, sink)),
        Ok(Begun::Flows(start)) => join_on(rt, order, start, name, tables, sink),
        Err(refusal) => at(name, Err(JoinRefusal::from(refusal))),
    }
}
