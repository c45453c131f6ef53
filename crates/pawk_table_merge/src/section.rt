//! Sections of a table that are merged.

ghost use Rattle.std.specs.Prelude.{◌≡◌, ◌-◌, true, IfErr, IfOk, IsTrue, OnOk};
ghost use Rattle.pawk_code.specs.ProgramViews.{code_view};
ghost use Rattle.pawk_admit.specs.Roles.{roles_view};
ghost use Rattle.pawk_merge.specs.Tables.{all_take};
ghost use Rattle.pawk_merge.specs.Tables as tables;
ghost use Rattle.pawk_store.specs.LeftViews.{left_view};
ghost use Rattle.pawk_flow.specs.Pieces.{GoesInChunks, RunsPiece};
ghost use Rattle.pawk_tables.specs.Layout.{kept, part};
ghost use Rattle.pawk_tables.specs.Views.{section_of};
ghost use Rattle.pawk_table_merge.specs.Sections.{IsCauseOf, IsEndOf, IsReady, IsUsable, JoinsPart, MergesSection, RefusesSection};
ghost use Rattle.pawk_table_merge.specs.TableMerges.{MayGoOn};

use crate::law::PlainStore;
use crate::merging::{Stop, StopCause, TableEnd};
use crate::refusal::MergeRefusal;
use crate::write::{write_bytes, write_parts};
use pawk_admit::Roles;
use pawk_device::Sink;
use pawk_flow::{Flow, Piece, PieceEnd, run_piece_noting};
use pawk_frozen::Table;
use pawk_merge::{join_table, takes_table};
use pawk_merge_law::window_law::{faults_follow, pieces_follow};
use pawk_merge_law::{may_run, stays_ready};
use pawk_sequential::Job;
use pawk_shards::law::{parts_are_chunks, records_go_on};
use pawk_store::law::output_is_appended;
use pawk_store::{Globals, Left};
use pawk_tables::Section;
use std::alloc::AllocError;

/// What stays the same from section to section.
#[derive(Clone, Copy)]
pub(crate) struct Setting<'p> {
    pub job: Job<'p>,
    /// The bytes of `RS`, at most one.
    pub rs: &'p [u8],
    /// What the records do with each global.
    pub roles: &'p Roles,
    /// How many records came before the table.
    pub come: u64,
}

/// How far the sections of a table are merged.
#[derive(Drop)]
pub(crate) struct Progress<'t> {
    /// The run after them.
    pub flow: Flow,
    /// The name of the file that the records which follow are of.
    pub name: &'t [u8],
    /// Whether the record, `FNR` and `FILENAME` are those of the last record: it was run here.
    pub has_record: bool,
    /// Whether it is known that records may be run in chunks from here.
    pub is_ready: bool,
}

/// How far the sections of a table are merged, and how its records were left, if no section after these is looked at.
pub(crate) type Step<'t> = (Progress<'t>, Option<TableEnd>);

/// How many records of the table have come to a run.
pub(crate) fn records_in(setting: Setting<'_>, flow: &Flow) -> u64
    ensures { result ≡ flow.now.state.nr - setting.entry.come }
{
    flow.state.count().saturating_sub(setting.come)
}

/// Joins the globals to what a part noted of them, which each cell takes. An error where memory is refused.
fn join_taken(globals: &mut Globals, table: Table) -> Result<(), AllocError>
    requires { all_take table globals.old ≡ true }
    ensures { OnOk result (globals.new ≡ tables.join_table table globals.old) }
{
    match join_table(globals, table) {
        Ok(()) => Ok(()),
        Err(_) => Err(AllocError),
    }
}

/// Merges a part of so many records, whose cells all take what it noted.
///
/// `Damage` comes where the records cannot be counted, `Memory` where memory was refused.
fn take_part(flow: &mut Flow, records: u64, table: Table) -> Result<(), MergeRefusal>
    requires { all_take table flow.old.globals ≡ true }
    ensures { OnOk result (JoinsPart records table flow.old flow.new) }
{
    let Some(count) = flow.state.count().checked_add(records) else {
        return Err(MergeRefusal::Damage);
    };
    join_taken(&mut flow.globals, table)?;
    flow.state.set_count(count);
    Ok(())
}

/// Merges a part of so many records, and writes what it wrote; or stops before it, where a cell does not take what it
/// noted.
fn merge_part<'t, K: Sink>(
    setting: Setting<'_>,
    progress: Progress<'t>,
    records: u64,
    output: &[u8],
    table: Table,
    sink: &mut K,
) -> Result<Step<'t>, MergeRefusal>
    requires { IsReady setting progress.flow progress.is_ready }
    ensures merges { IfOk result (λ r. MergesSection setting.entry (part records output.now table)
        (K.taken sink.old) (K.taken sink.new) progress.entry r.0 r.1) }
    ensures ready { IfOk result (λ r. IsReady setting.entry r.0.flow r.0.is_ready) }
    ensures refused { IfErr result (λ _. RefusesSection setting.entry (part records output.now table)
        (K.taken sink.old) (K.taken sink.new) progress.entry) }
{
    parts_are_chunks();
    records_go_on();
    pieces_follow::<PlainStore>();
    output_is_appended::<PlainStore>();
    let Progress {
        flow,
        name,
        has_record,
        is_ready,
    } = progress;
    if !takes_table(&flow.globals, &table) {
        let stop = Stop {
            cause: StopCause::Sum,
            record: records_in(setting, &flow),
        };
        let progress = Progress {
            flow,
            name,
            has_record,
            is_ready,
        };
        return Ok((progress, Some(TableEnd::Stopped(stop))));
    }
    let is_ready = stays_ready(is_ready, setting.roles, &table);
    let mut flow = flow;
    take_part(&mut flow, records, table)?;
    write_bytes(sink, output)?;
    let progress = Progress {
        flow,
        name,
        has_record: false,
        is_ready,
    };
    Ok((progress, None))
}

/// Whether records may be run in chunks where a run is; where that is known its globals are not
/// read.
fn may_go_on(setting: Setting<'_>, flow: &Flow, is_ready: bool) -> Result<bool, AllocError>
    requires usable { IsUsable setting }
    requires ready { IsReady setting flow.now is_ready }
    ensures { IfOk result (λ may. IsTrue may → MayGoOn (code_view setting.entry.job.code.now)
        (roles_view setting.entry.roles.now) flow.now) }
{
    if is_ready {
        return Ok(true);
    }
    let may = may_run(setting.roles, &flow.globals)?;
    Ok(may)
}

/// Runs records that are kept.
///
/// `Damage` comes where the globals are not such that records may be run in chunks over them, `Input` where the records
/// cannot be counted, `Memory` where memory was refused.
fn run_kept(
    setting: Setting<'_>,
    flow: Flow,
    is_ready: bool,
    piece: Piece<'_>,
) -> Result<(Flow, PieceEnd), MergeRefusal>
    requires usable { IsUsable setting }
    requires ready { IsReady setting flow is_ready }
    requires rs { piece.rs.now ≡ setting.rs.now }
    ensures runs { IfOk result (λ r. RunsPiece (code_view setting.entry.job.code.now)
        setting.entry.job.budget piece.entry flow r.0 r.1) }
    ensures goes { IfOk result (λ r. GoesInChunks (code_view setting.entry.job.code.now)
        (roles_view setting.entry.roles.now) setting.entry.job.budget piece.entry flow r.0
        r.1.is_stopped) }
{
    if !may_go_on(setting, &flow, is_ready)? {
        return Err(MergeRefusal::Damage);
    }
    Ok(run_piece_noting(setting.job, flow, setting.roles, piece)?)
}

/// What stops a merge at records that were left so.
fn cause_of(left: Left) -> StopCause
    ensures { IsCauseOf (left_view left) result }
{
    match left {
        Left::Fault(fault) => StopCause::Fault(fault),
        Left::Through | Left::NextFile | Left::Exit(_) | Left::Clash => StopCause::Element,
    }
}

/// How the records of a table are left whose last ones were run here and left so; none where more of them may follow.
/// They are so many.
fn end_of(left: Left, is_stopped: bool, records: u64) -> Option<TableEnd>
    ensures { IsEndOf (left_view left) is_stopped records result }
{
    if is_stopped {
        return Some(TableEnd::Stopped(Stop {
            cause: cause_of(left),
            record: records,
        }));
    }
    match left {
        Left::Through => None,
        Left::NextFile | Left::Exit(_) | Left::Fault(_) | Left::Clash => {
            Some(TableEnd::Ended(left))
        }
    }
}

/// Runs records that are kept, and writes what they write; tells where they end the run, or stop the merge.
fn merge_kept<'t, K: Sink>(
    setting: Setting<'_>,
    progress: Progress<'t>,
    fnr: u64,
    bytes: &[u8],
    sink: &mut K,
) -> Result<Step<'t>, MergeRefusal>
    requires usable { IsUsable setting }
    requires ready { IsReady setting progress.flow progress.is_ready }
    ensures merges { IfOk result (λ r. MergesSection setting.entry (kept fnr bytes.now)
        (K.taken sink.old) (K.taken sink.new) progress.entry r.0 r.1) }
    ensures ready { IfOk result (λ r. IsReady setting.entry r.0.flow r.0.is_ready) }
    ensures refused { IfErr result (λ _. RefusesSection setting.entry (kept fnr bytes.now)
        (K.taken sink.old) (K.taken sink.new) progress.entry) }
{
    records_go_on();
    faults_follow();
    pieces_follow::<PlainStore>();
    output_is_appended::<PlainStore>();
    let Progress {
        flow,
        name,
        has_record: _,
        is_ready,
    } = progress;
    let piece = Piece {
        rs: setting.rs,
        name,
        fnr,
        bytes: Vec::from_slice(flow.alloc, bytes)?,
    };
    let (flow, end) = run_kept(setting, flow, is_ready, piece)?;
    let PieceEnd {
        outputs,
        left,
        fnr: _,
        bytes: _,
        is_stopped,
        noted: _,
    } = end;
    write_parts(sink, outputs)?;
    let end = end_of(left, is_stopped, records_in(setting, &flow));
    let progress = Progress {
        flow,
        name,
        has_record: true,
        is_ready: !is_stopped,
    };
    Ok((progress, end))
}

/// Merges a section: what a part noted and wrote, or records that are run here. Tells where no section after it is
/// looked at.
///
/// `Damage` comes where records cannot be counted, or may not be run here; `Input` where they cannot be counted on in
/// their file, `Memory` where memory was refused, `Write` where a write failed.
pub(crate) fn merge_section<'t, K: Sink>(
    setting: Setting<'_>,
    progress: Progress<'t>,
    section: Section<'t>,
    sink: &mut K,
) -> Result<Step<'t>, MergeRefusal>
    requires usable { IsUsable setting }
    requires ready { IsReady setting progress.flow progress.is_ready }
    ensures merges { IfOk result (λ r. MergesSection setting.entry (section_of section.entry)
        (K.taken sink.old) (K.taken sink.new) progress.entry r.0 r.1) }
    ensures ready { IfOk result (λ r. IsReady setting.entry r.0.flow r.0.is_ready) }
    ensures refused { IfErr result (λ _. RefusesSection setting.entry (section_of section.entry)
        (K.taken sink.old) (K.taken sink.new) progress.entry) }
{
    match section {
        Section::File(name) => {
            let progress = Progress {
                flow: progress.flow,
                name,
                has_record: progress.has_record,
                is_ready: progress.is_ready,
            };
            Ok((progress, None))
        }
        Section::Part {
            records,
            output,
            table,
        } => merge_part(setting, progress, records, output, table, sink),
        Section::Kept { fnr, bytes } => merge_kept(setting, progress, fnr, bytes, sink),
    }
}
