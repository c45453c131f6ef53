//! Tables that are merged.

ghost use Rattle.std.specs.Prelude.{◌≡◌, ◌-◌, true, IfErr, IfOk, IsTrue, OnOk};
ghost use Rattle.pawk_code.specs.ProgramViews.{code_view};
ghost use Rattle.pawk_numbered.specs.Mentions as numbered;
ghost use Rattle.pawk_table_merge.specs.Sections.{IsReady, IsUsable, MergesSections, RefusesSections};
ghost use Rattle.pawk_table_merge.specs.TableMerges.{AreAlike, IsMergeOf, MergesTable, RefusesTable};

use crate::law::{PlainStore, sections_tell_later};
use crate::merging::{Merging, TableEnd};
use crate::refusal::MergeRefusal;
use crate::section::{Progress, Setting, merge_section, records_in};
use pawk_device::Sink;
use pawk_flow::Flow;
use pawk_merge_law::window_law::pieces_follow;
use pawk_numbered::reads_number;
use pawk_sequential::Job;
use pawk_store::law::output_is_appended;
use pawk_tables::laws::fronts_are_single;
use pawk_tables::{ReadSection, Shape, read_section};

/// Refuses a table whose records come after so many, by its own word, where another number has come and the program
/// reads `NR`.
fn check_before(job: Job<'_>, before: u64, come: u64) -> Result<(), MergeRefusal>
    ensures { OnOk result
        (numbered.reads_number (code_view job.entry.code.now) ≡ true → before ≡ come) }
{
    if before != come && reads_number(job.code) {
        return Err(MergeRefusal::Before { before, come });
    }
    Ok(())
}

/// Whether a table of so many records may end here.
fn may_end(setting: Setting<'_>, progress: &Progress<'_>, records: u64) -> bool
    ensures { IsTrue result → (progress.now.has_record ≡ true)
        × (progress.now.flow.state.nr - setting.entry.come ≡ records) }
{
    progress.has_record && records_in(setting, &progress.flow) == records
}

/// Merges the sections of a table, and gives the run after them, and whether it is known to be ready
/// for records, as it may be before them.
///
/// The refusals are those of [`merge_table`], without `Before`.
fn merge_sections<K: Sink>(
    setting: Setting<'_>,
    flow: Flow,
    is_ready: bool,
    shape: Shape,
    sections: &[u8],
    sink: &mut K,
) -> Result<(Flow, bool, TableEnd), MergeRefusal>
    requires usable { IsUsable setting }
    requires ready { IsReady setting flow is_ready }
    ensures merges { IfOk result (λ r. MergesSections setting.entry shape sections.now
        (K.taken sink.old) (K.taken sink.new) flow r.0 r.2) }
    ensures ready { IfOk result (λ r. IsReady setting.entry r.0 r.1) }
    ensures refused { IfErr result (λ _. RefusesSections setting.entry shape sections.now
        (K.taken sink.old) (K.taken sink.new) flow) }
{
    fronts_are_single();
    pieces_follow::<PlainStore>();
    output_is_appended::<PlainStore>();
    let alloc = flow.alloc;
    let mut progress = Progress {
        flow,
        name: &[],
        has_record: true,
        is_ready,
    };
    let mut rest = sections;
    for _ in 0..sections.len() {
        let (item, after) = read_section(alloc, shape, rest)?;
        match item {
            ReadSection::Section(section) => {
                let (next, end) = merge_section(setting, progress, section, sink)?;
                if let Some(end) = end {
                    return Ok((next.flow, next.is_ready, end));
                }
                progress = next;
                rest = after;
            }
            ReadSection::Records(records) => {
                if may_end(setting, &progress, records) {
                    return Ok((progress.flow, progress.is_ready, TableEnd::Through));
                }
                return Err(MergeRefusal::Damage);
            }
        }
    }
    Err(MergeRefusal::Damage)
}

/// Merges the sections of one table, the bytes of its file between the header and the end line, in their order: what
/// each part noted is joined to the globals and what it wrote is written, and records that are kept are run. By its own
/// word so many records come before the table's. The run is one over tables of this program.
///
/// The records were left through, and more tables may be merged; or one of them ended the run, and the sections after
/// it are not looked at; or they are not merged further, and the stop says why.
///
/// `Damage` comes where the bytes are no sections of a table of the program, where they say another number of records
/// than they have, or where the last record is none that is kept; `Before` where the program reads `NR` and other
/// records have come; `Input` where records cannot be counted, `Memory` where memory was refused, `Write` where a write
/// failed. What was written then is a beginning of what the table's records write.
///
/// POSIX.1-2017, awk, "Overall Program Structure".
pub fn merge_table<K: Sink>(
    job: Job<'_>,
    merging: Merging,
    before: u64,
    sections: &[u8],
    sink: &mut K,
) -> Result<(Merging, TableEnd), MergeRefusal>
    requires { IsMergeOf (code_view job.code.now) merging }
    ensures merges { IfOk result (λ r. MergesTable (code_view job.entry.code.now) job.entry.budget
        before sections.now (K.taken sink.old) (K.taken sink.new) merging r.0 r.1) }
    ensures refused { IfErr result (λ _. RefusesTable (code_view job.entry.code.now)
        job.entry.budget before sections.now (K.taken sink.old) (K.taken sink.new) merging) }
    ensures of { IfOk result (λ r. IsMergeOf (code_view job.entry.code.now) r.0) }
    ensures alike { IfOk result (λ r. AreAlike merging r.0) }
{
    sections_tell_later();
    pieces_follow::<PlainStore>();
    output_is_appended::<PlainStore>();
    let Merging {
        flow,
        rs,
        roles,
        shape,
        opened,
        is_ready,
    } = merging;
    let come = flow.state.count();
    check_before(job, before, come.saturating_sub(opened))?;
    let setting = Setting {
        job,
        rs: &rs,
        roles: &roles,
        come,
    };
    let (flow, is_ready, end) = merge_sections(setting, flow, is_ready, shape, sections, sink)?;
    let merging = Merging {
        flow,
        rs,
        roles,
        shape,
        opened,
        is_ready,
    };
    Ok((merging, end))
}
