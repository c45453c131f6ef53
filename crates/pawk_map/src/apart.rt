//! Pieces of a file whose chunks are run apart.

ghost use Rattle.std.specs.Prelude.{◌≡◌, ◌+◌, ◌≤◌, length, IfOk, MatchOption};
ghost use Rattle.pawk_board.specs.Limits.{most_chunks};
ghost use Rattle.pawk_input.specs.Input.{files_of};
ghost use Rattle.pawk_input.specs.Plan.{ArePlaced};
ghost use Rattle.pawk_merge_law.specs.Phases.{MayRun};
ghost use Rattle.pawk_merge_law.specs.Gathered.{AreNumbered};
ghost use Rattle.pawk_board.specs.Limits.{IsCrew};
ghost use Rattle.pawk_chunks.specs.Task.{IsChunked, items_in};
ghost use Rattle.pawk_routes.specs.Cuttings.{IsSized};
ghost use Rattle.pawk_map.specs.Runs.{DoNotGoThrough, IsApart, SayParts, phase_in};

use crate::parts::{are_through, bytes_in, lines_of, parts_of};
use crate::refusal::MapRefusal;
use pawk_admit::Roles;
use pawk_chunks::{Chunked, Gate, Opening, run_chunks};
use pawk_pieces::{Piece, input_of, plan_after};
use pawk_records::Separator;
use pawk_routes::{Way, plan_of};
use pawk_sequential::Job;
use pawk_shards::law::{chunks_merge_apart, neighbours_are_joined};
use pawk_store::{Globals, RecordState};
use std::alloc::Global;
use std::sync::Wait;
use std::thread::Threads;

/// What each part of a shard begins with, and how the chunks that the parts are of are cut and run.
#[derive(Clone, Copy)]
pub struct Setting<'p> {
    /// Where memory is asked for.
    pub alloc: Global,
    /// The program, its steps and its seed.
    pub job: Job<'p>,
    /// The globals that BEGIN left, with the first assignments.
    pub globals: &'p Globals,
    /// What the records do with each of the globals.
    pub roles: &'p Roles,
    /// The record state that BEGIN left, with RS taken.
    pub state: &'p RecordState<'p>,
    /// How chunks are cut, and how many workers there are.
    pub way: Way<'p>,
}

/// What a piece leaves that was run apart.
#[derive(Drop)]
pub struct Apart {
    /// The lines that tell of the piece: of each chunk a part, or of all its records as bytes.
    pub lines: Vec<u8>,
    /// How many records the piece has.
    pub records: u64,
    /// Whether each chunk was left through.
    pub is_through: bool,
    /// The piece's bytes, whose memory the next one may use.
    pub bytes: Vec<u8>,
}

/// Runs the chunks of a source, each over what BEGIN left. Gives the lines of their parts, or none where some chunk was not left
/// through.
///
/// `Memory` comes where memory was refused, `Thread` where a worker could not be started, which the gate did not allow, and
/// `Damage` where something was noted that no line can say.
fn run_parts<'a, G: Gate + Sync, R: Threads + Wait>(
    rt: &R,
    setting: Setting<'a>,
    source: Chunked<'_, 'a>,
    nr: u64,
    gate: &G,
) -> Result<Option<Vec<u8>>, MapRefusal>
    requires chunked { IsChunked source }
    requires few { length source.plan.now ≤ most_chunks }
    requires workers { IsCrew setting.way.workers }
    requires ready { MayRun (phase_in setting) }
    requires placed { ArePlaced source.rs.now (files_of source.input.now) source.plan.now }
    requires numbered { AreNumbered nr (items_in source) }
    ensures { IfOk result (λ parts. MatchOption parts
        (DoNotGoThrough (phase_in setting.entry) nr (items_in source.entry))
        (λ lines. SayParts (phase_in setting.entry) nr (items_in source.entry) lines.items)) }
{
    chunks_merge_apart();
    neighbours_are_joined();
    let opening = Opening {
        job: setting.job,
        globals: setting.globals,
        roles: setting.roles,
        state: setting.state,
    };
    let workers = setting.way.workers;
    let results = run_chunks(rt, setting.alloc, opening, source, workers, gate)?;
    if !are_through(&results) {
        return Ok(None);
    }
    Ok(Some(parts_of(setting.alloc, nr, results)?))
}

/// Runs a piece of a file in chunks, each over what BEGIN left; `before` is how many records of the whole input came before the
/// piece. Gives the lines of a table file that tell of it: of each chunk a part, or all its records as bytes, where some chunk was
/// not left through, as after `exit`. The gate is called round each chunk that is run, on its worker's thread.
///
/// `Memory` comes where memory was refused, `Thread` where a worker could not be started, which the gate did not allow, `Input`
/// where the records cannot be counted on, and `Damage` where something was noted that no line can say.
pub fn run_apart<G: Gate + Sync, R: Threads + Wait>(
    rt: &R,
    setting: Setting<'_>,
    before: u64,
    piece: Piece<'_>,
    gate: &G,
) -> Result<Apart, MapRefusal>
    requires one_byte { length piece.rs.now ≤ 1 }
    requires sized { IsSized setting.way.cutting.now }
    requires workers { IsCrew setting.way.workers }
    requires ready { MayRun (phase_in setting) }
    ensures { IfOk result (IsApart (phase_in setting.entry)
        (setting.entry.state.now.nr + before) piece.entry) }
{
    let alloc = setting.alloc;
    let (rs, fnr) = (piece.rs, piece.fnr);
    let nr = setting
        .state
        .nr
        .checked_add(before)
        .ok_or(MapRefusal::Input)?;
    let input = input_of(alloc, piece.name, piece.bytes)?;
    let plan = plan_of(rt, alloc, &input, rs, setting.way, gate)?;
    let plan = plan_after(plan, &input, rs, nr, fnr)?;
    let source = Chunked {
        input: &input,
        plan: &plan,
        rs,
    };
    let parts = run_parts(rt, setting, source, nr, gate)?;
    let bytes = bytes_in(input)?;
    let is_through = parts.is_some();
    Ok(Apart {
        lines: lines_of(alloc, parts, fnr, &bytes)?,
        records: Separator::of(rs).count_records(&bytes) as u64,
        is_through,
        bytes,
    })
}
