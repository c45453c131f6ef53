//! How far chunks are merged.

ghost use Rattle.std.specs.Prelude.{◌≡◌, ◌↔◌, map, true, IfOk, IsTrue, OnOk};
ghost use Rattle.std.specs.Option.{option_map};
ghost use Rattle.pawk_store.specs.StateViews.{state_of};
ghost use Rattle.pawk_store.specs.Records.{through};
ghost use Rattle.pawk_store.specs.LeftViews.{left_view};
ghost use Rattle.pawk_merge.specs.Merges.{before_chunks};
ghost use Rattle.pawk_merge.specs.MergeViews.{chunk_of};
ghost use Rattle.pawk_merge.specs.Extents as spec;
ghost use Rattle.pawk_merge.specs.ExtentViews.{Advances, extent_view, stop_view};
ghost use Rattle.pawk_merge.specs.Tables.{all_take};
ghost use Rattle.pawk_merge.specs.Tables as tables;

use crate::chunk_result::ChunkResult;
use crate::merging::Merged;
use crate::stop::MergeStop;
use crate::table::{join_table, takes_table};
use pawk_frozen::Table;
use pawk_store::{Globals, Left, RecordState};
use std::alloc::{AllocError, Global};

/// How far chunks are merged.
#[derive(Drop)]
pub struct Extent<'a> {
    /// The end of the chunks that are merged, with one output for each of them.
    pub merged: Merged<'a>,
    /// Why the chunk after them is not merged; none where no chunk is left out for such a reason.
    pub stop: Option<MergeStop>,
    /// Of how many elements they noted something, each chunk for itself.
    pub noted: usize,
}

/// Why a chunk with this table, which was left so, is not merged; none where it can be. It changes
/// nothing.
fn stop_at(globals: &Globals, table: &Table, left: Left) -> Option<MergeStop>
    ensures { option_map stop_view result ≡ spec.stop_at table.now (left_view left) globals.now }
{
    if !takes_table(globals, table) {
        return Some(MergeStop::Cell);
    }
    match left {
        Left::Through | Left::Exit(_) => None,
        Left::Fault(_) => Some(MergeStop::Fault),
        Left::NextFile | Left::Clash => Some(MergeStop::Clash),
    }
}

/// Whether a part was left through, so that another follows.
fn is_through(left: Left) -> bool
    ensures { IsTrue result ↔ left_view left ≡ through }
{
    match left {
        Left::Through => true,
        Left::NextFile | Left::Exit(_) | Left::Fault(_) | Left::Clash => false,
    }
}

/// Joins the globals to what a chunk noted of them, which each cell takes. An error where memory is
/// refused; then nothing is said of the globals.
fn join_taken(globals: &mut Globals, table: Table) -> Result<(), AllocError>
    requires { all_take table globals.old ≡ true }
    ensures { OnOk result (globals.new ≡ tables.join_table table globals.old) }
{
    match join_table(globals, table) {
        Ok(()) => Ok(()),
        Err(_) => Err(AllocError),
    }
}

impl<'a> Extent<'a> {
    /// Merges one chunk more, or says why it is not merged; whether another may follow. It first looks
    /// whether the chunk can be merged, and where it cannot be the globals are as before. An error
    /// where memory is refused; then nothing is said of the globals.
    fn add(&mut self, globals: &mut Globals, chunk: ChunkResult<'a>) -> Result<bool, AllocError>
        ensures { IfOk result (Advances (extent_view globals.old self.old) (chunk_of chunk.entry)
            (extent_view globals.new self.new)) }
    {
        let ChunkResult {
            output,
            table,
            left,
            state,
        } = chunk;
        self.stop = stop_at(globals, &table, left);
        if self.stop.is_some() {
            return Ok(false);
        }
        self.merged.left = left;
        self.merged.state = state;
        self.noted = self.noted.saturating_add(table.element_count());
        join_taken(globals, table)?;
        self.merged.outputs.push(output)?;
        Ok(is_through(left))
    }
}

/// Merges what the chunks of a run leave, in their order, into the globals that `BEGIN` left, which it
/// left with this record state, as far as they can be merged.
///
/// Chunk by chunk, where each cell takes what the chunk noted of it and the chunk ended neither in a
/// fault nor in a clash and left no rest of a file unread, what it noted is joined to the globals, its
/// output follows those before, and its record state and way of leaving are those of the end; one that
/// ended in `exit` is the last. The first chunk of which that does not hold is left out whole, with all
/// after it, and the stop says why: `Cell`, `Fault` or `Clash`, in this order. Then the globals, the
/// outputs and the record state are those of the chunks before it. What is left out is dropped.
///
/// An error where memory is refused; then nothing is said of the globals.
///
/// POSIX.1-2017, awk, "Overall Program Structure".
pub fn merge_far<'a>(
    alloc: Global,
    globals: &mut Globals,
    state: RecordState<'a>,
    chunks: Vec<ChunkResult<'a>>,
) -> Result<Extent<'a>, AllocError>
    ensures { IfOk result (λ extent. extent_view globals.new extent
        ≡ spec.merge_far (map chunk_of chunks.entry.items)
        (before_chunks globals.old (state_of state.entry))) }
{
    let mut extent = Extent {
        merged: Merged {
            outputs: Vec::new(alloc),
            left: Left::Through,
            state,
        },
        stop: None,
        noted: 0,
    };
    for chunk in chunks {
        if !extent.add(globals, chunk)? {
            break;
        }
    }
    Ok(extent)
}
