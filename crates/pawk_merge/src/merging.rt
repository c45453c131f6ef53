//! The merge of what chunks leave.

ghost use Rattle.std.specs.Prelude.{◌≡◌, ◌++◌, ◌∷◌, [], map, OnOk};
ghost use Rattle.pawk_store.specs.StateViews.{state_of};
ghost use Rattle.pawk_store.specs.LeftViews.{left_view};
ghost use Rattle.pawk_merge.specs.Merges.{before_chunks};
ghost use Rattle.pawk_merge.specs.Merges as spec;
ghost use Rattle.pawk_merge.specs.Tables as tables;
ghost use Rattle.pawk_merge.specs.MergeViews.{Continues, Goes, Merges, chunk_of};

use crate::chunk_result::ChunkResult;
use crate::stop::JoinStop;
use crate::table::join_table;
use pawk_frozen::Table;
use pawk_store::{Globals, Left, RecordState};
use std::alloc::Global;

/// The end of chunks that are merged.
#[derive(Drop)]
pub struct Merged<'a> {
    /// What the chunks wrote, one after the other.
    pub outputs: Vec<Vec<u8>>,
    /// How the last one was left.
    pub left: Left,
    pub state: RecordState<'a>,
}

/// Whether a merge goes on after a chunk that was left so, which it does not after `exit`.
fn goes_on(left: Left) -> Result<bool, JoinStop>
    ensures { Continues (left_view left) result }
{
    match left {
        Left::Through => Ok(true),
        Left::Exit(_) => Ok(false),
        Left::Fault(_) => Err(JoinStop::Fault),
        Left::NextFile | Left::Clash => Err(JoinStop::Clash),
    }
}

/// Joins what a chunk noted to the globals, and puts its output after the others; whether the merge goes
/// on.
fn take_chunk(
    globals: &mut Globals,
    outputs: &mut Vec<Vec<u8>>,
    output: Vec<u8>,
    table: Table,
    left: Left,
) -> Result<bool, JoinStop>
    ensures globals { OnOk result (globals.new ≡ tables.join_table table globals.old) }
    ensures outputs { OnOk result (outputs.new.items ≡ outputs.old.items ++ output ∷ []) }
    ensures goes { Goes table (left_view left) globals.old result }
{
    join_table(globals, table)?;
    outputs.push(output)?;
    goes_on(left)
}

/// Merges what the chunks of a run leave, in their order, into the globals that `BEGIN` left, which it
/// left with this record state.
///
/// Chunk by chunk, what it noted is joined to the globals, its output follows those before, and its
/// record state and way of leaving are those of the end; the one that ended in `exit` is the last.
/// Else the stop that is met first: `Cell` where a cell does not take what a chunk noted of it, then
/// `Fault` or `Clash` where that chunk ended so, `Clash` too where it left the rest of a file unread.
/// After a stop nothing is said of the globals.
///
/// POSIX.1-2017, awk, "Overall Program Structure".
pub fn merge<'a>(
    alloc: Global,
    globals: &mut Globals,
    state: RecordState<'a>,
    chunks: Vec<ChunkResult<'a>>,
) -> Result<Merged<'a>, JoinStop>
    ensures { Merges (spec.merge (map chunk_of chunks.entry.items)
        (before_chunks globals.old (state_of state.entry))) globals.new result }
{
    let mut outputs = Vec::new(alloc);
    let mut last_left = Left::Through;
    let mut last_state = state;
    for chunk in chunks {
        let ChunkResult {
            output,
            table,
            left,
            state,
        } = chunk;
        last_left = left;
        last_state = state;
        if !take_chunk(globals, &mut outputs, output, table, left)? {
            break;
        }
    }
    Ok(Merged {
        outputs,
        left: last_left,
        state: last_state,
    })
}
