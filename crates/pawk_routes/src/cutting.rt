//! How the input is to be cut into chunks.

ghost use Rattle.std.specs.Prelude.{◌≡◌, ◌<◌, ◌≤◌, length, Err, IfOk, IfSome};
ghost use Rattle.pawk_board.specs.Limits.{IsCrew, most_chunks};
ghost use Rattle.pawk_input.specs.Counts.{block_counts};
ghost use Rattle.pawk_input.specs.Input.{IsReady, files_of};
ghost use Rattle.pawk_input.specs.Plan.{IsPlanOf};
ghost use Rattle.pawk_input.specs.Input as sizes;
ghost use Rattle.pawk_routes.specs.Cuttings.{IsAsked, IsSized, IsRefused};
ghost use Rattle.pawk_routes.specs.Cuttings as cuttings;

use crate::report::Refusal;
use pawk_input::{CutRefusal, Input, MOST_CHUNKS, Plan, SizeStep};
use pawk_workers::{CrewRefusal, Gate, block_size, count_records};
use std::alloc::Global;
use std::sync::Wait;
use std::thread::Threads;

/// How many chunks there may be for each worker before the input is cut by greater sizes.
const CHUNKS_OF_WORKER: usize = 4;

/// There may always be this number of chunks.
const FEW_CHUNKS: usize = 16;

/// There are never more chunks than this where greater sizes give fewer.
const MANY_CHUNKS: usize = 256;

/// How many units the first chunk of each worker has where the input is cut by greater sizes.
const FIRST_UNITS: u64 = 4;

/// How many its second chunk has.
const SECOND_UNITS: u64 = 2;

/// Into how many units a worker's share is cut: its third chunk, the last, has a single one.
const UNITS_OF_WORKER: u64 = FIRST_UNITS + SECOND_UNITS + 1;

/// How the input is to be cut into chunks.
#[derive(Drop)]
pub enum Cutting {
    /// A chunk ends before the first record that begins at least this number of bytes past the chunk's begin,
    /// or at the end of the file. The size is 1 or more. Where there are more such chunks than 4 for each
    /// worker (but 16 at least, and 256 at most), the input is cut by greater sizes: each worker has a chunk
    /// of about four sevenths of its share, then one of two, and at last one of one. So there are few, since
    /// each chunk notes all keys that it meets, and the merge, which one thread does, goes through all of
    /// these; and the last are small, since a worker that finds no more waits for the others. By a single
    /// worker a single file of more than 16 times the size is run as one chunk.
    Size(u64),
    /// As by [`Cutting::Size`], and by a greater size where there might be more than 1,048,576 chunks else: there is a plan
    /// wherever no more files than that have records.
    AtLeast(u64),
    /// One more chunk begins at each of these places: a file, and an offset in it, both counted from 0.
    At(Vec<(usize, usize)>),
}

/// How a run goes in threads.
#[derive(Clone, Copy)]
pub struct Way<'a> {
    pub cutting: &'a Cutting,
    /// How many workers there are at most, 1 to 64.
    pub workers: usize,
}

/// The plan by size, made on this thread.
fn plan_here(alloc: Global, input: &Input, rs: &[u8], bytes: u64) -> Result<Plan, Refusal>
    requires sized { 0 < bytes }
    requires one_byte { length rs.now ≤ 1 }
    requires ready { IsReady rs.now input.now }
    ensures plan { IfOk result (λ p. IsPlanOf rs.now (files_of input.now) p) }
    ensures few { IfOk result (λ p. length p ≤ most_chunks) }
    ensures accepted { IfOk result (λ _.
        ¬ IsRefused rs.now (files_of input.now) (Cutting.Size bytes)) }
    ensures refused { result ≡ Err Refusal.Cutting
        → IsRefused rs.now (files_of input.now) (Cutting.Size bytes) }
{
    match Plan::by_size(alloc, input, rs, bytes) {
        Ok(plan) => Ok(plan),
        Err(CutRefusal::Memory) => Err(Refusal::Memory),
        Err(_) => Err(Refusal::Cutting),
    }
}

/// How many bytes all files of an input have together.
fn total_size(input: &Input) -> u64
    ensures { result ≡ sizes.total_size (files_of input.now) }
{
    let mut total: u64 = 0;
    for file in 0..input.files() {
        total = total.saturating_add(input.size(file) as u64);
    }
    total
}

/// The size by which an input is cut where at least this one is asked for.
fn size_taken(input: &Input, bytes: u64) -> u64
    ensures size { result ≡ cuttings.size_taken (files_of input.now) bytes }
    ensures some { 0 < result }
{
    let others = MOST_CHUNKS.saturating_sub(input.files()).max(1) as u64;
    (total_size(input) / others + 1).max(bytes)
}

/// How many chunks there may be for `workers` workers before the input is cut by greater sizes.
fn many_chunks(workers: usize) -> usize
    requires workers { IsCrew workers }
{
    (workers * CHUNKS_OF_WORKER).clamp(FEW_CHUNKS, MANY_CHUNKS)
}

/// Sizes of chunks that halve along the input, twice, down to a least one.
#[derive(Clone, Copy)]
struct HalvingSizes {
    /// How many bytes a chunk has at least, 1 or more.
    least: u64,
    /// How many bytes the last chunk of a worker has, where that is more.
    unit: u64,
    /// How many bytes the last chunks of all workers have together then.
    batch: u64,
}

impl HalvingSizes {
    /// The sizes for `workers` workers, of an input of `total` bytes; each is at least the one that is given.
    fn new(bytes: u64, total: u64, workers: usize) -> Self
        requires workers { IsCrew workers }
        ensures least { result.least ≡ bytes }
    {
        let workers = workers as u64;
        let unit = total / (workers * UNITS_OF_WORKER) + 1;
        HalvingSizes {
            least: bytes,
            unit,
            batch: unit.saturating_mul(workers),
        }
    }

    /// The size of `units` units, and no less than the least.
    fn size(self, units: u64) -> u64
        ensures least { self.least ≤ result }
    {
        self.unit.saturating_mul(units).max(self.least)
    }

    /// The plan by these sizes, if memory is there.
    fn plan(
        self,
        alloc: Global,
        input: &Input,
        rs: &[u8],
        block: usize,
        counts: &[u64],
    ) -> Option<Plan>
        requires some { 0 < self.least }
        requires one_byte { length rs.now ≤ 1 }
        requires ready { IsReady rs.now input.now }
        requires block { 0 < block }
        requires counts { counts.now ≡ block_counts rs.now block (files_of input.now) }
        ensures plan { IfSome result (λ p. IsPlanOf rs.now (files_of input.now) p) }
        ensures few { IfSome result (λ p. length p ≤ most_chunks) }
    {
        let steps = [
            SizeStep {
                from: self.batch.saturating_mul(FIRST_UNITS),
                size: self.size(SECOND_UNITS),
            },
            SizeStep {
                from: self.batch.saturating_mul(FIRST_UNITS + SECOND_UNITS),
                size: self.size(1),
            },
        ];
        let size = self.size(FIRST_UNITS);
        Plan::by_steps(alloc, input, rs, size, &steps, block, counts).ok()
    }
}

/// The plan by size, out of how many records begin in each block of `block` bytes.
fn plan_by_counts(
    alloc: Global,
    input: &Input,
    rs: &[u8],
    bytes: u64,
    block: usize,
    counts: &[u64],
    workers: usize,
) -> Result<Plan, Refusal>
    requires sized { 0 < bytes }
    requires one_byte { length rs.now ≤ 1 }
    requires ready { IsReady rs.now input.now }
    requires block { 0 < block }
    requires counts { counts.now ≡ block_counts rs.now block (files_of input.now) }
    requires workers { IsCrew workers }
    ensures plan { IfOk result (λ p. IsPlanOf rs.now (files_of input.now) p) }
    ensures few { IfOk result (λ p. length p ≤ most_chunks) }
    ensures accepted { IfOk result (λ _.
        ¬ IsRefused rs.now (files_of input.now) (Cutting.Size bytes)) }
    ensures refused { result ≡ Err Refusal.Cutting
        → IsRefused rs.now (files_of input.now) (Cutting.Size bytes) }
{
    let plan = match Plan::by_counts(alloc, input, rs, bytes, block, counts) {
        Ok(plan) => plan,
        Err(CutRefusal::Memory) => return Err(Refusal::Memory),
        Err(_) => return Err(Refusal::Cutting),
    };
    if plan.len() <= many_chunks(workers) {
        return Ok(plan);
    }
    let sizes = HalvingSizes::new(bytes, total_size(input), workers);
    Ok(sizes.plan(alloc, input, rs, block, counts).unwrap_or(plan))
}

/// The plan of one chunk, where the input is one file that has more than a few times the size of a chunk.
fn plan_of_one(alloc: Global, input: &Input, rs: &[u8], bytes: u64) -> Option<Plan>
    requires sized { 0 < bytes }
    requires one_byte { length rs.now ≤ 1 }
    requires ready { IsReady rs.now input.now }
    ensures plan { IfSome result (λ p. IsPlanOf rs.now (files_of input.now) p) }
    ensures few { IfSome result (λ p. length p ≤ most_chunks) }
    ensures accepted { IfSome result (λ _.
        ¬ IsRefused rs.now (files_of input.now) (Cutting.Size bytes)) }
{
    if input.files() != 1 || input.size(0) as u64 / bytes <= FEW_CHUNKS as u64 {
        return None;
    }
    Plan::of_one(alloc, input, rs, bytes)
}

/// The plan by size: for one worker of one chunk, where there may be one; else out of counts of records that workers make,
/// where the input has few enough blocks.
fn plan_by_size<G: Gate + Sync, R: Threads + Wait>(
    rt: &R,
    alloc: Global,
    input: &Input,
    rs: &[u8],
    bytes: u64,
    workers: usize,
    gate: &G,
) -> Result<Plan, Refusal>
    requires sized { 0 < bytes }
    requires one_byte { length rs.now ≤ 1 }
    requires ready { IsReady rs.now input.now }
    requires workers { IsCrew workers }
    ensures plan { IfOk result (λ p. IsPlanOf rs.now (files_of input.now) p) }
    ensures few { IfOk result (λ p. length p ≤ most_chunks) }
    ensures accepted { IfOk result (λ _.
        ¬ IsRefused rs.now (files_of input.now) (Cutting.Size bytes)) }
    ensures refused { result ≡ Err Refusal.Cutting
        → IsRefused rs.now (files_of input.now) (Cutting.Size bytes) }
{
    if workers == 1
        && let Some(plan) = plan_of_one(alloc, input, rs, bytes)
    {
        return Ok(plan);
    }
    let Some(block) = block_size(input) else {
        return plan_here(alloc, input, rs, bytes);
    };
    match count_records(rt, alloc, input, rs, block, workers, gate) {
        Ok(counts) => plan_by_counts(alloc, input, rs, bytes, block, counts.as_slice(), workers),
        Err(CrewRefusal::Memory) => Err(Refusal::Memory),
        Err(CrewRefusal::Thread) => Err(Refusal::Thread),
    }
}

/// The plan of a cutting, by the bytes of RS; records are counted by the workers where there are many.
///
/// `Cutting` comes where the cutting has no plan, `Memory` where memory was refused, and `Thread` where a worker
/// could not be started, which the gate did not allow.
pub fn plan_of<G: Gate + Sync, R: Threads + Wait>(
    rt: &R,
    alloc: Global,
    input: &Input,
    rs: &[u8],
    way: Way<'_>,
    gate: &G,
) -> Result<Plan, Refusal>
    requires sized { IsSized way.cutting.now }
    requires one_byte { length rs.now ≤ 1 }
    requires ready { IsReady rs.now input.now }
    requires workers { IsCrew way.workers }
    ensures plan { IfOk result (λ p. IsPlanOf rs.now (files_of input.now) p) }
    ensures few { IfOk result (λ p. length p ≤ most_chunks) }
    ensures asked { IfOk result (IsAsked rs.now (files_of input.now) way.entry.cutting.now) }
    ensures accepted { IfOk result (λ _.
        ¬ IsRefused rs.now (files_of input.now) way.entry.cutting.now) }
    ensures refused { result ≡ Err Refusal.Cutting
        → IsRefused rs.now (files_of input.now) way.entry.cutting.now }
{
    match way.cutting {
        Cutting::Size(bytes) => plan_by_size(rt, alloc, input, rs, *bytes, way.workers, gate),
        Cutting::AtLeast(bytes) => {
            let size = size_taken(input, *bytes);
            plan_by_size(rt, alloc, input, rs, size, way.workers, gate)
        }
        Cutting::At(cuts) => match Plan::at(alloc, input, rs, cuts) {
            Ok(plan) => Ok(plan),
            Err(CutRefusal::Memory) => Err(Refusal::Memory),
            Err(_) => Err(Refusal::Cutting),
        },
    }
}
