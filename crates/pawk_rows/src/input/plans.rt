//! Rows about plans.

ghost use Rattle.std.specs.Prelude.{◌<◌, ◌≤◌, length};
ghost use Rattle.pawk_input.specs.Input.{IsReady};

use super::files::push_numbers;
use super::verbs::Verb;
use crate::text::{cell, number, piece, push_decimal};
use pawk_input::{CutRefusal, Input, Plan, SizeStep, TooLarge, count_blocks};
use std::alloc::{AllocError, Global};

/// Adds why a plan was refused: the number and the text.
fn push_refusal(alloc: Global, refusal: CutRefusal, out: &mut Vec<u8>) -> Result<(), AllocError> {
    out.extend_from_slice(b"refused ")?;
    push_decimal(refusal as u64, out)?;
    out.extend_from_slice(format!(in alloc; ": {refusal}")?.as_bytes())
}

/// Adds the chunks of a plan, or why it was refused: file, begin and end in it, the records before it in the input and in its
/// file.
pub fn push_plan(
    alloc: Global,
    plan: Result<Plan, CutRefusal>,
    out: &mut Vec<u8>,
) -> Result<(), AllocError> {
    let plan = match plan {
        Ok(plan) => plan,
        Err(refusal) => return push_refusal(alloc, refusal, out),
    };
    for i in 0..plan.len() {
        let chunk = plan.chunk(i);
        let (start, end) = (chunk.range.start as u64, chunk.range.end as u64);
        push_numbers(&[chunk.file as u64, start, end, chunk.nr, chunk.fnr], out)?;
    }
    Ok(())
}

/// The step whose place is a piece of the cell and whose size is the next, which is 1 at least.
fn step(sizes: &[u8], place: usize) -> SizeStep
    requires { place < 8 }
    ensures { 0 < result.size }
{
    SizeStep {
        from: number(piece(sizes, b':', place)),
        size: number(piece(sizes, b':', place + 1)).max(1),
    }
}

/// Adds the plan by size, or by two steps, out of the counts of blocks.
pub fn push_counted(
    alloc: Global,
    verb: Verb,
    row: &[u8],
    rs: &[u8],
    input: &Input,
    out: &mut Vec<u8>,
) -> Result<(), AllocError>
    requires one_byte { length rs.now ≤ 1 }
    requires ready { IsReady rs.now input.now }
{
    let block = number(cell(row, 1)) as usize;
    if block == 0 {
        return out.extend_from_slice(b"no such plan");
    }
    let sizes = cell(row, 2);
    let size = number(piece(sizes, b':', 0)).max(1);
    let counts = count_blocks(alloc, input, rs, block)?;
    if let Verb::Counted = verb {
        let plan = Plan::by_counts(alloc, input, rs, size, block, counts.as_slice());
        return push_plan(alloc, plan, out);
    }
    let steps = [step(sizes, 1), step(sizes, 3)];
    let plan = Plan::by_steps(alloc, input, rs, size, &steps, block, counts.as_slice());
    push_plan(alloc, plan, out)
}

/// The places that a cell writes, as `0:2,1:7`.
pub fn places(alloc: Global, cell: &[u8]) -> Result<Vec<(usize, usize)>, AllocError> {
    let mut list = Vec::new(alloc);
    for place in cell.split(|byte| *byte == b',') {
        if !place.is_empty() {
            let file = number(piece(place, b':', 0)) as usize;
            let offset = number(piece(place, b':', 1)) as usize;
            list.push((file, offset))?;
        }
    }
    Ok(list)
}

/// Adds how many chunks of a size a file of many empty records has.
pub fn push_many(alloc: Global, row: &[u8], out: &mut Vec<u8>) -> Result<(), AllocError> {
    let size = number(cell(row, 2));
    let count = number(cell(row, 1)) as usize;
    let mut files = Vec::new(alloc);
    files.push((Vec::new(alloc), vec![in alloc; b'\n'; count]?))?;
    let input = match Input::new(files) {
        Ok(input) if size > 0 => input,
        _ => return out.extend_from_slice(b"no such plan"),
    };
    match Plan::by_size(alloc, &input, b"\n", size) {
        Ok(plan) => push_decimal(plan.len() as u64, out),
        Err(refusal) => push_refusal(alloc, refusal, out),
    }
}

/// Adds each refusal with its number and text.
pub fn push_refusals(alloc: Global, out: &mut Vec<u8>) -> Result<(), AllocError> {
    for refusal in [
        CutRefusal::NoRecord,
        CutRefusal::NotRising,
        CutRefusal::TooMany,
        CutRefusal::Memory,
    ] {
        push_refusal(alloc, refusal, out)?;
        out.push(b';')?;
    }
    out.extend_from_slice(format!(in alloc; "{TooLarge}")?.as_bytes())
}
