//! Cuts by hand.

use crate::fixtures::{SUM, chunks_show, runs};
use crate::gates::{Holding, seen_by};
use crate::rows::first_number;
use pawk_par::{Cutting, StreamRefusal, Way};
use std::alloc::{AllocError, Global};
use std::sync::Wait;
use std::test::Fail;
use std::thread::Threads;

/// Whether the lines 1, 2 and 3 have a plan with cuts (1), a bit for each chunk of that, and the cuts, which are offsets.
const CUTS: &str = "\
0 0 1
1 7 2 4
0 0 4 2
0 0 2 2
1 1
";

/// The cuts that a text says, all of them in the first file.
fn cuts_of(alloc: Global, text: &str) -> Result<Vec<(usize, usize)>, AllocError> {
    let mut cuts = Vec::new(alloc);
    for cell in text.split_terminator(' ') {
        let (offset, _) = first_number(cell);
        cuts.push((0, offset as usize))?;
    }
    Ok(cuts)
}

/// Whether a row of cuts is right: whether the sum runs with them, in those chunks.
fn is_cut_so<R: AllocGlobal + Threads + Wait>(
    rt: &R,
    row: &str,
    gate: &Holding<'_>,
) -> Result<bool, StreamRefusal> {
    let (has_plan, row) = first_number(row);
    let (chunks, offsets) = first_number(row);
    let cutting = Cutting::At(cuts_of(rt.alloc(), offsets)?);
    let way = Way {
        cutting: &cutting,
        workers: 2,
    };
    let is_shown = runs(rt, SUM, b"1\n2\n3\n", way, gate, chunks_show(b"6\n"))?;
    let (_, _, entered, _) = seen_by(gate);
    Ok(is_shown == (has_plan == 1) && entered == chunks)
}

#[test]
fn cuts_by_hand(rt: HostRuntime) -> Result<(), Fail> {
    for row in CUTS.lines() {
        let gate = Holding::none(&rt);
        assert!(rt; is_cut_so(&rt, row, &gate)?, "{row}");
    }
    Ok(())
}
