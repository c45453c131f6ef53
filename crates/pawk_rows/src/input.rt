//! The topic `input`: the records and chunks of inputs that lie in blocks.
//!
//! A row is a word and what it asks about, parted by tabs; in these a byte may be a backslash and three octal digits.
//! `files` are a name and its bytes, and so on, with a bar between the blocks of a file, which are mended. A place is a file's
//! number and an offset, as `0:2`, and places are parted by commas.
//!
//! | row | answer |
//! |---|---|
//! | `files` files | the name and size of each |
//! | `records` separator files | each record with its file's name and place, `NR` and `FNR` |
//! | `size` size separator files | the chunks of the plan by size: file, begin, end, `NR` and `FNR` before it |
//! | `cuts` places separator files | the chunks of the plan at cuts |
//! | `many` count size | how many chunks of that size has a file of that many empty records |
//! | `counts` block separator files | how many records begin in each block |
//! | `counted` block size separator files | the chunks of the plan by size out of those counts |
//! | `stepped` block sizes separator files | the chunks of the plan by a size and two steps, as `4:6:2:10:1` |
//! | `begins` begin end separator bytes | how many records of the bytes begin in the range |
//! | `refusals` | each refusal with its number and text |

mod files;
mod plans;
mod verbs;

use crate::text::cell;
use std::alloc::{AllocError, Global};
use verbs::Verb;

/// Adds the answer to a row.
pub fn push_answer(alloc: Global, row: &[u8], out: &mut Vec<u8>) -> Result<(), AllocError> {
    let verb = Verb::of(cell(row, 0));
    match verb {
        Verb::Many => plans::push_many(alloc, row, out),
        Verb::Refusals => plans::push_refusals(alloc, out),
        _ => files::push_answer(alloc, verb, row, out),
    }
}
