//! Where words end.

ghost use Rattle.std.specs.Prelude.{◌≡◌, ◌+◌, ◌<◌, ◌≤◌, length, take, drop};
ghost use Rattle.std.specs.List.{prefix_len};
ghost use Rattle.pawk_fields.specs.Fields.{is_not_blank};

use crate::blanks::word_length;
use crate::blocks::{AFTER_LANES, LANES, lane_blanks};

/// How many bytes that are no blanks follow one another, of those that are looked at side by side
/// from a place on, the first ones skipped.
#[inline(always)]
fn lane_run(text: &[u8], place: usize, skip: usize) -> usize
    requires room { place + LANES ≤ length text.now }
    requires within { skip ≤ LANES }
    ensures { result
        ≡ prefix_len is_not_blank (drop skip (take LANES (drop place text.now))) }
{
    let bits = lane_blanks(text, place) + AFTER_LANES;
    (bits >> skip).trailing_zeros() as usize
}

/// Where the word ends that goes on at a place near the end of a text: the last bytes are looked at
/// side by side where there are that many.
#[inline(always)]
fn late_end(text: &[u8], from: usize) -> usize
    requires near { length text.now < from + LANES }
    requires within { from ≤ length text.now }
    ensures { result ≡ from + prefix_len is_not_blank (drop from text.now) }
{
    if text.len() < LANES {
        return from + word_length(&text[from..]);
    }
    let last = text.len() - LANES;
    from + lane_run(text, last, from - last)
}

/// Where the word ends that goes on at a place: the first blank from there on, or the end.
#[inline(always)]
pub(crate) fn word_end(text: &[u8], from: usize) -> usize
    requires { from ≤ length text.now }
    ensures { result ≡ from + prefix_len is_not_blank (drop from text.now) }
{
    let mut place = from;
    while LANES <= text.len() - place {
        let run = lane_run(text, place, 0);
        if run < LANES {
            return place + run;
        }
        place += LANES;
    }
    late_end(text, place)
}
