//! Cuts that a caller chose: a file's place and an offset in it, both counted from 0.

ghost use Rattle.std.specs.Prelude.{◌≡◌, ℕ, ◌==◌, ◌<◌, ◌≤◌, None, Some, length, MatchResult};
ghost use Rattle.std.specs.List.{prefix_len};
ghost use Rattle.pawk_input.specs.Input.{IsReady, files_of};
ghost use Rattle.pawk_input.specs.Plan.{cut_fault};
ghost use Rattle.pawk_input.specs.Plan as spec;

use crate::cutting::CutRefusal;
use crate::draft::begin_or_end;
use crate::files::Input;
use pawk_records::Separator;

/// Whether a record after its file's first begins at the cut.
fn begins_record(input: &Input, rs: &[u8], cut: (usize, usize)) -> bool
    requires one_byte { length rs.now ≤ 1 }
    requires ready { IsReady rs.now input.now }
    ensures { result ≡ spec.begins_record rs.now (files_of input.now) cut }
{
    if cut.0 >= input.files() {
        return false;
    }
    let blocks = input.blocks(cut.0);
    let separator = Separator::of(rs);
    let whole = input.size(cut.0);
    let first = begin_or_end(separator, &blocks, 0);
    if cut.1 <= first || cut.1 >= whole {
        return false;
    }
    blocks.begins_at(separator, cut.1)
}

/// Whether a cut comes after the cut before it, if there is one.
fn is_after(before: Option<(usize, usize)>, cut: (usize, usize)) -> bool
    ensures { result ≡ spec.is_after before cut }
{
    match before {
        Some(last) => last.0 < cut.0 || last.0 == cut.0 && last.1 < cut.1,
        None => true,
    }
}

/// Gives what is wrong with the first cut at fault.
pub(crate) fn check_cuts(
    input: &Input,
    rs: &[u8],
    cuts: &[(usize, usize)],
) -> Result<(), CutRefusal>
    requires one_byte { length rs.now ≤ 1 }
    requires ready { IsReady rs.now input.now }
    ensures { MatchResult result
        (λ _. cut_fault rs.now (files_of input.now) cuts.now ≡ None)
        (λ fault. cut_fault rs.now (files_of input.now) cuts.now ≡ Some fault) }
{
    let mut before = None;
    for cut in cuts {
        if !begins_record(input, rs, *cut) {
            return Err(CutRefusal::NoRecord);
        }
        if !is_after(before, *cut) {
            return Err(CutRefusal::NotRising);
        }
        before = Some(*cut);
    }
    Ok(())
}

/// How many of the first cuts lie in this file.
pub(crate) fn cuts_in(file: usize, cuts: &[(usize, usize)]) -> usize
    ensures value { result ≡ prefix_len (λ cut. cut.0 == file) cuts.now }
    ensures bound { result ≤ length cuts.now }
{
    for (i, cut) in cuts.iter().enumerate() {
        if cut.0 != file {
            return i;
        }
    }
    cuts.len()
}
