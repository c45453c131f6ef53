//! The plan of a piece.

ghost use Rattle.std.specs.Prelude.{◌≡◌, ◌∷◌, ◌≤◌, [], ℕ, List, flat_map, length, IfOk};
ghost use Rattle.pawk_records.specs.Records.{records_by};
ghost use Rattle.pawk_input.specs.Input.{IsReady, file_at, file_items, files_of};
ghost use Rattle.pawk_input.specs.Plan.{AreConsecutive, ArePlaced, IsPlanOf, chunk_items};

use crate::refusal::PieceRefusal;
use pawk_input::{Input, Plan};
use pawk_merge_law::window_law::numbers_go_on;
use std::alloc::{AllocError, Global};

/// The bytes of a piece as the one file of an input.
///
/// `Memory` comes where memory was refused, `Input` where the piece has more bytes than an input may have.
pub fn input_of(alloc: Global, name: &[u8], bytes: Vec<u8>) -> Result<Input, PieceRefusal>
    ensures file { IfOk result (λ input.
        files_of input ≡ record { name = name.now; bytes = bytes.items } ∷ []) }
    ensures ready { IfOk result (λ input. (rs : List ℕ) → IsReady rs input) }
{
    let mut files = Vec::new(alloc);
    files.push((Vec::from_slice(alloc, name)?, bytes))?;
    match Input::new(files) {
        Ok(input) => Ok(input),
        Err(_) => Err(PieceRefusal::Input),
    }
}

/// The bytes of an input's one file, if it still has them.
pub fn bytes_of(alloc: Global, input: Input) -> Vec<u8> {
    match input.into_files() {
        Some(files) => {
            let mut files = files;
            match files.pop() {
                Some((_, bytes)) => bytes,
                None => Vec::new(alloc),
            }
        }
        None => Vec::new(alloc),
    }
}

/// The plan of a piece whose records come after so many, `fnr` of them in their file.
///
/// `Input` comes where they cannot be counted on from there.
pub fn plan_after(
    plan: Plan,
    input: &Input,
    rs: &[u8],
    nr: u64,
    fnr: u64,
) -> Result<Plan, PieceRefusal>
    requires planned { IsPlanOf rs.now (files_of input.now) plan }
    requires one { length (files_of input.now) ≡ 1 }
    ensures placed { IfOk result (ArePlaced rs.now (files_of input.now)) }
    ensures consecutive { IfOk result (AreConsecutive rs.now (files_of input.now)) }
    ensures few { IfOk result (λ p. length p ≡ length plan) }
    ensures records { IfOk result (λ p. flat_map (chunk_items rs.now (files_of input.now)) p
        ≡ file_items 0 (file_at (files_of input.now) 0).name nr fnr
        (records_by rs.now (file_at (files_of input.now) 0).bytes)) }
{
    numbers_go_on();
    plan.after(input, rs, nr, fnr).ok_or(PieceRefusal::Input)
}

/// The plan of one chunk.
///
/// The error comes where memory was refused.
pub fn plan_of_one(alloc: Global, input: &Input, rs: &[u8]) -> Result<Plan, AllocError>
    requires one_byte { length rs.now ≤ 1 }
    requires ready { IsReady rs.now input.now }
    ensures { IfOk result (λ plan. IsPlanOf rs.now (files_of input.now) plan) }
{
    Plan::of_one(alloc, input, rs, u64::MAX).ok_or(AllocError)
}
