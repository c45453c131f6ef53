//! The lines of parts.

ghost use Rattle.std.specs.Prelude.{◌≡◌, ◌∷◌, [], ℕ, List, IfOk, MatchOption};
ghost use Rattle.pawk_input.specs.Input.{file_at, files_of};
ghost use Rattle.pawk_store.specs.declared.left.Left.{Left as CodeLeft};
ghost use Rattle.pawk_tables.specs.Layout.{kept};
ghost use Rattle.pawk_map.specs.Parted.{AreTablesOf, all_through, parts_from};
ghost use Rattle.pawk_map.specs.Parted as spec;
ghost use Rattle.pawk_map.specs.Sections.{SaySections};

use crate::refusal::MapRefusal;
use pawk_input::Input;
use pawk_merge::ChunkResult;
use pawk_store::Left;
use pawk_tables::{push_kept, push_part};
use std::alloc::{AllocError, Global};

/// Whether records were left through.
fn is_through(left: Left) -> bool
    ensures { result ≡ spec.is_through left }
{
    match left {
        Left::Through => true,
        Left::NextFile | Left::Exit(_) | Left::Fault(_) | Left::Clash => false,
    }
}

/// Whether chunks were all left through.
pub(crate) fn are_through(results: &[ChunkResult<'_>]) -> bool
    ensures { result ≡ all_through results.now }
{
    for chunk in results {
        if !is_through(chunk.left) {
            return false;
        }
    }
    true
}

/// The lines of parts, one for each of these chunks, where the first comes after `nr` records.
///
/// `Memory` comes where memory was refused, `Damage` where something was noted that no line can say.
pub(crate) fn parts_of(
    alloc: Global,
    nr: u64,
    results: Vec<ChunkResult<'_>>,
) -> Result<Vec<u8>, MapRefusal>
    ensures { IfOk result (λ lines. (scalars arrays : ℕ) →
        AreTablesOf scalars arrays results.entry.items →
        SaySections scalars arrays (parts_from nr results.entry.items) lines.items) }
{
    let mut lines = Vec::new(alloc);
    let mut before = nr;
    for chunk in results {
        let count = chunk.state.nr.saturating_sub(before);
        push_part(&mut lines, count, &chunk.output, &chunk.table)?;
        before = chunk.state.nr;
    }
    Ok(lines)
}

/// The bytes of an input's one file.
///
/// `Input` comes where the input has them no more, which does not happen where it was made of them.
pub(crate) fn bytes_in(input: Input) -> Result<Vec<u8>, MapRefusal>
    ensures { IfOk result (λ bytes. (name all : List ℕ) →
        files_of input ≡ record { name = name; bytes = all } ∷ [] → bytes.items ≡ all) }
{
    let Some(files) = input.into_files() else {
        return Err(MapRefusal::Input);
    };
    let mut files = files;
    match files.pop() {
        Some((_, bytes)) => Ok(bytes),
        None => Err(MapRefusal::Input),
    }
}

/// The lines of the parts of a piece, or of all its records as bytes where there are no parts.
///
/// The error comes where memory was refused.
pub(crate) fn lines_of(
    alloc: Global,
    parts: Option<Vec<u8>>,
    fnr: u64,
    bytes: &[u8],
) -> Result<Vec<u8>, AllocError>
    ensures { IfOk result (λ lines. MatchOption parts
        ((scalars arrays : ℕ) →
        SaySections scalars arrays (kept fnr bytes.now ∷ []) lines.items)
        (λ said. lines.items ≡ said.items)) }
{
    match parts {
        Some(lines) => Ok(lines),
        None => {
            let mut lines = Vec::new(alloc);
            push_kept(&mut lines, fnr, bytes)?;
            Ok(lines)
        }
    }
}
