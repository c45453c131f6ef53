//! What stands for a match.

ghost use Rattle.std.specs.Prelude.{◌≡◌, ◌≤◌, ◌∷◌, ◌++◌, ℕ, List, true, length, IfOk, OnOk};
ghost use Rattle.pawk_store.specs.Builtins as spec;
ghost use Rattle.pawk_builtins.specs.ReplaceWalks.{begins_escaped};
ghost use Rattle.pawk_builtins.specs.Replaces.{IsOrBothTooLong};

use memchr::memchr2;
use pawk_value::LENGTH_LIMIT;
use std::alloc::AllocError;

/// Whether bytes begin with one that a backslash before it makes one of the text.
fn is_escaped(rest: &[u8]) -> bool
    ensures { result ≡ begins_escaped rest.now }
{
    match rest.first() {
        Some(byte) => *byte == b'&' || *byte == b'\\',
        None => false,
    }
}

/// Appends a text, which has often one byte or none.
#[inline(always)]
pub(crate) fn push_piece(out: &mut Vec<u8>, text: &[u8]) -> Result<(), AllocError>
    ensures { OnOk result (out.new.items ≡ out.old.items ++ text.now) }
{
    match text {
        [] => {}
        [byte] => out.push(*byte)?,
        _ => out.extend_from_slice(text)?,
    }
    Ok(())
}

/// Appends what the first byte of a replacement stands for, with the byte after a backslash; gives
/// the rest of the replacement.
fn push_unit<'r>(
    out: &mut Vec<u8>,
    found: &[u8],
    first: u8,
    rest: &'r [u8],
) -> Result<&'r [u8], AllocError>
    ensures text { IfOk result (λ left. out.new.items ++ spec.replacement found.now left.now
        ≡ out.old.items ++ spec.replacement found.now (first ∷ rest.now)) }
    ensures shorter { IfOk result (λ left. length left.now ≤ length rest.now) }
{
    if first == b'&' {
        push_piece(out, found)?;
        return Ok(rest);
    }
    if first == b'\\' && is_escaped(rest) {
        out.push(rest[0])?;
        return Ok(&rest[1..]);
    }
    out.push(first)?;
    Ok(rest)
}

/// Whether no byte of a replacement is an ampersand or a backslash.
fn has_no_special(replacement: &[u8]) -> bool
    ensures { (found : List ℕ) → result ≡ true → spec.replacement found replacement.now ≡ replacement.now }
{
    match memchr2(b'&', b'\\', replacement) {
        Some(_) => false,
        None => true,
    }
}

/// Whether a replacement, which has often one byte or none, stands for itself.
#[inline(always)]
pub(crate) fn is_plain(replacement: &[u8]) -> bool
    ensures { (found : List ℕ) → result ≡ true → spec.replacement found replacement.now ≡ replacement.now }
{
    match replacement {
        [] => true,
        [byte] => *byte != b'&',
        _ => has_no_special(replacement),
    }
}

/// Appends what stands for a match; no more where the text is longer than a text may be.
///
/// POSIX.1-2017, awk, "String Functions" (`sub`).
#[inline(never)]
pub(crate) fn push_replacement(
    out: &mut Vec<u8>,
    found: &[u8],
    replacement: &[u8],
) -> Result<(), AllocError>
    ensures { OnOk result (IsOrBothTooLong out.new.items
        (out.old.items ++ spec.replacement found.now replacement.now)) }
{
    let mut rest = replacement;
    while !rest.is_empty() && out.len() <= LENGTH_LIMIT {
        rest = push_unit(out, found, rest[0], &rest[1..])?;
    }
    Ok(())
}
