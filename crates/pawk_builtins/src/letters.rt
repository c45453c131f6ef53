//! Letters of texts.

ghost use Rattle.std.specs.Prelude.{◌≡◌, ◌++◌, OnOk};
ghost use Rattle.pawk_store.specs.Builtins.{letter_in, letters_in};

use pawk_code::word::Case;
use std::alloc::AllocError;

/// A byte, which changes where it is an ASCII letter of the other case.
#[inline]
fn letter_of(case: Case, byte: u8) -> u8
    ensures { result ≡ letter_in case byte }
{
    match case {
        Case::Lower => byte.to_ascii_lowercase(),
        Case::Upper => byte.to_ascii_uppercase(),
    }
}

/// Changes the letters of bytes.
fn change_letters(case: Case, bytes: &mut [u8])
    ensures { bytes.new ≡ letters_in case bytes.old }
{
    for byte in bytes.iter_mut() {
        *byte = letter_of(case, *byte);
    }
}

/// Appends a text with its ASCII letters in one case. Where memory was refused nothing is said of
/// what was appended.
///
/// POSIX.1-2017, awk, "String Functions" (`tolower`, `toupper`), in the POSIX locale.
pub fn push_letters(case: Case, text: &[u8], out: &mut Vec<u8>) -> Result<(), AllocError>
    ensures { OnOk result (out.new.items ≡ out.old.items ++ letters_in case text.now) }
{
    let begin = out.len();
    out.extend_from_slice(text)?;
    change_letters(case, &mut out[begin..]);
    Ok(())
}
