//! Words are written.

ghost use Rattle.std.specs.Prelude.{◌≡◌, ◌++◌, ◌∷◌, take, length, OnOk};
ghost use Rattle.std.specs.Fmt.{decimal, signed_decimal};
ghost use Rattle.pawk_words.specs.Words.{shown, IsWord, written};

use crate::word::{Gap, Word, gap_byte};
use itoa::Buffer;
use std::alloc::AllocError;

/// Writes a number in decimal at the end.
fn push_number(out: &mut Vec<u8>, number: i128) -> Result<(), AllocError>
    ensures written { OnOk result (out.new.items ≡ out.old.items ++ signed_decimal number) }
    ensures kept { take (length out.old.items) out.new.items ≡ out.old.items }
{
    let mut buffer = Buffer::new();
    out.extend_from_slice(buffer.format(number).as_bytes())
}

/// Writes a text at the end: its length in decimal, a colon and its bytes.
fn push_text(out: &mut Vec<u8>, text: &[u8]) -> Result<(), AllocError>
    ensures written { OnOk result
        (out.new.items ≡ out.old.items ++ (decimal (length text.now) ++ 58 ∷ text.now)) }
    ensures kept { take (length out.old.items) out.new.items ≡ out.old.items }
{
    let mut buffer = Buffer::new();
    out.extend_from_slice(buffer.format(text.len()).as_bytes())?;
    out.push(b':')?;
    out.extend_from_slice(text)
}

/// Writes a word and the gap after it at the end of the bytes. Where memory is refused, the bytes that were there are
/// still in front, and a part of the word may follow them.
pub fn push_word(out: &mut Vec<u8>, word: Word<'_>, gap: Gap) -> Result<(), AllocError>
    requires { IsWord (shown word) }
    ensures written { OnOk result
        (out.new.items ≡ out.old.items ++ written (shown word.entry) gap) }
    ensures kept { take (length out.old.items) out.new.items ≡ out.old.items }
{
    match word {
        Word::Name(letters) => out.extend_from_slice(letters)?,
        Word::Number(number) => push_number(out, number)?,
        Word::Text(text) => push_text(out, text)?,
    }
    out.push(gap_byte(gap))?;
    Ok(())
}
