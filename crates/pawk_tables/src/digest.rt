//! The end of a table file: the digest of all bytes before.

ghost use Rattle.std.specs.Prelude.{◌≡◌, ◌≢◌, ◌↔◌, ◌++◌, ℕ, List, take, length};
ghost use Rattle.std.specs.Prelude.{IsTrue, OnOk, MatchResult};
ghost use Rattle.hex.specs.Hex.{encode_lower};
ghost use Rattle.pawk_lines.specs.Lines as lines;
ghost use Rattle.pawk_lines.specs.Lines.{IsLine, line_bytes};
ghost use Rattle.pawk_parts.specs.declared.refusal.TableRefusal.{TableRefusal};
ghost use Rattle.pawk_tables.specs.Layout.{end_bytes};

use crate::front::next_line;
use hex::encode_to_slice;
use pawk_lines::{Line, push_line};
use pawk_parts::TableRefusal;
use sha2::{Digest, Sha256};
use std::alloc::AllocError;

/// How many bytes the last line of a table file has.
const END_LENGTH: usize = 72;

/// The digits of a digest, two for each byte.
fn digits(digest: &[u8; 32]) -> [u8; 64]
    ensures { result ≡ encode_lower digest.now }
{
    let mut digits = [0u8; 64];
    encode_to_slice(digest.as_slice(), &mut digits).unwrap();
    digits
}

/// Writes the last line of a table file, with the SHA-256 of all bytes before it. Where memory is refused, the bytes
/// that were there are still in front, and a part of the line may follow them.
pub fn push_end(out: &mut Vec<u8>, digest: &[u8; 32]) -> Result<(), AllocError>
    ensures written { OnOk result (out.new.items
        ≡ out.old.items ++ line_bytes (lines.end (encode_lower digest.now))) }
    ensures line { IsLine (lines.end (encode_lower digest.now)) }
    ensures kept { take (length out.old.items) out.new.items ≡ out.old.items }
{
    push_line(out, Line::End(&digits(digest)))
}

/// Whether the bytes, as many as a last line has, are the last line with this digest.
fn is_end(bytes: &[u8], digest: &[u8; 32]) -> bool
    requires { length bytes.now ≡ END_LENGTH }
    ensures { IsTrue result ↔ (bytes.now ≡ line_bytes (lines.end (encode_lower digest.now))) }
{
    let Ok((line, _)) = next_line(bytes) else {
        return false;
    };
    match line {
        Line::End(text) => text == digits(digest).as_slice(),
        _ => false,
    }
}

/// The bytes of a table file before its last line, where that has their digest.
///
/// `Damage` where the file does not end so: it is cut short, or some of its bytes are others.
pub fn checked(bytes: &[u8]) -> Result<&[u8], TableRefusal>
    ensures { MatchResult result
        (λ body. bytes.now ≡ body.now ++ end_bytes body.now)
        (λ refusal. (refusal ≡ TableRefusal.Damage)
        × ((body : List ℕ) → bytes.now ≢ body ++ end_bytes body)) }
{
    if bytes.len() < END_LENGTH {
        return Err(TableRefusal::Damage);
    }
    let (body, end) = bytes.split_at(bytes.len() - END_LENGTH);
    if is_end(end, &Sha256::digest(body)) {
        Ok(body)
    } else {
        Err(TableRefusal::Damage)
    }
}
