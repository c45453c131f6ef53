//! The line in front of bytes.

ghost use Rattle.std.specs.Prelude.{MatchResult};
ghost use Rattle.pawk_lines.specs.Lines.{shown, BeginsLine};
ghost use Rattle.pawk_tables.specs.Reading.{HasNoLine};

use pawk_lines::{Damage, Line, read_line};

/// The line in front of the bytes, and what follows it.
pub(crate) fn next_line(bytes: &[u8]) -> Result<(Line<'_>, &[u8]), Damage>
    ensures { MatchResult result
        (λ found. BeginsLine bytes.now (shown found.0) found.1.now)
        (λ _. HasNoLine bytes.now) }
{
    match read_line(bytes) {
        Ok(Some(found)) => Ok((found.line, &bytes[found.length..])),
        Ok(None) => Err(Damage),
        Err(damage) => Err(damage),
    }
}
