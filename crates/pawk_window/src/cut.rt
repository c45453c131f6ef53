//! Where the bytes that came so far may be cut.

ghost use Rattle.std.specs.Prelude.{[], ◌∷◌, ◌≤◌, length, take, drop};
ghost use Rattle.pawk_records.specs.Separator.{rs_of};
ghost use Rattle.pawk_window.specs.Cuts.{NoneEnds, MayCut};

use memchr::memmem::rfind;
use memchr::memrchr;
use pawk_records::Separator;

/// How many of the first bytes hold whole records that end at one byte: up to the last of them. There is none among the
/// first `known` bytes.
fn lines_length(bytes: &[u8], known: usize, separator: u8) -> usize
    requires within { known ≤ length bytes.now }
    requires open { NoneEnds (separator ∷ []) (take known bytes.now) }
    ensures cut { MayCut (separator ∷ []) bytes.now result }
    ensures open { NoneEnds (separator ∷ []) (drop result bytes.now) }
{
    match memrchr(separator, &bytes[known..]) {
        Some(place) => known + place + 1,
        None => 0,
    }
}

/// How many of the first bytes hold whole paragraphs: up to the last two newlines, with them. There are no two adjacent
/// ones among the first `known` bytes.
fn paragraphs_length(bytes: &[u8], known: usize) -> usize
    requires within { known ≤ length bytes.now }
    requires open { NoneEnds [] (take known bytes.now) }
    ensures cut { MayCut [] bytes.now result }
    ensures open { NoneEnds [] (drop result bytes.now) }
{
    let start = known.saturating_sub(1);
    match rfind(&bytes[start..], b"\n\n") {
        Some(place) => start + place + 2,
        None => 0,
    }
}

/// How many of the first bytes are whole records, whatever follows them: as many as there are. No record ends among the
/// first `known` bytes; they are not looked at again, but for one.
///
/// POSIX.1-2017, awk, "Variables and Special Variables" (RS).
pub fn whole_length(bytes: &[u8], known: usize, separator: Separator) -> usize
    requires within { known ≤ length bytes.now }
    requires open { NoneEnds (rs_of separator) (take known bytes.now) }
    ensures cut { MayCut (rs_of separator) bytes.now result }
    ensures open { NoneEnds (rs_of separator) (drop result bytes.now) }
{
    match separator {
        Separator::Byte(byte) => lines_length(bytes, known, byte),
        Separator::Paragraph => paragraphs_length(bytes, known),
    }
}
