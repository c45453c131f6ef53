//! Blanks and words, and how many fields blanks separate.

ghost use Rattle.std.specs.Prelude.{◌≡◌, ◌≤◌, length};
ghost use Rattle.std.specs.List.{prefix_len};
ghost use Rattle.pawk_value.specs.Bytes.{is_blank};
ghost use Rattle.pawk_fields.specs.Fields.{is_not_blank, blank_fields, FieldsLaw};

use crate::words::count_words;
use pawk_value::is_blank_byte;

/// How many blanks the text begins with.
#[inline]
pub(crate) fn blank_length(text: &[u8]) -> usize
    ensures value { result ≡ prefix_len is_blank text.now }
    ensures bound { result ≤ length text.now }
{
    for (i, b) in text.iter().enumerate() {
        if !is_blank_byte(*b) {
            return i;
        }
    }
    text.len()
}

/// How many bytes that are no blanks the text begins with.
#[inline]
pub(crate) fn word_length(text: &[u8]) -> usize
    ensures value { result ≡ prefix_len is_not_blank text.now }
    ensures bound { result ≤ length text.now }
{
    for (i, b) in text.iter().enumerate() {
        if is_blank_byte(*b) {
            return i;
        }
    }
    text.len()
}

/// How many fields a record has (`NF`): spaces, tabs and newlines at both ends are skipped, and runs
/// of them separate. Takes no memory.
///
/// POSIX.1-2017, awk, "Variables and Special Variables" (`FS`, the default).
#[inline]
pub fn count_fields(text: &[u8]) -> usize
    ensures { result ≡ length (blank_fields text.now) }
{
    count_words(text)
}

/// A record's fields are the one list that it is parted into: blanks, a field, at least one blank,
/// a field, and so on to blanks; no field is empty or holds a blank.
pub fn fields_law(text: &[u8])
    ensures { FieldsLaw text.now }
{
    let _ = text;
}
