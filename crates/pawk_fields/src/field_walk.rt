//! Lists of the ranges of fields that blanks or a byte separate.

ghost use Rattle.std.specs.Prelude.{◌≡◌, ◌++◌, map, OnErr, OnOk};
ghost use Rattle.pawk_fields.specs.Fields.{blank_fields};
ghost use Rattle.pawk_fields.specs.Splits.{PiecesLaw, separates};
ghost use Rattle.pawk_fields.specs.FieldSeparator.{fields_by, range_of, ranges_by};

use crate::separator::FieldSeparator;
use std::alloc::AllocError;
use std::ops::Range;

/// Appends the ranges of a record's fields, each a begin and an end in it, in bytes counted from 0.
/// An empty record has none.
///
/// Where memory was refused the list is as before.
pub fn append_ranges(
    ranges: &mut Vec<Range<usize>>,
    separator: FieldSeparator,
    text: &[u8],
) -> Result<(), AllocError>
    ensures added { OnOk result
        (ranges.new.items ≡ ranges.old.items ++ map range_of (ranges_by separator text.now)) }
    ensures refused { OnErr result (ranges.new.items ≡ ranges.old.items) }
{
    let length = ranges.len();
    let mut next = separator.first_place(text);
    while let Some(place) = next {
        let Some(step) = separator.next_field(text, place) else {
            return Ok(());
        };
        if ranges.push(step.start..step.end).is_err() {
            ranges.truncate(length);
            return Err(AllocError);
        }
        next = step.next;
    }
    Ok(())
}

/// A record that is not empty is cut by a byte, and in paragraph mode by newlines too, in one way
/// alone: into pieces that hold none of them, each up to the next one or to the end.
pub fn pieces_law(byte: u8, paragraph: bool, text: &[u8])
    ensures { PiecesLaw (separates byte paragraph) text.now }
{
    let _ = byte;
    let _ = paragraph;
    let _ = text;
}

/// The ranges between blanks hold the fields that `fields_law` speaks of.
pub fn blanks_law(text: &[u8])
    ensures { fields_by FieldSeparator.Blanks text.now ≡ blank_fields text.now }
{
    let _ = text;
}
