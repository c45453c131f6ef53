//! Formatted text.

ghost use Rattle.std.specs.Prelude.{◌≡◌, map, [], IfOk, IfErr, Ok, Err, Result};
ghost use Rattle.pawk_value.specs.Value.{shown, lent_value};
ghost use Rattle.pawk_value.specs.Format.{pieces_of, within_limit};
ghost use Rattle.pawk_value.specs.FormatLaw.{FormatLaw};
ghost use Rattle.pawk_value.specs.FormatViews.{cap_pieces_of, shown_values, Makes, Writes};
ghost use Rattle.pawk_value.specs.FormatResults.{Formats};

use crate::arguments::{Arguments, arguments_after};
use crate::output::push_piece;
use crate::pieces::next_piece;
use crate::{Fault, LENGTH_LIMIT, Stop, Value, ValueRef};
use std::alloc::Global;

/// Whether a text is within the limit of lengths.
pub(crate) fn check_length(text: &Vec<u8>) -> Result<(), Stop>
    ensures { Makes text.now.items (within_limit text.now.items) text.now.items result }
{
    if text.len() > LENGTH_LIMIT {
        return Err(Stop::Fault(Fault::Length));
    }
    Ok(())
}

/// Appends the text of a format to no bytes.
fn push_format(out: &mut Vec<u8>, format: &[u8], arguments: Arguments<'_>) -> Result<(), Stop>
    requires { out.old.items ≡ [] }
    ensures { Writes (cap_pieces_of format.now) (shown_values arguments.entry)
        out.new.items result }
{
    let mut rest = format;
    let mut left = arguments;
    while !rest.is_empty() {
        let front = next_piece(rest);
        push_piece(out, front.piece, left)?;
        left = arguments_after(front.piece, left);
        rest = front.rest;
    }
    check_length(out)
}

/// Makes a buffer the text of a format with lent values, as `format`. What the buffer held is lost, and
/// its space is used again. After a stop nothing is said of what the buffer holds.
pub fn format_into(out: &mut Vec<u8>, format: &[u8], values: &[ValueRef<'_>]) -> Result<(), Stop>
    ensures { Writes (pieces_of format.now) (map lent_value values.now) out.new.items result }
{
    out.clear();
    push_format(out, format, Arguments::Lent(values))
}

/// The text of a format with its values. A directive is `%`, flags, the digits of a width, perhaps a
/// point and the digits of a precision, and a conversion of `diouxXsc`; or `%%`. The first directive at
/// fault decides, and in it the first of: its form (`format`), a missing value (`format`), the value's
/// faults (those of `to_num`, `negative` where `o u x X` meet a negative number, `format` where `c` meets
/// a number that is no byte), the length of all bytes up to its end (`length`, above 16,777,216 bytes).
/// Last comes the length of the whole. Further values are not used. `Memory` comes only where a growth
/// was refused, and never where a fault comes before the first byte.
pub fn format(alloc: Global, format: &[u8], values: &[Value]) -> Result<Vec<u8>, Stop>
    ensures { Formats (pieces_of format.now) (map shown values.now) result }
{
    let mut out = Vec::new(alloc);
    push_format(&mut out, format, Arguments::Owned(values))?;
    Ok(out)
}

/// A format is cut in one way into bytes, `%%`, directives and a malformed rest.
pub fn format_law(format: &[u8])
    ensures { FormatLaw format.now }
{
    let _ = format;
}
