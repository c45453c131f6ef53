//! Formats of values.

ghost use Rattle.std.specs.Prelude.{◌≡◌, map};
ghost use Rattle.pawk_value.specs.Value.{lent_value};
ghost use Rattle.pawk_store.specs.Builtins.{formatted_text};
ghost use Rattle.pawk_code.specs.ExpressionViews.{format_view};
ghost use Rattle.pawk_builtins.specs.FormatViews.{format_text};
ghost use Rattle.pawk_builtins.specs.Settles.{Settles};

use crate::values::{FEW, Values};
use pawk_code::expression::Format;
use pawk_value::{Stop, ValueRef, format_into, template_into};
use std::alloc::Global;

/// Makes a buffer the text of a format with lent values.
fn write_format(
    out: &mut Vec<u8>,
    format: &Format,
    text: &[u8],
    values: &[ValueRef<'_>],
) -> Result<(), Stop>
    ensures { Settles (λ _. out.new.items)
        (formatted_text (format_text (format_view format.now) text.now) (map lent_value values.now))
        result }
{
    match format {
        Format::Fixed(fixed) => template_into(out, &fixed.template, values),
        Format::Value(_) => format_into(out, text, values),
    }
}

/// Makes a buffer the text of a format with many values.
#[inline(never)]
fn write_many(
    out: &mut Vec<u8>,
    alloc: Global,
    format: &Format,
    text: &[u8],
    values: &Values,
) -> Result<(), Stop>
    ensures { Settles (λ _. out.new.items)
        (formatted_text (format_text (format_view format.now) text.now) values.now) result }
{
    let list = values.lend(alloc)?;
    write_format(out, format, text, &list)
}

/// Makes a buffer the text that a format makes of values, where the format that is a value has the text `text`. What
/// the buffer had goes; after a fault nothing is said of it.
///
/// Faults `format`, `negative`, `length`, `numeral`, `overflow` as [`pawk_value::format`] has them.
///
/// POSIX.1-2017, awk, "Output Statements" and "String Functions" (`sprintf`).
pub fn format_values(
    out: &mut Vec<u8>,
    alloc: Global,
    format: &Format,
    text: &[u8],
    values: &Values,
) -> Result<(), Stop>
    ensures { Settles (λ _. out.new.items)
        (formatted_text (format_text (format_view format.now) text.now) values.now) result }
{
    let count = values.count();
    if count > FEW {
        return write_many(out, alloc, format, text, values);
    }
    let mut list = [ValueRef::Uninit; FEW];
    values.lend_few(&mut list);
    write_format(out, format, text, &list[..count])
}
