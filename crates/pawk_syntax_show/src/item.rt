//! The canonical text of programs.

ghost use Rattle.std.specs.Prelude.{◌≡◌, ◌++◌, OnOk, IfOk, map};
ghost use Rattle.pawk_syntax_tree.specs.Item.{part, texts};
ghost use Rattle.pawk_syntax_show.specs.Lengthening.{Lengthens};
ghost use Rattle.pawk_syntax_show.specs.ProgramText.{names_text, part_text, program_text};

use crate::expression::{append_after, append_expr, append_name};
use crate::statement::{append_body, append_name_after};
use crate::writing::append;
use pawk_syntax_tree::item::ProgramItem;
use pawk_syntax_tree::tree::Name;
use std::alloc::{AllocError, Global};

/// Appends names with a comma and a space between.
fn append_names(out: &mut Vec<u8>, names: &[Name]) -> Result<(), AllocError>
    ensures { OnOk result
        (Lengthens out.old.items out.new.items (names_text (texts names.now))) }
{
    let [first, others @ ..] = names else {
        return Ok(());
    };
    append_name(out, first)?;
    for other in others {
        append_name_after(out, b", ", other)?;
    }
    Ok(())
}

/// Appends an item.
fn append_item(out: &mut Vec<u8>, item: &ProgramItem) -> Result<(), AllocError>
    ensures { OnOk result (Lengthens out.old.items out.new.items (part_text (part item.now))) }
{
    match item {
        ProgramItem::Begin(body) => append_body(out, b"BEGIN ", body),
        ProgramItem::End(body) => append_body(out, b"END ", body),
        ProgramItem::Always(body) => append_body(out, b"", body),
        ProgramItem::When(pattern, body) => {
            append_expr(out, pattern)?;
            append_body(out, b" ", body)
        }
        ProgramItem::Range(first, last, body) => {
            append_expr(out, first)?;
            append_after(out, b", ", last)?;
            append_body(out, b" ", body)
        }
        ProgramItem::Function(name, parameters, body) => {
            append_name_after(out, b"function ", name)?;
            append(out, b"(")?;
            append_names(out, parameters)?;
            append_body(out, b") ", body)
        }
    }
}

/// The canonical text of a program: its items, each with a newline, every operator in round
/// brackets, with single spaces. Memory alone is the error.
pub fn show(alloc: Global, items: &[ProgramItem]) -> Result<Vec<u8>, AllocError>
    ensures { IfOk result (λ text. text.items ≡ program_text (map part items.now)) }
{
    let mut text = Vec::new(alloc);
    for item in items {
        append_item(&mut text, item)?;
        append(&mut text, b"\n")?;
    }
    Ok(text)
}
