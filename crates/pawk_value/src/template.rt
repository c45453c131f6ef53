//! A format that was read once.

ghost use Rattle.std.specs.Prelude.{◌≡◌, ◌<◌, ℕ, List, [], length, map, IfOk, OnErr};
ghost use Rattle.std.specs.List.{flat_map};
ghost use Rattle.pawk_value.specs.Value.{lent_value};
ghost use Rattle.pawk_value.specs.Format.{pieces_of};
ghost use Rattle.pawk_value.specs.FormatViews.{shown_pieces, shown_values, Writes};
ghost use Rattle.pawk_value.specs.TemplateViews.{part_pieces, IsTemplateOf};

use crate::arguments::{Arguments, arguments_after};
use crate::directive::Directive;
use crate::formats::check_length;
use crate::output::push_piece;
use crate::pieces::{Piece, next_piece};
use crate::{Stop, ValueRef};
use std::alloc::{AllocError, Global};

/// A part of a format, with its own bytes.
#[derive(Drop)]
pub enum FormatPart {
    /// Bytes that stay as they are.
    Plain(Vec<u8>),
    /// `%%`.
    Percent,
    /// A directive.
    Place(Directive),
    /// A `%` that begins nothing, with all that follows it.
    Malformed,
}

/// The part that a piece is.
fn part_of(alloc: Global, piece: Piece<'_>) -> Result<FormatPart, AllocError>
    ensures { IfOk result (λ part. part_pieces part ≡ shown_pieces piece.entry) }
{
    match piece {
        Piece::Plain(bytes) => Ok(FormatPart::Plain(Vec::from_slice(alloc, bytes)?)),
        Piece::Percent => Ok(FormatPart::Percent),
        Piece::Place(directive) => Ok(FormatPart::Place(directive)),
        Piece::Malformed => Ok(FormatPart::Malformed),
    }
}

/// The piece that a part is.
fn piece_of(part: &FormatPart) -> Piece<'_>
    ensures { shown_pieces result ≡ part_pieces part.now }
{
    match part {
        FormatPart::Plain(bytes) => Piece::Plain(bytes.as_slice()),
        FormatPart::Percent => Piece::Percent,
        FormatPart::Place(directive) => Piece::Place(*directive),
        FormatPart::Malformed => Piece::Malformed,
    }
}

/// A format whose directives were read once, for many texts.
#[derive(Drop)]
pub struct Template {
    parts: Vec<FormatPart>,
}

/// The template of a format. It is refused only where an allocation is refused, and never that of a
/// format of no bytes.
pub fn read_template(alloc: Global, format: &[u8]) -> Result<Template, AllocError>
    ensures template { IfOk result (λ template. IsTemplateOf template format.now) }
    ensures full { OnErr result (0 < length format.now) }
{
    let mut parts = Vec::new(alloc);
    let mut rest = format;
    while !rest.is_empty() {
        let front = next_piece(rest);
        let part = part_of(alloc, front.piece)?;
        parts.push(part)?;
        rest = front.rest;
    }
    Ok(Template { parts })
}

/// Appends the text of a template to no bytes.
fn push_template(
    out: &mut Vec<u8>,
    template: &Template,
    arguments: Arguments<'_>,
) -> Result<(), Stop>
    requires { out.old.items ≡ [] }
    ensures { Writes (flat_map part_pieces template.now.parts.items)
        (shown_values arguments.entry) out.new.items result }
{
    let mut left = arguments;
    for part in &template.parts {
        let piece = piece_of(part);
        push_piece(out, piece, left)?;
        left = arguments_after(piece, left);
    }
    check_length(out)
}

/// Makes a buffer the text of a template with lent values, as `format_into` does with the format that
/// the template was read from.
pub fn template_into(
    out: &mut Vec<u8>,
    template: &Template,
    values: &[ValueRef<'_>],
) -> Result<(), Stop>
    ensures { (format : List ℕ) → IsTemplateOf template.now format
        → Writes (pieces_of format) (map lent_value values.now) out.new.items result }
{
    out.clear();
    push_template(out, template, Arguments::Lent(values))
}
