//! The pieces of a format, one after another.

ghost use Rattle.std.specs.Prelude.{◌≡◌, ◌<◌, ◌≤◌, ◌∷◌, ◌++◌, drop, length};
ghost use Rattle.std.specs.List.{prefix_len};
ghost use Rattle.pawk_value.specs.Numeral.{begins};
ghost use Rattle.pawk_value.specs.Format.{is_plain, is_percent};
ghost use Rattle.pawk_value.specs.FormatViews.{cap_pieces_of, shown_pieces};

use crate::directive::{Directive, read_directive};
use memchr::memchr;

/// A piece of a format.
#[derive(Clone, Copy)]
pub enum Piece<'a> {
    /// Bytes that stay as they are.
    Plain(&'a [u8]),
    /// `%%`.
    Percent,
    /// A directive.
    Place(Directive),
    /// A `%` that begins nothing, with all that follows it.
    Malformed,
}

/// A piece, and what follows it.
#[derive(Clone, Copy)]
pub struct Front<'a> {
    pub piece: Piece<'a>,
    pub rest: &'a [u8],
}

/// How many bytes are before the first `%`.
fn count_plain(text: &[u8]) -> usize
    ensures value { result ≡ prefix_len is_plain text.now }
    ensures bound { result ≤ length text.now }
{
    match memchr(b'%', text) {
        Some(place) => place,
        None => text.len(),
    }
}

/// The bytes after the first.
fn past_byte(text: &[u8]) -> &[u8]
    requires { 0 < length text.now }
    ensures { result.now ≡ drop 1 text.now }
{
    &text[1..]
}

/// Whether a `%` is in front.
fn begins_with_percent(text: &[u8]) -> bool
    ensures { result ≡ begins is_percent text.now }
{
    match text {
        [b'%', ..] => true,
        _ => false,
    }
}

/// What a `%` before a text begins.
fn place_in_front(text: &[u8]) -> Front<'_>
    ensures pieces { cap_pieces_of (37 ∷ text.now)
        ≡ shown_pieces result.piece ++ cap_pieces_of result.rest.now }
    ensures shorter { length result.rest.now ≤ length text.now }
{
    if begins_with_percent(text) {
        return Front {
            piece: Piece::Percent,
            rest: past_byte(text),
        };
    }
    match read_directive(text) {
        None => Front {
            piece: Piece::Malformed,
            rest: &[],
        },
        Some(reading) => Front {
            piece: Piece::Place(reading.directive),
            rest: reading.rest,
        },
    }
}

/// The piece in front of a format.
pub fn next_piece(format: &[u8]) -> Front<'_>
    requires { 0 < length format.now }
    ensures pieces { cap_pieces_of format.now
        ≡ shown_pieces result.piece ++ cap_pieces_of result.rest.now }
    ensures shorter { length result.rest.now < length format.now }
{
    if format[0] == b'%' {
        return place_in_front(past_byte(format));
    }
    let (plain, rest) = format.split_at(count_plain(format));
    Front {
        piece: Piece::Plain(plain),
        rest,
    }
}
