//! The text of one directive: padding, zeros, digits.

ghost use Rattle.std.specs.Prelude.{◌≡◌, ◌++◌, ◌+◌, ◌<◌, ◌^◌, length, vec_len, is_ok, if◌then◌else◌, replicate, OnErr};
ghost use Rattle.pawk_value.specs.Format.{within_limit, with_spaces, zero_count, zeros, fills_zeros, number_text, in_width};
ghost use Rattle.pawk_value.specs.FormatViews.{Makes};

use crate::directive::Directive;
use crate::{Fault, LENGTH_LIMIT, Stop};
use std::alloc::AllocError;

/// Appends copies of a byte.
fn push_copies(out: &mut Vec<u8>, byte: u8, count: usize) -> Result<(), AllocError>
    requires { vec_len out.old + count < 2 ^ 64 }
    ensures items { out.new.items
        ≡ (if is_ok result then out.old.items ++ replicate count byte else out.old.items) }
    ensures full { OnErr result (0 < count) }
{
    if count == 0 {
        return Ok(());
    }
    out.resize(out.len() + count, byte)
}

/// What surrounds the body of a text: spaces up to a width, before it or after it.
#[derive(Clone, Copy)]
struct Frame {
    /// Whether the spaces come after it.
    pub left: bool,
    /// The least number of bytes.
    pub width: usize,
}

/// Appends a body that nothing surrounds. Nothing is appended where the length would pass the limit.
pub fn push_body(out: &mut Vec<u8>, body: &[u8]) -> Result<(), Stop>
    ensures { Makes out.old.items (within_limit (out.old.items ++ body.now)) out.new.items result }
{
    if out.len().saturating_add(body.len()) > LENGTH_LIMIT {
        return Err(Stop::Fault(Fault::Length));
    }
    out.extend_from_slice(body)?;
    Ok(())
}

/// Appends a prefix, zeros and a body, with spaces that fill the width, part by part.
#[inline(never)]
fn push_parts(
    out: &mut Vec<u8>,
    frame: Frame,
    prefix: &[u8],
    zero_count: usize,
    body: &[u8],
) -> Result<(), Stop>
    ensures { Makes out.old.items
        (within_limit (out.old.items ++
        with_spaces frame.left frame.width (prefix.now ++ (zeros zero_count ++ body.now))))
        out.new.items result }
{
    let length = prefix
        .len()
        .saturating_add(zero_count)
        .saturating_add(body.len());
    if out.len().saturating_add(length.max(frame.width)) > LENGTH_LIMIT {
        return Err(Stop::Fault(Fault::Length));
    }
    let gap = frame.width.saturating_sub(length);
    push_copies(out, b' ', if frame.left { 0 } else { gap })?;
    out.extend_from_slice(prefix)?;
    push_copies(out, b'0', zero_count)?;
    out.extend_from_slice(body)?;
    push_copies(out, b' ', if frame.left { gap } else { 0 })?;
    Ok(())
}

/// Appends a prefix, zeros and a body, with spaces that fill the width. Nothing is appended where the
/// length would pass the limit.
#[inline(always)]
fn push_framed(
    out: &mut Vec<u8>,
    frame: Frame,
    prefix: &[u8],
    zero_count: usize,
    body: &[u8],
) -> Result<(), Stop>
    ensures { Makes out.old.items
        (within_limit (out.old.items ++
        with_spaces frame.left frame.width (prefix.now ++ (zeros zero_count ++ body.now))))
        out.new.items result }
{
    if prefix.is_empty() && zero_count == 0 && frame.width <= body.len() {
        return push_body(out, body);
    }
    push_parts(out, frame, prefix, zero_count, body)
}

/// Where a directive wants its spaces.
fn frame_of(directive: Directive) -> Frame
    ensures left { result.left ≡ directive.flags.left }
    ensures width { result.width ≡ directive.width }
{
    Frame {
        left: directive.flags.left,
        width: directive.width,
    }
}

/// Appends a text with spaces.
pub fn push_plain(out: &mut Vec<u8>, directive: Directive, text: &[u8]) -> Result<(), Stop>
    ensures { Makes out.old.items (within_limit (out.old.items ++ in_width directive text.now))
        out.new.items result }
{
    push_framed(out, frame_of(directive), &[], 0, text)
}

/// How many zeros are before the digits of a number.
fn count_zeros(directive: Directive, before: usize, count: usize) -> usize
    ensures { result
        ≡ zero_count (fills_zeros directive.flags) directive.precision directive.width before count }
{
    match directive.precision {
        Some(precision) => precision.saturating_sub(count),
        None => if directive.flags.zero && !directive.flags.left {
            directive.width.saturating_sub(before.saturating_add(count))
        } else {
            0
        },
    }
}

/// Appends a number: a sign or a prefix, zeros, digits.
pub fn push_number(
    out: &mut Vec<u8>,
    directive: Directive,
    prefix: &[u8],
    digits: &[u8],
) -> Result<(), Stop>
    ensures { Makes out.old.items
        (within_limit (out.old.items ++ number_text directive prefix.now digits.now))
        out.new.items result }
{
    let zero_count = count_zeros(directive, prefix.len(), digits.len());
    push_framed(out, frame_of(directive), prefix, zero_count, digits)
}
