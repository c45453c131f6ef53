//! Records that hold none of a few words.

ghost use Rattle.std.specs.Prelude.{◌≡◌, ◌-◌, ◌<◌, ◌≤◌, length, slice_index, take};
ghost use Rattle.pawk_ere.specs.Words.{HoldsNone};

use memchr::memmem::Finder;
use memchr::memrchr;

/// How many bytes are looked at first where there are several words.
const FIRST_LOOK: usize = 1_024;

/// How many times as many bytes each later look takes in.
const WIDENING: usize = 2;

/// A place before which none of these words occurs: the first at which one does, or the text's end.
fn least_place(words: &[Finder<'static>], text: &[u8]) -> usize
    ensures within { result ≤ length text.now }
    ensures none { 1 ≤ result → HoldsNone (take result text.now) words.now }
{
    let mut least = text.len();
    for word in words {
        least = word.find(&text[..least]).unwrap_or(least);
    }
    least
}

/// How many bytes at the front hold none of these words; 0 where nothing is known. Where there are
/// several, a rare one costs no look at the whole text while another is near.
fn free_length(words: &[Finder<'static>], text: &[u8]) -> usize
    ensures within { result ≤ length text.now }
    ensures none { 1 ≤ result → HoldsNone (take result text.now) words.now }
{
    if words.len() < 2 {
        return least_place(words, text);
    }
    let mut look = FIRST_LOOK;
    while look < text.len() {
        let free = least_place(words, &text[..look]);
        if free < look {
            return free;
        }
        look = look.saturating_mul(WIDENING);
    }
    least_place(words, text)
}

/// How many bytes at the front are records that end at this byte and hold none of these words.
/// They are fewer than all.
pub(crate) fn passed_length(words: &[Finder<'static>], text: &[u8], separator: u8) -> usize
    ensures within { 1 ≤ result → result < length text.now }
    ensures ends { 1 ≤ result → slice_index text.now (result - 1) ≡ separator }
    ensures none { 1 ≤ result → HoldsNone (take result text.now) words.now }
{
    if text.is_empty() {
        return 0;
    }
    let free = free_length(words, text).min(text.len() - 1);
    match memrchr(separator, &text[..free]) {
        Some(place) => place + 1,
        None => 0,
    }
}
