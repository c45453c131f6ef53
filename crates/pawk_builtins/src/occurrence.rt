//! Where one text occurs in another.

ghost use Rattle.std.specs.Prelude.{◌≡◌, ◌<◌, length};
ghost use Rattle.memchr.specs.Find.{FindsNeedle};
ghost use Rattle.pawk_store.specs.Builtins as spec;

use memchr::arch::all::is_prefix;
use memchr::{memchr, memmem};

/// In a text of fewer bytes each place of the first byte is tried; a longer one is worth the search for a rare byte.
const SHORT: usize = 24;

/// The first byte at which one text occurs in a short one, counted from 0.
fn find_short(text: &[u8], sought: &[u8]) -> Option<usize>
    requires { 0 < length sought.now }
    ensures { FindsNeedle text.now sought.now 0 result }
{
    let mut from = 0;
    while from < text.len() {
        let (_, rest) = text.split_at(from);
        let place = from + memchr(sought[0], rest)?;
        let (_, tail) = text.split_at(place);
        if is_prefix(tail, sought) {
            return Some(place);
        }
        from = place + 1;
    }
    None
}

/// The first byte at which one text occurs in another, counted from 0.
fn find(text: &[u8], sought: &[u8]) -> Option<usize>
    requires { 0 < length sought.now }
    ensures { FindsNeedle text.now sought.now 0 result }
{
    if text.len() < SHORT {
        return find_short(text, sought);
    }
    memmem::find(text, sought)
}

/// The place where one text first occurs in another, in bytes counted from 1; 0 where it does not,
/// and for an empty one.
///
/// POSIX.1-2017, awk, "String Functions" (`index`).
pub fn index(text: &[u8], sought: &[u8]) -> usize
    ensures { result ≡ spec.index text.now sought.now }
{
    if sought.is_empty() {
        return 0;
    }
    match find(text, sought) {
        Some(place) => place + 1,
        None => 0,
    }
}
