//! Parts of texts by their places.

ghost use Rattle.std.specs.Prelude.{◌≡◌, pos, int_le, length};
ghost use Rattle.pawk_store.specs.Builtins.{bytes_where, is_from};
ghost use Rattle.pawk_builtins.specs.PlaceViews.{before};

/// How many bytes of a text are before a place, which is counted from 1.
fn count_before(text: &[u8], place: i128) -> usize
    ensures { result ≡ before place (length text.now) }
{
    if place <= 1 {
        return 0;
    }
    match usize::try_from(place - 1) {
        Ok(count) => count.min(text.len()),
        Err(_) => text.len(),
    }
}

/// The bytes of a text from a place on, which is counted from 1; a place before the first is as the
/// first.
///
/// POSIX.1-2017, awk, "String Functions" (`substr`).
pub fn suffix(text: &[u8], from: i64) -> &[u8]
    ensures { result.now ≡ bytes_where (λ p. int_le from (pos p)) 1 text.now }
{
    &text[count_before(text, i128::from(from))..]
}

/// The bytes of a text at places from one number on, as many as another says; places are counted from
/// 1, and those that the text does not have give nothing.
///
/// POSIX.1-2017, awk, "String Functions" (`substr`).
pub fn substring(text: &[u8], from: i64, count: i64) -> &[u8]
    ensures { result.now ≡ bytes_where (is_from from count) 1 text.now }
{
    let begin = count_before(text, i128::from(from));
    let end = count_before(text, i128::from(from) + i128::from(count));
    if begin < end { &text[begin..end] } else { &[] }
}
