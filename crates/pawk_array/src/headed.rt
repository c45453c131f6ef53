//! Texts that are compared by their first bytes as one number.

ghost use Rattle.std.specs.Prelude.{◌≡◌, get_or};
ghost use Rattle.pawk_array.specs.Heads.{head_of, AreBytes};

use std::cmp::Ordering;

/// A text, with its first eight bytes as a number.
#[derive(Clone, Copy)]
pub(crate) struct Headed<'a> {
    pub(crate) text: &'a [u8],
    head: u64,
    ghost bytes: { AreBytes text.now },
    ghost is_head: { head ≡ head_of text.now },
}

/// The byte at a place, or 0.
fn byte_at(text: &[u8], place: usize) -> u8
    ensures { result ≡ get_or text.now place 0 }
{
    match text.get(place) {
        Some(byte) => *byte,
        None => 0,
    }
}

/// The first eight bytes as a number.
fn head(text: &[u8]) -> u64
    ensures { result ≡ head_of text.now }
{
    u64::from_be_bytes([
        byte_at(text, 0),
        byte_at(text, 1),
        byte_at(text, 2),
        byte_at(text, 3),
        byte_at(text, 4),
        byte_at(text, 5),
        byte_at(text, 6),
        byte_at(text, 7),
    ])
}

impl<'a> Headed<'a> {
    /// A text with its first bytes.
    pub(crate) fn new(text: &'a [u8]) -> Headed<'a>
        ensures { result.text.now ≡ text.now }
    {
        Headed {
            text,
            head: head(text),
        }
    }
}

impl PartialEq for Headed<'_> {
    ghost use Rattle.std.specs.Str.{bytes_eq};
    ghost use Rattle.std.specs.Cmp.{on_per, partial_equiv_from_equiv};
    ghost use Rattle.std.specs.Cmp.Lexicographic.{nat_list_eq_equiv};

    ghost eq = { λ x y. bytes_eq x.text.now y.text.now };

    ghost laws = { on_per (λ x. x.text.now) (partial_equiv_from_equiv nat_list_eq_equiv) };

    fn eq(&self, other: &Self) -> bool {
        self.text == other.text
    }
}

impl Eq for Headed<'_> {
    ghost use Rattle.std.specs.Cmp.{on_equiv};
    ghost use Rattle.std.specs.Cmp.Lexicographic.{nat_list_eq_equiv};

    ghost laws = { on_equiv (λ x. x.text.now) nat_list_eq_equiv };
}

impl PartialOrd for Headed<'_> {
    ghost use Rattle.std.specs.Prelude.{Some};
    ghost use Rattle.std.specs.Ordering.{nat_cmp};
    ghost use Rattle.std.specs.Cmp.{on_po};
    ghost use Rattle.std.specs.Cmp.Lexicographic.{slice_cmp, texts_po};

    ghost partial_cmp = { λ x y. Some (slice_cmp nat_cmp x.text.now y.text.now) };

    ghost laws = { on_po (λ x. x.text.now) texts_po };

    fn partial_cmp(&self, other: &Self) -> Option<Ordering> {
        Some(self.cmp(other))
    }
}

impl Ord for Headed<'_> {
    ghost use Rattle.std.proofs.Common.{refl};
    ghost use Rattle.std.specs.Ordering.{nat_cmp};
    ghost use Rattle.std.specs.Cmp.{on_total};
    ghost use Rattle.std.specs.Cmp.Lexicographic.{slice_cmp, nat_list_cmp_total, texts_ties};

    ghost cmp = { λ x y. slice_cmp nat_cmp x.text.now y.text.now };

    ghost total = { on_total (λ x. x.text.now) nat_list_cmp_total };

    ghost matches_partial_cmp = { λ x y. refl };

    ghost matches_eq = { λ x y. texts_ties x.text.now y.text.now };

    fn cmp(&self, other: &Self) -> Ordering {
        if self.head < other.head {
            Ordering::Less
        } else if other.head < self.head {
            Ordering::Greater
        } else {
            self.text.cmp(other.text)
        }
    }
}
