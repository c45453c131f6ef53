//! The keys of elements.

ghost use Rattle.std.specs.Prelude.{◌≡◌, ◌∷◌, [], IfOk};
ghost use Rattle.pawk_keyed_map.specs.Keys.{text_of};

use indexmap::Equivalent;
use std::alloc::{AllocError, Global};
use std::hash::{Hash, Hasher};

/// A key of an element, for maps by such keys. A short one is kept in place, a long one in memory of
/// its own. Contracts see its bytes by `text_of`; two keys are equal where their bytes are, and are
/// hashed as them. A map looks one up by lent bytes, which a [`Query`] is.
#[derive(Drop)]
pub enum Key {
    /// The first of these bytes, as many as the number says.
    Short(u8, [u8; 30]),
    Long(Vec<u8>),
}

impl Key {
    /// A key with these bytes. One of at most 30 bytes takes no memory.
    pub fn new(alloc: Global, text: &[u8]) -> Result<Key, AllocError>
        ensures { IfOk result (λ key. text_of key ≡ text.now) }
    {
        if text.len() > 30 {
            return Ok(Key::Long(Vec::from_slice(alloc, text)?));
        }
        let mut room = [0; 30];
        room[..text.len()].copy_from_slice(text);
        Ok(Key::Short(text.len() as u8, room))
    }

    /// The bytes of the key.
    pub fn text(&self) -> &[u8]
        ensures { result.now ≡ text_of self.now }
    {
        match self {
            Key::Short(length, room) => match room.get(..*length as usize) {
                Some(text) => text,
                None => room,
            },
            Key::Long(text) => text.as_slice(),
        }
    }
}

impl PartialEq for Key {
    ghost use Rattle.std.specs.Str.{bytes_eq};
    ghost use Rattle.std.specs.Cmp.{on_per, partial_equiv_from_equiv};
    ghost use Rattle.std.specs.Cmp.Lexicographic.{nat_list_eq_equiv};

    ghost eq = { λ x y. bytes_eq (text_of x) (text_of y) };

    ghost laws = { on_per (λ x. text_of x) (partial_equiv_from_equiv nat_list_eq_equiv) };

    fn eq(&self, other: &Key) -> bool {
        self.text() == other.text()
    }
}

impl Eq for Key {
    ghost use Rattle.std.specs.Cmp.{on_equiv};
    ghost use Rattle.std.specs.Cmp.Lexicographic.{nat_list_eq_equiv};

    ghost laws = { on_equiv (λ x. text_of x) nat_list_eq_equiv };
}

impl Hash for Key {
    ghost use Rattle.std.proofs.Common.{ap};
    ghost use Rattle.std.specs.Cmp.Lexicographic.{bytes_decides};

    ghost hash_input = { λ k. text_of k ∷ [] };

    ghost respects_eq = { λ x y h. ap (λ t. t ∷ []) ((bytes_decides (text_of x) (text_of y)).0 h) };

    fn hash<H: Hasher>(&self, state: &mut H) {
        state.write(self.text());
    }
}

/// The bytes of a [`Key`] that is looked for in a map, lent.
#[derive(Clone, Copy)]
pub struct Query<'a>(pub &'a [u8]);

impl PartialEq for Query<'_> {
    ghost use Rattle.std.specs.Str.{bytes_eq};
    ghost use Rattle.std.specs.Cmp.{on_per, partial_equiv_from_equiv};
    ghost use Rattle.std.specs.Cmp.Lexicographic.{nat_list_eq_equiv};

    ghost eq = { λ x y. bytes_eq x.0.now y.0.now };

    ghost laws = { on_per (λ x. x.0.now) (partial_equiv_from_equiv nat_list_eq_equiv) };

    fn eq(&self, other: &Self) -> bool {
        self.0 == other.0
    }
}

impl Eq for Query<'_> {
    ghost use Rattle.std.specs.Cmp.{on_equiv};
    ghost use Rattle.std.specs.Cmp.Lexicographic.{nat_list_eq_equiv};

    ghost laws = { on_equiv (λ x. x.0.now) nat_list_eq_equiv };
}

impl Hash for Query<'_> {
    ghost use Rattle.std.proofs.Common.{ap};
    ghost use Rattle.std.specs.Cmp.Lexicographic.{bytes_decides};

    ghost hash_input = { λ q. q.0.now ∷ [] };

    ghost respects_eq = { λ x y h. ap (λ t. t ∷ []) ((bytes_decides x.0.now y.0.now).0 h) };

    fn hash<H: Hasher>(&self, state: &mut H) {
        state.write(self.0);
    }
}

impl Equivalent<Key> for Query<'_> {
    ghost use Rattle.std.proofs.Common.{ap};
    ghost use Rattle.std.specs.Str.{bytes_eq};
    ghost use Rattle.std.specs.Cmp.Lexicographic.{bytes_decides, nat_list_eq_equiv};

    ghost equivalent = { λ q k. bytes_eq q.0.now (text_of k) };

    ghost respects_hash = { λ q k h.
        ap (λ t. t ∷ []) ((bytes_decides q.0.now (text_of k)).0 h) };

    ghost respects_eq = { λ q x y.
        nat_list_eq_equiv.congr q.0.now (text_of x) (text_of y) };

    fn equivalent(&self, key: &Key) -> bool {
        self.0 == key.text()
    }
}
