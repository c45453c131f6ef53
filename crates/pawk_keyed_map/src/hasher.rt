//! The hash of keys.

ghost use Rattle.std.specs.Prelude.{◌≡◌, ◌+◌, ◌≤◌, length};
ghost use Rattle.pawk_keyed_map.specs.Hashing as hashing;

use std::hash::Hasher;

/// The lower and the upper half of a product, joined.
#[tactic(auto, unfolding(crate::specs::Hashing::folded_product))]
fn folded_product(a: u64, b: u64) -> u64
    ensures { result ≡ hashing.folded_product a b }
{
    let product = a as u128 * b as u128;
    (product & 0xFFFF_FFFF_FFFF_FFFF) as u64 ^ (product >> 64) as u64
}

/// The four bytes from a place on, the lowest first.
#[tactic(auto, unfolding(crate::specs::Hashing::half_word))]
fn half_word(bytes: &[u8], at: usize) -> u64
    requires { at + 4 ≤ length bytes.now }
    ensures { result ≡ hashing.half_word bytes.now at }
{
    u32::from_le_bytes([bytes[at], bytes[at + 1], bytes[at + 2], bytes[at + 3]]) as u64
}

/// The eight bytes from a place on, the lowest first.
#[tactic(auto, unfolding(crate::specs::Hashing::word))]
fn word(bytes: &[u8], at: usize) -> u64
    requires { at + 8 ≤ length bytes.now }
    ensures { result ≡ hashing.word bytes.now at }
{
    half_word(bytes, at) | half_word(bytes, at + 4) << 32
}

/// Up to eight bytes as one number, by reads that may overlap.
#[tactic(auto, unfolding(crate::specs::Hashing::short_word))]
fn short_word(bytes: &[u8]) -> u64
    ensures { result ≡ hashing.short_word bytes.now }
{
    let length = bytes.len();
    if length >= 4 {
        half_word(bytes, 0) | half_word(bytes, length - 4) << 32
    } else if length > 0 {
        bytes[0] as u64 | (bytes[length / 2] as u64) << 8 | (bytes[length - 1] as u64) << 16
    } else {
        0
    }
}

/// A hash of keys that nobody foresees who does not know its numbers: each word of a key, and then its
/// length, is joined to the state, which is multiplied by a secret odd number. No chosen word makes a
/// factor 0.
#[derive(Clone, Copy)]
pub struct KeyHasher {
    state: u64,
    factor: u64,
}

impl KeyHasher {
    /// The hash of no bytes yet, by a number.
    pub(crate) fn new(number: u64) -> KeyHasher {
        KeyHasher {
            state: folded_product(number ^ 0x9e37_79b9_7f4a_7c15, 0xa076_1d64_78bd_642f),
            factor: folded_product(number ^ 0xe703_7ed1_a0b4_28db, 0x8ebc_6af0_9c88_c6e3) | 1,
        }
    }

    /// The state after the words of some bytes, the last of which may overlap the one before it.
    #[tactic(auto, unfolding(crate::specs::Hashing::after_words))]
    fn after_words(self, bytes: &[u8]) -> u64
        ensures { result ≡ hashing.after_words self.factor self.state bytes.now }
    {
        let length = bytes.len();
        if length <= 8 {
            return folded_product(self.state ^ short_word(bytes), self.factor);
        }
        let mut state = self.state;
        let mut at = 0;
        while length - at > 8 {
            state = folded_product(state ^ word(bytes, at), self.factor);
            at += 8;
        }
        folded_product(state ^ word(bytes, length - 8), self.factor)
    }
}

impl Hasher for KeyHasher {
    ghost write = { hashing.write };

    ghost finish = { hashing.finish };

    fn finish(&self) -> u64 {
        self.state
    }

    #[tactic(auto, unfolding(crate::specs::Hashing::write))]
    fn write(&mut self, bytes: &[u8]) {
        let state = self.after_words(bytes);
        self.state = folded_product(state ^ bytes.len() as u64, self.factor);
    }
}
