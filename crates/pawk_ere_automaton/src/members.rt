// Sets of bytes as a tree keeps them.

ghost use Rattle.pawk_ere_automaton.specs.Members.{bit, members_of};
ghost use Rattle.pawk_ere_syntax.specs.Pattern.{Holds};
ghost use Rattle.pawk_ere_syntax.specs.Sets.{IsOnlyMember};
ghost use Rattle.std.specs.Prelude.{◌≡◌, ◌↔◌, ℕ, ◌+◌, ◌*◌, ◌<◌, ◌≤◌, IfSome, IsTrue, false, get_or, nat_eq};

use pawk_ere_syntax::ByteSet;

/// Whether a byte belongs to a set, as 1 or 0.
fn weight(set: &ByteSet, byte: usize) -> u8
    requires { byte < 256 }
    ensures small { result ≤ 1 }
    ensures bit { nat_eq result 1 ≡ get_or set.now.members byte false }
{
    if set.members[byte] { 1 } else { 0 }
}

/// Eight answers as the bits of a number, the first as the lowest.
fn octet(set: &ByteSet, place: usize) -> u8
    requires { place < 32 }
    ensures { (k : ℕ) → k < 8 → bit result k ≡ get_or set.now.members (8 * place + k) false }
{
    let first = 8 * place;
    let low = weight(set, first)
        + 2 * weight(set, first + 1)
        + 4 * weight(set, first + 2)
        + 8 * weight(set, first + 3);
    let high = weight(set, first + 4)
        + 2 * weight(set, first + 5)
        + 4 * weight(set, first + 6)
        + 8 * weight(set, first + 7);
    low + 16 * high
}

/// A set of bytes: a bit for each, eight in a number.
#[derive(Clone, Copy)]
pub struct Members {
    pub octets: [u8; 32],
}

impl Members {
    /// A set of bytes as members, kept in bits.
    pub fn of(set: ByteSet) -> Members
        ensures { members_of result ≡ set.members }
    {
        let mut octets = [0; 32];
        for place in 0..32 {
            octets[place] = octet(&set, place);
        }
        Members { octets }
    }

    /// Whether the byte belongs to the set.
    #[inline(always)]
    pub fn contains(&self, byte: u8) -> bool
        ensures { IsTrue result ↔ Holds (members_of self.now) byte }
    {
        let octet = self.octets[byte as usize / 8];
        (octet >> (byte % 8)) % 2 == 1
    }

    /// The one byte of a set, if there is one and no other.
    pub fn only_member(&self) -> Option<u8>
        ensures { IfSome result (λ byte. IsOnlyMember (members_of self.now) byte) }
    {
        let mut found = None;
        for byte in 0..256usize {
            if self.contains(byte as u8) {
                if found.is_some() {
                    return None;
                }
                found = Some(byte as u8);
            }
        }
        found
    }
}
