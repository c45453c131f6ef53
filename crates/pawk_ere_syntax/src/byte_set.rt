// Sets of bytes.

ghost use Rattle.pawk_ere_syntax.specs.Sets.{IsOnlyMember, all_bytes, complement, none, only, with_range, with_ranges};
ghost use Rattle.std.specs.Prelude.{◌≡◌};

/// A set of bytes: an answer for each byte.
#[derive(Clone, Copy)]
pub struct ByteSet {
    pub members: [bool; 256],
}

impl ByteSet {
    ghost use Rattle.pawk_ere_syntax.specs.Pattern.{Holds};
    ghost use Rattle.std.specs.Prelude.{◌↔◌, ℕ, IfSome, IsTrue};

    /// Whether the byte belongs to the set.
    pub fn contains(&self, byte: u8) -> bool
        ensures { IsTrue result ↔ Holds self.now.members byte }
    {
        self.members[byte as usize]
    }

    /// The one byte of a set, if there is one and no other.
    pub fn only_member(&self) -> Option<u8>
        ensures { IfSome result (λ byte. IsOnlyMember self.now.members byte) }
    {
        let mut found = None;
        for byte in 0..256 {
            if self.members[byte] {
                if found.is_some() {
                    return None;
                }
                found = Some(byte as u8);
            }
        }
        found
    }

    /// The set of no byte.
    #[tactic(auto, unfolding(crate::specs::Sets::none))]
    pub fn none() -> ByteSet
        ensures { result.members ≡ none }
    {
        ByteSet {
            members: [false; 256],
        }
    }

    /// The set of all bytes.
    #[tactic(auto, unfolding(crate::specs::Sets::all_bytes))]
    pub fn all() -> ByteSet
        ensures { result.members ≡ all_bytes }
    {
        ByteSet {
            members: [true; 256],
        }
    }

    /// The set of one byte.
    #[tactic(auto, unfolding(crate::specs::Sets::only))]
    pub fn only(byte: u8) -> ByteSet
        ensures { result.members ≡ only byte }
    {
        let mut members = [false; 256];
        members[byte as usize] = true;
        ByteSet { members }
    }

    /// Adds the bytes from `low` to `high`, both included.
    pub fn insert_range(&mut self, low: u8, high: u8)
        ensures { self.new.members ≡ with_range low high self.old.members }
    {
        for byte in usize::from(low)..usize::from(high) + 1 {
            self.members[byte] = true;
        }
    }

    /// Adds the bytes of each of these ranges.
    pub fn insert_ranges(&mut self, ranges: &[(u8, u8)])
        ensures { self.new.members ≡ with_ranges ranges.now self.old.members }
    {
        match ranges {
            [] => {}
            [(low, high), others @ ..] => {
                self.insert_range(*low, *high);
                self.insert_ranges(others);
            }
        }
    }

    /// The bytes that are not in the set.
    pub fn complement(&self) -> ByteSet
        ensures { result.members ≡ complement self.now.members }
    {
        let mut members = [false; 256];
        for byte in 0..256 {
            members[byte] = !self.members[byte];
        }
        ByteSet { members }
    }
}
