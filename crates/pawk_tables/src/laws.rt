//! The laws of table files. Each is the contract of a function that does nothing.

ghost use Rattle.std.specs.Prelude.{◌≡◌, ◌++◌, ◌∷◌, [], ℕ, List, All};
ghost use Rattle.pawk_lines.specs.Lines as lines;
ghost use Rattle.pawk_lines.specs.Lines.{IsLine, Line, line_bytes};
ghost use Rattle.pawk_parts.specs.Parts.{all_bytes};
ghost use Rattle.pawk_tables.specs.Layout.{AllSpell, Header, header_lines, IsBody};
ghost use Rattle.pawk_tables.specs.Layout.{IsTableFile, Section, Spells};
ghost use Rattle.pawk_tables.specs.Reading.{AreInTurn, IsHeaderInFront, IsInFront, Item};

/// A header, sections one after the other and the number of records are a body.
pub fn files_are_written()
    ensures sections { (scalars arrays : ℕ) (ss : List Section) (s : Section)
        (ls ks : List Line) → AllSpell scalars arrays ss ls → Spells scalars arrays s ks →
        AllSpell scalars arrays (ss ++ s ∷ []) (ls ++ ks) }
    ensures body { (scalars arrays : ℕ) (h : Header) (ss : List Section) (ls : List Line)
        (count : ℕ) → All IsLine (header_lines h) → AllSpell scalars arrays ss ls →
        All IsLine ls → IsLine (lines.records count) → IsBody scalars arrays
        (all_bytes (header_lines h) ++ (all_bytes ls ++ line_bytes (lines.records count)))
        h ss count }
{}

/// What is written is read, and nothing else is: a file has one header, one list of sections and one number of records.
/// The bytes before its last line are such a body just where a header is in front, then each section in its turn, and
/// then the number of records.
pub fn files_are_read_again()
    ensures file { (scalars arrays : ℕ) (bytes : List ℕ) (h k : Header) (ss ts : List Section)
        (count number : ℕ) → IsTableFile scalars arrays bytes h ss count →
        IsTableFile scalars arrays bytes k ts number → (h ≡ k) × (ss ≡ ts) × (count ≡ number) }
    ensures body { (scalars arrays : ℕ) (bytes : List ℕ) (h k : Header) (ss ts : List Section)
        (count number : ℕ) → IsBody scalars arrays bytes h ss count →
        IsBody scalars arrays bytes k ts number → (h ≡ k) × (ss ≡ ts) × (count ≡ number) }
    ensures in_turn { (scalars arrays : ℕ) (bytes : List ℕ) (h : Header) (ss : List Section)
        (count : ℕ) → IsBody scalars arrays bytes h ss count →
        (rest : List ℕ) × IsHeaderInFront bytes h rest × AreInTurn scalars arrays rest ss count }
    ensures whole { (scalars arrays : ℕ) (bytes rest : List ℕ) (h : Header) (ss : List Section)
        (count : ℕ) → IsHeaderInFront bytes h rest → AreInTurn scalars arrays rest ss count →
        IsBody scalars arrays bytes h ss count }
{}

/// Bytes have one header in front at most, and one section or number of records.
pub fn fronts_are_single()
    ensures header { (bytes : List ℕ) (h k : Header) (rest others : List ℕ) →
        IsHeaderInFront bytes h rest → IsHeaderInFront bytes k others →
        (h ≡ k) × (rest ≡ others) }
    ensures section { (scalars arrays : ℕ) (bytes : List ℕ) (i k : Item) (rest others : List ℕ) →
        IsInFront scalars arrays bytes i rest → IsInFront scalars arrays bytes k others →
        (i ≡ k) × (rest ≡ others) }
{}
