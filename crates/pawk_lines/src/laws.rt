//! The laws of lines. Each is the contract of a function that does nothing.

ghost use Rattle.std.specs.Prelude.{◌≡◌, ℕ, ℤ, List, [], ◌∷◌, ◌++◌, length, codes};
ghost use Rattle.std.specs.Fmt.{decimal, signed_decimal};
ghost use Rattle.pawk_words.specs.Words.{written_all};
ghost use Rattle.pawk_lines.specs.Lines as spec;
ghost use Rattle.pawk_lines.specs.Lines.{format, element, added, sum, IsLine, BeginsLine, line_bytes};
ghost use Rattle.pawk_lines.specs.Lines.{mark_words};

/// What is written is in front of the bytes, and nothing else is: bytes begin with one line at most, so no two lines
/// have one spelling, and none is the beginning of another.
pub fn lines_are_read_again()
    ensures begins { (l : spec.Line) (rest : List ℕ) → IsLine l →
        BeginsLine (line_bytes l ++ rest) l rest }
    ensures line { (l k : spec.Line) (rest others : List ℕ) → IsLine l → IsLine k →
        line_bytes l ++ rest ≡ line_bytes k ++ others → (l ≡ k) × (rest ≡ others) }
{}

/// Some lines to the byte: `pawk table 7`, `key 3:a b created`, and `add 5` and `sum 5 -1 6` as they end a line.
pub fn lines_are_spelled()
    ensures format { (n : ℕ) →
        line_bytes (format n) ≡ codes "pawk table " ++ (decimal n ++ 10 ∷ []) }
    ensures key { (key : List ℕ) (mark : spec.Mark) → line_bytes (element key mark)
        ≡ codes "key " ++ (decimal (length key)
        ++ (58 ∷ (key ++ (32 ∷ written_all (mark_words mark))))) }
    ensures add { (total : ℤ) → written_all (mark_words (added total))
        ≡ codes "add " ++ (signed_decimal total ++ 10 ∷ []) }
    ensures sum { (total least greatest : ℤ) → written_all (mark_words (sum total least greatest))
        ≡ codes "sum " ++ (signed_decimal total ++ (32 ∷ (signed_decimal least
        ++ (32 ∷ (signed_decimal greatest ++ 10 ∷ []))))) }
{}
