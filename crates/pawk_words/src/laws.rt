//! The laws of words. Each is the contract of a function that does nothing.

ghost use Rattle.std.specs.Prelude.{◌≡◌, ◌≢◌, ℕ, ◌+◌, ℤ, pos, List, ◌∷◌, ◌++◌, ◌↔◌, length, slice_index};
ghost use Rattle.pawk_words.specs.declared.word.Gap.{Gap};
ghost use Rattle.pawk_words.specs.Words.{Word, number, text, IsWord, AreWords, Begins};
ghost use Rattle.pawk_words.specs.Words.{written_word, written, written_all};
ghost use Rattle.pawk_words.specs.Spelling.{Spells, IsNumeral};

/// What is written is in front of the bytes, and nothing else is: bytes begin with one word and gap at most, and are
/// those of one list of words with their gaps at most.
pub fn words_are_read_again()
    ensures begins { (w : Word) (g : Gap) (rest : List ℕ) → IsWord w →
        Begins (written w g ++ rest) w g rest }
    ensures word { (w v : Word) (g h : Gap) (rest others : List ℕ) → IsWord w → IsWord v →
        written w g ++ rest ≡ written v h ++ others → (w ≡ v) × (g ≡ h) × (rest ≡ others) }
    ensures all { (ws vs : List (Word × Gap)) → AreWords ws → AreWords vs →
        written_all ws ≡ written_all vs → ws ≡ vs }
{}

/// The bytes of a word are those that spell it in plain terms: letters; a numeral without a zero in front, and with a
/// minus for a number below 0; a numeral, a colon and as many bytes as it says.
pub fn words_are_spelled()
    ensures spells { (w : Word) (s : List ℕ) → IsWord w → Spells s w ↔ (s ≡ written_word w) }
    ensures zero { (z : ℤ) → IsWord (number z) →
        slice_index (written_word (number z)) 0 ≡ 48 → z ≡ pos 0 }
    ensures minus { (z : ℤ) (bytes : List ℕ) → IsWord (number z) →
        written_word (number z) ≢ 45 ∷ 48 ∷ bytes }
    ensures counted { (bytes : List ℕ) → IsWord (text bytes) → (digits : List ℕ)
        × IsNumeral digits (length bytes) × (written_word (text bytes) ≡ digits ++ 58 ∷ bytes) }
{}
