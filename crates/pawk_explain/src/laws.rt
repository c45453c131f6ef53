//! The law of places. It is the contract of a function that does nothing.

ghost use Rattle.std.specs.Prelude.{ℕ, List, [], ◌∷◌, ◌++◌, length};
ghost use Rattle.pawk_explain.specs.Lines.{lines_as_lf, omissions};
ghost use Rattle.pawk_explain.specs.Reading.{IsReadFrom};

/// Each byte of a script's text is in the bytes of its files at the place that `Script::place` gives, however many
/// files were appended: nothing is read from no files, and each step of `Script::append_file` keeps it so.
pub fn bytes_stay_at_their_places()
    ensures nothing { IsReadFrom [] [] [] }
    ensures newline { (bytes text places : List ℕ) → IsReadFrom bytes text places →
        IsReadFrom (bytes ++ 10 ∷ []) (text ++ 10 ∷ []) places }
    ensures file { (bytes text places more : List ℕ) → IsReadFrom bytes text places →
        IsReadFrom (bytes ++ more) (text ++ lines_as_lf more)
        (places ++ omissions (length text) more) }
{}
