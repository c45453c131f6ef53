//! The laws of cutting a text into tokens. Each is the contract of a function that does nothing.

ghost use Rattle.std.specs.Prelude.{◌≡◌, ℕ, Bool, List, [], ◌∷◌, ◌++◌, ◌↔◌, true, None, Ok};
ghost use Rattle.std.specs.Prelude.{slice_index};
ghost use Rattle.pawk_lex.specs.Bytes.{Text};
ghost use Rattle.pawk_lex.specs.Tokens.{Tok, divides_after};
ghost use Rattle.pawk_lex.specs.Next.{next, finds};
ghost use Rattle.pawk_lex.specs.Cut.{Gap, Ends, MayOccur, Writes, Takes, CutFrom, Cut};
ghost use Rattle.pawk_lex.specs.Canonical.{AreBytes, IsWritable, AreWritable, MayEnd};
ghost use Rattle.pawk_lex.specs.Canonical.{is_separator, token_text};

/// A text is cut into tokens in one way at most.
pub fn cut_is_unique()
    ensures whole { (text : Text) (ts us : List Tok) → Cut text ts → Cut text us → ts ≡ us }
    ensures from { (divides : Bool) (text : Text) (ts us : List Tok) →
        CutFrom divides text ts → CutFrom divides text us → ts ≡ us }
{}

/// The lexical rules, as they are computed, find exactly the token that the text begins with, and
/// the end exactly where nothing but what separates tokens is left.
pub fn next_is_first_token()
    ensures token { (divides : Bool) (text : Text) (t : Tok) (rest : Text) →
        (next divides text ≡ finds t rest) ↔ Takes divides text t rest }
    ensures end { (divides : Bool) (text : Text) → (next divides text ≡ Ok None) ↔ Gap text [] }
{}

/// Blanks, joined lines and comments may come before a text, and after each token but a name that
/// is directly before `(`: the text is cut into the same tokens.
pub fn spacing_is_free()
    ensures before { (divides : Bool) (gap text : Text) (ts : List Tok) →
        Gap gap text → CutFrom divides text ts → CutFrom divides gap ts }
    ensures after { (divides : Bool) (x y text : Text) (b : ℕ) (t : Tok) (ts : List Tok) →
        Writes x t → MayEnd t → MayOccur divides t →
        is_separator b ≡ true → Gap (b ∷ y) text → CutFrom (divides_after t) text ts →
        CutFrom divides (x ++ b ∷ y) (t ∷ ts) }
{}

/// What `token_text` writes for a token is cut into that token again, before anything before which
/// the token ends.
pub fn token_text_is_read_again()
    ensures writes { (t : Tok) → IsWritable t → Writes (token_text t) t }
    ensures cut { (divides : Bool) (rest : Text) (t : Tok) (ts : List Tok) →
        IsWritable t → Ends t (slice_index rest 0) → MayOccur divides t →
        CutFrom (divides_after t) rest ts → CutFrom divides (token_text t ++ rest) (t ∷ ts) }
{}

/// `token_text` can write every token that a text is cut into.
pub fn tokens_are_writable()
    ensures { (divides : Bool) (text : Text) (ts : List Tok) →
        AreBytes text → CutFrom divides text ts → AreWritable ts }
{}
