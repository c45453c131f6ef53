//! Laws about the definitions. The calls do nothing.

ghost use Rattle.std.specs.Prelude.{◌≡◌, ℕ, List};
ghost use Rattle.pawk_ere_syntax.specs.Pattern.{Pattern};
ghost use Rattle.pawk_builtins.specs.TextLaws.{IndexLaw, SubstringLaw, ReplacementLaw, ReplacedLaw};
ghost use Rattle.pawk_builtins.specs.Limits.{cache_size, longest_text};

use crate::matchers::{CACHE_SIZE, LONGEST_TEXT};

/// The limits of the matchers are those of the definitions.
pub fn limits_are_defined()
    ensures cache { CACHE_SIZE ≡ cache_size }
    ensures text { LONGEST_TEXT ≡ longest_text }
{}

/// `index` is the first place at which the text stands. `substr` is what stands at a place and after it,
/// as long as the number says or as the text is. In a replacement `&` is the match, `\&` and
/// `\\` are the second byte, and any other byte is itself. `gsub` replaces all matches from left to
/// right, an empty one only where no other ended, and `sub` the first; what is between them stays.
pub fn text_laws()
    ensures index { (s t : List ℕ) → IndexLaw s t }
    ensures substring { (front middle back : List ℕ) → SubstringLaw front middle back }
    ensures replacement { (match : List ℕ) → ReplacementLaw match }
    ensures replaced { (e : Pattern) (r s : List ℕ) → ReplacedLaw e r s }
{}
