// Laws about the definitions. The calls do nothing.

ghost use Rattle.pawk_ere_syntax.specs.Bounds.{bound_at};
ghost use Rattle.pawk_ere_syntax.specs.BracketCauses.{IsBracketCause};
ghost use Rattle.pawk_ere_syntax.specs.Brackets.{bracket_at};
ghost use Rattle.pawk_ere_syntax.specs.Causes.{IsFirstCause, Stops, bracket_cause};
ghost use Rattle.pawk_ere_syntax.specs.Escapes.{escape_at};
ghost use Rattle.pawk_ere_syntax.specs.Items.{IsBracket};
ghost use Rattle.pawk_ere_syntax.specs.Limits.{greatest_bound, greatest_size};
ghost use Rattle.pawk_ere_syntax.specs.Numerals.{IsBound, IsEscape};
ghost use Rattle.pawk_ere_syntax.specs.Pattern.{Holds, Pattern};
ghost use Rattle.pawk_ere_syntax.specs.Sets.{InSome, all_bytes, complement, none, only, with_ranges};
ghost use Rattle.pawk_ere_syntax.specs.Tokens.{SpellsEre};
ghost use Rattle.pawk_ere_syntax.specs.declared.refusal.EreRefusal.{EreRefusal};
ghost use Rattle.pawk_ere_syntax.specs.declared.token.EreToken.TheVariants.{Times};
ghost use Rattle.std.specs.Prelude.{◌≡◌, ◌↔◌, ◌⊎◌, ◌<◌, ℕ, Bool, List, Option, Some};

use crate::limits::{GREATEST_BOUND, GREATEST_SIZE};

/// The limits of the program are those of the definitions.
pub fn limits_are_defined()
    ensures bound { GREATEST_BOUND ≡ greatest_bound }
    ensures size { GREATEST_SIZE ≡ greatest_size }
{}

/// A text spells at most one expression.
pub fn a_text_spells_one()
    ensures { (bytes : List ℕ) (e f : Pattern) → SpellsEre bytes e → SpellsEre bytes f → e ≡ f }
{}

/// What sets hold: all bytes, none, one, those of ranges beside those of a set, those that a set lacks.
pub fn sets_hold()
    ensures all { (b : ℕ) → b < 256 → Holds all_bytes b }
    ensures none { (b : ℕ) → b < 256 → Holds none b → ⊥ }
    ensures one { (a b : ℕ) → a < 256 → b < 256 → Holds (only a) b ↔ (b ≡ a) }
    ensures ranges { (rs : List (ℕ × ℕ)) (m : List Bool) (b : ℕ) → b < 256
        → Holds (with_ranges rs m) b ↔ (Holds m b ⊎ InSome rs b) }
    ensures outside { (m : List Bool) (b : ℕ) → b < 256 → Holds (complement m) b ↔ (Holds m b → ⊥) }
{}

/// What is read after a `[` is a bracket expression: classes, points and ranges up to the `]`; and
/// each is read so.
pub fn brackets_are_items()
    ensures { (s rest : List ℕ) (m : List Bool) → (bracket_at s ≡ Some (m, rest)) ↔ IsBracket s m rest }
{}

/// What is read after a `{` is a bound whose numbers its digits write in decimal, and each is read so.
pub fn bounds_are_numerals()
    ensures { (bytes rest : List ℕ) (least : ℕ) (most : Option ℕ)
        → (bound_at bytes ≡ Some (Times least most, rest)) ↔ IsBound bytes least most rest }
{}

/// What is read after a backslash is a letter for a byte, punctuation, or up to three octal digits,
/// as many as there are and make a byte; and each is read so.
pub fn escapes_are_bytes()
    ensures { (s rest : List ℕ) (b : ℕ) → (escape_at s ≡ Some (b, rest)) ↔ IsEscape s b rest }
{}

/// A text has at most one first cause for which it is refused.
pub fn a_text_has_one_cause()
    ensures { (bytes : List ℕ) (a b : EreRefusal) → IsFirstCause bytes a → IsFirstCause bytes b
        → a ≡ b }
{}

/// What follows a `[` is no bracket expression, for one cause, exactly where it has that cause: after
/// whole items comes a backslash that begins no escape, or what is no item.
pub fn brackets_have_causes()
    ensures { (s : List ℕ) (why : EreRefusal)
        → Stops (bracket_at s) (bracket_cause s) why ↔ IsBracketCause s why }
{}
