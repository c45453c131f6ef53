// Searches for an expression that is some bytes and nothing else.

ghost use Rattle.pawk_ere.specs.Words.{IsLiteral};
ghost use Rattle.pawk_ere_automaton.specs.Regex.{Regex, Takes};
ghost use Rattle.pawk_ere_syntax.specs.Pattern.{HasMatch, IsFound};
ghost use Rattle.std.specs.Prelude.{◌↔◌, ◌≤◌, length, IsTrue};

use memchr::memmem::Finder;

/// The leftmost match of an expression that matches the finder's bytes and nothing else.
pub fn search_literal(literal: &Finder<'static>, text: &[u8], from: usize) -> Option<(usize, usize)>
    requires { from ≤ length text.now }
    ensures { (e : Regex) → IsLiteral e literal.now → IsFound (Takes e text.now) from result }
{
    match literal.find(&text[from..]) {
        None => None,
        Some(ahead) => {
            let start = from + ahead;
            Some((start, start + literal.needle().len()))
        }
    }
}

/// Whether the finder's bytes occur at `from` or later.
pub fn has_literal(literal: &Finder<'static>, text: &[u8], from: usize) -> bool
    requires { from ≤ length text.now }
    ensures { (e : Regex) → IsLiteral e literal.now
        → IsTrue result ↔ HasMatch (Takes e text.now) from }
{
    match search_literal(literal, text, from) {
        None => false,
        Some(_) => true,
    }
}
