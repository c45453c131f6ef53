// Character classes.

ghost use Rattle.pawk_ere_syntax.specs.Brackets.{class_among, class_name, class_ranges, rest_after};
ghost use Rattle.std.specs.Prelude.{◌≡◌, ◌+◌, ◌≤◌, length, None, Some, IfSome, MatchOption};

/// A character class, in the POSIX locale (XBD 7.3.1).
#[derive(Clone, Copy)]
pub enum Class {
    Alpha,
    Digit,
    Alnum,
    Upper,
    Lower,
    Space,
    Blank,
    Punct,
    Print,
    Graph,
    Control,
    HexDigit,
}

/// Every class.
pub const CLASSES: [Class; 12] = [
    Class::Alpha,
    Class::Digit,
    Class::Alnum,
    Class::Upper,
    Class::Lower,
    Class::Space,
    Class::Blank,
    Class::Punct,
    Class::Print,
    Class::Graph,
    Class::Control,
    Class::HexDigit,
];

impl Class {
    /// The name, with what ends it in a bracket expression.
    fn name(self) -> &'static [u8]
        ensures { result.now ≡ class_name self }
    {
        match self {
            Class::Alpha => b"alpha:]",
            Class::Digit => b"digit:]",
            Class::Alnum => b"alnum:]",
            Class::Upper => b"upper:]",
            Class::Lower => b"lower:]",
            Class::Space => b"space:]",
            Class::Blank => b"blank:]",
            Class::Punct => b"punct:]",
            Class::Print => b"print:]",
            Class::Graph => b"graph:]",
            Class::Control => b"cntrl:]",
            Class::HexDigit => b"xdigit:]",
        }
    }

    /// The bytes, as ranges of which both ends are included.
    pub fn ranges(self) -> &'static [(u8, u8)]
        ensures { result.now ≡ class_ranges self }
    {
        match self {
            Class::Alpha => &[(b'A', b'Z'), (b'a', b'z')],
            Class::Digit => &[(b'0', b'9')],
            Class::Alnum => &[(b'0', b'9'), (b'A', b'Z'), (b'a', b'z')],
            Class::Upper => &[(b'A', b'Z')],
            Class::Lower => &[(b'a', b'z')],
            Class::Space => &[(9, 13), (b' ', b' ')],
            Class::Blank => &[(9, 9), (b' ', b' ')],
            Class::Punct => &[(33, 47), (58, 64), (91, 96), (123, 126)],
            Class::Print => &[(32, 126)],
            Class::Graph => &[(33, 126)],
            Class::Control => &[(0, 31), (127, 127)],
            Class::HexDigit => &[(b'0', b'9'), (b'A', b'F'), (b'a', b'f')],
        }
    }
}

/// What follows the name, if the text begins with it.
fn rest_after<'a>(name: &[u8], text: &'a [u8]) -> Option<&'a [u8]>
    ensures value { let wanted = rest_after name.now text.now in
        MatchOption result (wanted ≡ None) (λ rest. wanted ≡ Some rest.now) }
    ensures shorter { IfSome result (λ rest. length rest.now + length name.now ≡ length text.now) }
{
    match name {
        [] => Some(text),
        [n, names @ ..] => match text {
            [c, rest @ ..] if *c == *n => rest_after(names, rest),
            _ => None,
        },
    }
}

/// The first of these classes whose name the text begins with, and what follows.
pub fn class_among<'a>(classes: &[Class], text: &'a [u8]) -> Option<(Class, &'a [u8])>
    ensures value { let wanted = class_among classes.now text.now in
        MatchOption result (wanted ≡ None) (λ x. wanted ≡ Some (x.0, x.1.now)) }
    ensures shorter { IfSome result (λ x. length x.1.now ≤ length text.now) }
{
    match classes {
        [] => None,
        [class, others @ ..] => match rest_after(class.name(), text) {
            Some(rest) => Some((*class, rest)),
            None => class_among(others, text),
        },
    }
}
