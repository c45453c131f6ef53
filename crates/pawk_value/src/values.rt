//! The values of awk.

ghost use Rattle.std.specs.Prelude.{◌≡◌};
ghost use Rattle.pawk_value.specs.Value.{shown, lent_value};

/// A value. A text is bytes, each one a character.
#[derive(Drop)]
pub enum Value {
    /// The value of what was never assigned: 0 as a number, empty as a text.
    Uninit,
    /// A whole number.
    Num(i64),
    /// A text that was made by the program.
    Text(Vec<u8>),
    /// A text that came from outside, a candidate: it is numeric where all of it looks like a numeral.
    Maybe(Vec<u8>),
}

/// A value whose text is lent, as a field of a record that was never copied.
#[derive(Clone, Copy)]
pub enum ValueRef<'a> {
    /// The value of what was never assigned.
    Uninit,
    /// A whole number.
    Num(i64),
    /// A text that was made by the program.
    Text(&'a [u8]),
    /// A text that came from outside, a candidate.
    Maybe(&'a [u8]),
}

/// The value, with its text lent.
#[inline]
pub fn lend(value: &Value) -> ValueRef<'_>
    ensures { lent_value result ≡ shown value.now }
{
    match value {
        Value::Uninit => ValueRef::Uninit,
        Value::Num(number) => ValueRef::Num(*number),
        Value::Text(text) => ValueRef::Text(text.as_slice()),
        Value::Maybe(text) => ValueRef::Maybe(text.as_slice()),
    }
}
