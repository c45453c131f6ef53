//! Laws about the definitions. The calls do nothing.

ghost use Rattle.pawk_lex.specs.Bytes.{Text};
ghost use Rattle.pawk_settings.specs.ValueLaw.{StringLaw, ValueLaw};

/// A value of an assignment stands for what it writes byte by byte, with the escapes of a program's
/// strings: a letter for a byte, a quote, slash or backslash for itself, and up to three octal
/// digits, as many as there are and make a byte. A quote and a newline alone are themselves.
pub fn value_law()
    ensures value { (text : Text) → ValueLaw text }
    ensures string { (text : Text) → StringLaw text }
{}
