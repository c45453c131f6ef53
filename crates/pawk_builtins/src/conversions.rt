//! What the conversions of operands give.

ghost use Rattle.std.specs.Prelude.{◌≡◌, ◌≤◌, Ok, Err, IfErr, OnOk};
ghost use Rattle.pawk_store.specs.Places.{index_by};
ghost use Rattle.pawk_store.specs.Meaning.{status_by, both_of};
ghost use Rattle.pawk_store.specs.Builtins as spec;

use pawk_value::{Fault, LENGTH_LIMIT};

/// The index of a field.
///
/// Fault `field` where it is negative, and that of its conversion.
///
/// POSIX.1-2017, awk, "Variables and Special Variables".
pub fn field_index(number: Result<i64, Fault>) -> Result<usize, Fault>
    ensures { result ≡ index_by number }
{
    match usize::try_from(number?) {
        Ok(index) => Ok(index),
        Err(_) => Err(Fault::Field),
    }
}

/// The status of `exit`.
///
/// Fault `status` where it is not 0 to 255, and that of its conversion.
///
/// POSIX.1-2017, awk, "Actions" and "Exit Status".
pub fn exit_status(number: Result<i64, Fault>) -> Result<u8, Fault>
    ensures { result ≡ status_by number }
{
    match u8::try_from(number?) {
        Ok(status) => Ok(status),
        Err(_) => Err(Fault::Status),
    }
}

/// Two numbers; the first of their faults, if there is one.
pub fn both(first: Result<i64, Fault>, second: Result<i64, Fault>) -> Result<(i64, i64), Fault>
    ensures { result ≡ both_of first second }
{
    Ok((first?, second?))
}

/// Whether a text is one that may be made.
///
/// Fault `length` where it is longer than 16,777,216 bytes.
pub fn within_limit(text: &[u8]) -> Result<(), Fault>
    ensures ok { OnOk result (spec.within_limit text.now ≡ Ok text.now) }
    ensures fault { IfErr result (λ fault. spec.within_limit text.now ≡ Err fault) }
{
    if text.len() <= LENGTH_LIMIT {
        Ok(())
    } else {
        Err(Fault::Length)
    }
}
