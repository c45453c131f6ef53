//! Why nothing is read.

ghost use Rattle.std.specs.Prelude.{◌≡◌, if◌then◌else◌};

/// Why bytes do not begin with what is read.
#[derive(Clone, Copy)]
pub(crate) enum Failure {
    /// They end too early: it is in front of some bytes that go on from them.
    Short,
    /// It is not in front, whatever comes after the bytes.
    Damage,
}

/// The failure of bytes that end before a word does, by whether they may begin one that is wanted.
pub(crate) fn cut(possible: bool) -> Failure
    ensures { result ≡ (if possible then Failure.Short else Failure.Damage) }
{
    if possible {
        Failure::Short
    } else {
        Failure::Damage
    }
}
