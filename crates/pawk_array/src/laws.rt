//! Laws of what arrays hold.

ghost use Rattle.pawk_array.specs.Law.{SameLaw, PutLaw, WithoutLaw, PiecesLaw};

/// Two arrays that have the same at every key are equal.
pub fn same_law()
    ensures { SameLaw }
{}

/// After a value is put at a key, that has it, and every other key has what it had.
pub fn put_law()
    ensures { PutLaw }
{}

/// Without a key, that has nothing, and every other key has what it had.
pub fn without_law()
    ensures { WithoutLaw }
{}

/// The pieces of a text are at the keys `1`, `2`, ..
pub fn pieces_law()
    ensures { PiecesLaw }
{}
