//! Expressions that have no effect and no fault.

/// A variable that the run sets (POSIX.1-2017, awk, "Variables and Special Variables").
#[derive(Clone, Copy, PartialEq, Eq)]
pub enum Special {
    Nr,
    Nf,
    Fnr,
    Filename,
    Rstart,
    Rlength,
}

/// What is read without an effect and without a fault.
#[derive(Drop)]
pub enum Leaf {
    Number(i64),
    Text(Vec<u8>),
    /// The global scalar of this slot.
    Global(usize),
    /// The parameter of this number.
    Local(usize),
    Special(Special),
    /// The field of this number, which is constant; 0 is the record.
    Field(usize),
}
