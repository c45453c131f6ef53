//! Names as slots, counted from 0.

/// An array.
#[derive(Clone, Copy, PartialEq, Eq)]
pub enum Array {
    /// The global array of this slot.
    Global(usize),
    /// The array that the parameter of this number stands for.
    Local(usize),
}

/// A scalar that `for (k in a)` sets.
#[derive(Clone, Copy, PartialEq, Eq)]
pub enum Variable {
    /// The global scalar of this slot.
    Global(usize),
    /// The parameter of this number.
    Local(usize),
}
