//! What occurs in the text of a program that decides whether its records may run in chunks.

/// What a text does with a global name.
#[derive(Clone, Copy)]
pub enum Touch {
    /// It looks at its value; at that of an element by subscripts.
    Look,
    /// It assigns it by `=`, and drops the value.
    Set,
    /// It assigns it otherwise: by `=` whose value is used, by `*= /= %= ^=`, by `sub` or `gsub`,
    /// or as the variable of a walk.
    Assign,
    /// It adds to it by `+= -= ++ --`, and drops the value.
    Add,
    /// It adds to it, and uses the value.
    AddAndLook,
    /// It asks whether the array has an element, by `in`.
    Test,
    /// It walks over the array, by `for (k in a)`.
    Walk,
    /// It fills the array by `split`.
    Split,
    /// It passes the array to a function.
    Pass,
    /// It deletes an element, or all of them.
    Delete,
}

/// A global name, by its slot.
#[derive(Clone, Copy)]
pub enum GlobalName {
    Scalar(usize),
    Array(usize),
}

/// What occurs in a text.
#[derive(Clone, Copy)]
pub enum Occurrence {
    /// A global name, and what is done with it.
    Touch(Touch, GlobalName),
    /// A call of the function of this slot.
    Call(usize),
    /// A call of `match`.
    Match,
    /// A range of records.
    Range,
    NextFile,
}
