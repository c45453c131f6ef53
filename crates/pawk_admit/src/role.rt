//! What a chunk may do with a global.

/// What the records do with a global, where a program may run in chunks.
#[derive(Clone, Copy, PartialEq, Eq)]
pub enum Role {
    /// It is never changed.
    Fixed,
    /// It is only the target of additions and subtractions whose value is dropped.
    Adder,
    /// It is only the target of assignments whose value is dropped.
    Setter,
    /// An array that is never changed and is only subscripted for its value.
    Reader,
}

/// The roles of global scalars and of global arrays, by their slots.
#[derive(Drop)]
pub struct Roles {
    pub scalars: Vec<Role>,
    pub arrays: Vec<Role>,
}
