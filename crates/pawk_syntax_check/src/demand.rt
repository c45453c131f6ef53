//! Demands on kinds.

use crate::variables::NumberedName;

/// What a program asks of the kinds of its names.
#[derive(Clone, Copy)]
pub enum Demand<'t> {
    /// The name is an array.
    Array(NumberedName<'t>),
    /// The name is a scalar.
    Scalar(NumberedName<'t>),
    /// A name and the parameter to which it is passed are of one kind.
    Alike(NumberedName<'t>, NumberedName<'t>),
}
