// Expressions as the matcher runs them.

use crate::members::Members;

/// An expression whose repetitions are copies, or turns without a bound.
#[derive(Drop)]
pub enum Node {
    Empty,
    Start,
    End,
    Bytes(Box<Members>),
    Sequence(Box<Node>, Box<Node>),
    Either(Box<Node>, Box<Node>),
    /// A number of copies, one after the other.
    Copies(u8, Box<Node>),
    Star(Box<Node>),
    Plus(Box<Node>),
}
