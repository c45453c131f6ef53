//! Threads whose stack is deep enough for a run.

use pawk_par::STACK_BYTES;
use std::sync::Wait;
use std::thread::{Builder, Scope, Threads};

/// How many bytes the stack of a thread has that no call of a function goes deeper into.
const FLAT_BYTES: usize = 16_777_216;

/// How deep the stack of a run's thread is.
#[derive(Clone, Copy, PartialEq, Eq)]
pub enum Depth {
    /// As deep as calls inside calls may go.
    Deep,
    /// As deep as a program without functions goes.
    Flat,
}

impl Depth {
    /// How many bytes a stack of this depth has.
    fn bytes(self) -> usize {
        match self {
            Depth::Deep => STACK_BYTES,
            Depth::Flat => FLAT_BYTES,
        }
    }
}

/// Does this in a thread of the scope with a stack of this depth, and gives what it gives, or nothing where the thread cannot be
/// started.
pub fn do_in<'s, E, T, R, F>(scope: &Scope<'s, E>, rt: &R, depth: Depth, work: F) -> Option<T>
where
    T: Send + Drop + 's,
    R: Threads + Wait,
    F: FnOnce() -> T + Send + Drop + 's,
    requires { F.pre work }
{
    match Builder::new()
        .stack_size(depth.bytes())
        .spawn_scoped(scope, work)
    {
        Ok(handle) => Some(handle.join(rt)),
        Err(_) => None,
    }
}
