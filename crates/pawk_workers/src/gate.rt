//! What a caller may watch of the workers.

/// Is called round each block whose records a worker counts, and round each chunk that a worker runs, on that worker's thread,
/// and where a worker's thread cannot be started.
pub trait Gate {
    /// Before the records are counted that begin in the block of this number, counted from 0.
    fn enter_block(&self, _block: u64) {}

    /// After they were counted.
    fn leave_block(&self, _block: u64) {}

    /// Before the chunk of this number, counted from 0, is run.
    fn enter(&self, chunk: u64);

    /// After it: it is lent the chunk's output, or `None` where memory was refused.
    fn leave(&self, chunk: u64, output: Option<&[u8]>);

    /// Is asked on the caller's thread each time that a worker's thread cannot be started: whether that worker's work is done on
    /// the caller's thread. Where it is not, as it is unless a gate says otherwise, the run is refused, once the workers that were
    /// started have ended.
    fn may_lack_thread(&self) -> bool {
        false
    }
}

/// Does nothing.
#[derive(Clone, Copy)]
pub struct Open;

impl Gate for Open {
    fn enter(&self, _chunk: u64) {}

    fn leave(&self, _chunk: u64, _output: Option<&[u8]>) {}
}
