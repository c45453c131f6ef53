//! Where the output goes.

ghost use Rattle.std.specs.Prelude.{◌≡◌};

use std::io;
use std::io::{ErrorKind, Write};

/// A writer that remembers whether its reader was closed.
#[derive(Drop)]
pub struct Outlet<W> {
    writer: W,
    is_closed: bool,
}

impl<W> Outlet<W> {
    /// What goes to this writer.
    pub fn new(writer: W) -> Outlet<W> {
        Outlet {
            writer,
            is_closed: false,
        }
    }

    /// Whether a write found that nobody reads any more.
    pub fn is_closed(&self) -> bool {
        self.is_closed
    }
}

impl<W: Write> Write for Outlet<W> {
    ghost contents = { λ outlet. W.contents outlet.writer };

    fn write(&mut self, bytes: &[u8]) -> io::Result<usize> {
        match self.writer.write(bytes) {
            Ok(count) => Ok(count),
            Err(error) => {
                self.is_closed = error.kind() == ErrorKind::BrokenPipe;
                Err(error)
            }
        }
    }

    fn flush(&mut self) -> io::Result<()> {
        self.writer.flush()
    }
}
