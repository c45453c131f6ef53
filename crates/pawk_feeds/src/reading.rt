//! The next records of a source.

ghost use Rattle.std.specs.Prelude.{IfOk};
ghost use Rattle.pawk_window.specs.Windows.{Comes};

use pawk_device::Source;
use pawk_par::StreamRefusal;
use pawk_window::{FillError, Window};

/// The refusal of a run for a window that was not filled.
fn refusal_of(error: FillError) -> StreamRefusal {
    match error {
        FillError::Memory => StreamRefusal::Memory,
        FillError::Failed => StreamRefusal::Read,
    }
}

/// Reads the next whole records of a source, after what is in the window, and takes them out: at least one, or what is left at
/// the end. They come in this buffer, which what it had is lost of.
///
/// `Memory` comes where memory was refused, `Read` where a read failed.
pub(crate) fn next_records<S: Source>(
    window: &mut Window,
    buffer: Vec<u8>,
    source: &mut S,
) -> Result<Vec<u8>, StreamRefusal>
    ensures come { IfOk result (λ records. Comes (S.left source.old) (S.left source.new)
        window.old window.new records.items) }
{
    match window.next_records(buffer, source) {
        Ok(records) => Ok(records),
        Err(error) => Err(refusal_of(error)),
    }
}
