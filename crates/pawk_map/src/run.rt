//! What is written of a piece that was run apart.

ghost use Rattle.std.specs.Prelude.{◌≡◌, IfOk};
ghost use Rattle.pawk_map.specs.Courses as spec;

use crate::apart::Apart;
use crate::draft::{Course, Progress, write_sections};
use crate::refusal::MapRefusal;
use pawk_device::Sink;
use std::alloc::Global;

/// What a piece leaves that was run apart and written.
#[derive(Drop)]
pub(crate) struct Run {
    pub progress: Progress,
    pub course: Course,
    /// How many records the piece has.
    pub records: u64,
    /// The piece's bytes, whose memory the next one may use.
    pub bytes: Vec<u8>,
}

/// Whether more records are run after a piece whose chunks were all left through, or not.
fn course_after(is_through: bool) -> Course
    ensures { result ≡ spec.course_after is_through }
{
    if is_through { Course::On } else { Course::Over }
}

/// Writes the lines that tell of a piece of this name.
pub(crate) fn write_apart<K: Sink>(
    alloc: Global,
    progress: Progress,
    name: &[u8],
    apart: Apart,
    sink: &mut K,
) -> Result<Run, MapRefusal>
    ensures { IfOk result (spec.WritesApart (K.taken sink.old) (K.taken sink.new)
        progress name.now apart) }
{
    let Apart {
        lines,
        records,
        is_through,
        bytes,
    } = apart;
    Ok(Run {
        progress: write_sections(alloc, progress, name, &lines, records, sink)?,
        course: course_after(is_through),
        records,
        bytes,
    })
}
