//! Steps: how long chunks are, where that changes along the input.

ghost use Rattle.std.specs.Prelude.{◌≡◌, ◌+◌, ◌^◌, ◌<◌};
ghost use Rattle.pawk_input.specs.Plan.{size_in_file};

/// From a place of the input on, chunks have at least a given number of bytes.
#[derive(Clone, Copy)]
pub struct SizeStep {
    /// The place among the bytes of all files, counted from 0.
    pub from: u64,
    /// How many bytes a chunk has at least that begins there, or later up to the next step.
    pub size: u64,
}

/// How long chunks are, as one file of an input has it.
#[derive(Clone, Copy)]
pub(crate) struct FileSteps<'s> {
    /// How many bytes chunks have at least before the first step.
    pub(crate) size: u64,
    pub(crate) steps: &'s [SizeStep],
    /// How many bytes the files before this one have together.
    pub(crate) before: u64,
}

impl FileSteps<'_> {
    /// How many bytes a chunk has at least that begins at this place of the file.
    pub(crate) fn size_at(self, place: usize) -> u64
        requires { self.before + place < 2 ^ 64 }
        ensures { result ≡ size_in_file self.entry.size self.entry.steps.now self.entry.before place }
    {
        let at = self.before + place as u64;
        let mut size = self.size;
        for step in self.steps {
            if at < step.from {
                break;
            }
            size = step.size;
        }
        size
    }
}
