//! Counts of newlines, kept beside the bytes that they are of.

ghost use Rattle.std.specs.Prelude.{◌≡◌, ◌≤◌, [], length, count_by, OnOk};
ghost use Rattle.memchr.specs.Find.{is_byte};
ghost use Rattle.pawk_records.specs.Records.{newline};
ghost use Rattle.pawk_records.specs.Census.{IsCensus, IsWhole};

use crate::count::count_byte;
use crate::paragraphs::NEWLINE;
use std::alloc::{AllocError, Global};
use std::marker::Model;

/// How many bytes a segment has.
pub(crate) const SEGMENT: usize = 4_096;

/// How many newlines lie in each of the first segments of a text, 4,096 bytes each, as far as they were counted.
#[derive(Drop)]
pub struct Census {
    counts: Vec<usize>,
}

impl Model for Census {
    ghost use Rattle.std.specs.Prelude.{List, ℕ};

    ghost Value = { List ℕ };

    ghost view = { λ c. c.counts.items };
}

impl Census {
    /// The census of no segment. Takes no memory.
    pub fn new(alloc: Global) -> Self
        ensures { result ≡ [] }
    {
        Census {
            counts: Vec::new(alloc),
        }
    }

    /// Counts the segments of a text that were not counted yet: those that it has got since.
    ///
    /// The error comes where memory was refused; the census is then one of fewer segments.
    pub fn grow(&mut self, text: &[u8]) -> Result<(), AllocError>
        requires { IsCensus self.old text.now }
        ensures census { IsCensus self.new text.now }
        ensures whole { OnOk result (IsWhole self.new text.now) }
    {
        let (_, mut rest) = text.split_at(self.counts.len() * SEGMENT);
        while rest.len() >= SEGMENT {
            let (segment, later) = rest.split_at(SEGMENT);
            self.counts.push(count_byte(segment, NEWLINE))?;
            rest = later;
        }
        Ok(())
    }

    /// The counts of the census, one for each segment.
    pub(crate) fn counts(&self) -> &[usize]
        ensures { result.now ≡ self.now }
    {
        self.counts.as_slice()
    }
}

/// How many newlines lie in a text, of whose first segments the counts are there.
pub(crate) fn count_newlines(text: &[u8], counts: &[usize]) -> usize
    requires { IsCensus counts.now text.now }
    ensures { result ≡ count_by (is_byte newline) text.now }
{
    let mut count = 0;
    let mut rest = text;
    for segment in counts {
        let (_, later) = rest.split_at(SEGMENT);
        count += *segment;
        rest = later;
    }
    count + count_byte(rest, NEWLINE)
}
