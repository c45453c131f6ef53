//! Whether pieces are run in chunks.

use pawk_flow::PieceEnd;
use pawk_par::Cutting;

/// The least size of a chunk, in bytes, by which it is judged whether chunks are worth their merge.
const LEAST_CHUNK: u64 = 262_144;

/// Of how many elements chunks may note something for each four records. Where they note more, about one for each record, its merge,
/// which one thread does, costs as much as the record.
const FEW_FOR_FOUR: u64 = 3;

/// From how many elements for each four records on a record is more work than their merge: it has several that are new.
const MANY_FOR_FOUR: u64 = 6;

/// How many bytes chunks have to have for each element: a longer record is more work than the merge of one.
const BYTES_FOR_ELEMENT: u64 = 64;

/// How many bytes chunks have to have for each element, however many there are for a record.
const LEAST_BYTES_FOR_ELEMENT: u64 = 16;

/// How many pieces are run one record after the other before chunks are tried again.
const PIECES_IN_TURN: u32 = 15;

/// How many of the next pieces are run one record after the other, although the program may run in chunks, since the chunks of
/// the last ones noted too many elements. No contract speaks of it: a piece leaves the same either way.
#[derive(Clone, Copy)]
pub(crate) struct Pace {
    pieces_in_turn: u32,
}

/// The size of a chunk in bytes, where the cutting goes by a size.
fn chunk_size(cutting: &Cutting) -> Option<u64> {
    match cutting {
        Cutting::Size(bytes) | Cutting::AtLeast(bytes) => Some(*bytes),
        Cutting::At(_) => None,
    }
}

/// Whether the merge of so many elements costs about as much as the records, of this size together, of which they were noted.
fn is_dense(noted: u64, records: u64, bytes: u64) -> bool {
    let for_four = noted.saturating_mul(4) / records.max(1);
    let is_one_each = FEW_FOR_FOUR < for_four && for_four < MANY_FOR_FOUR;
    (is_one_each && noted > bytes / BYTES_FOR_ELEMENT) || noted > bytes / LEAST_BYTES_FOR_ELEMENT
}

/// Whether the chunks of a piece, which were of about the size that the cutting asks for, noted too many elements for its
/// records.
fn notes_too_much(end: &PieceEnd, records: u64, cutting: &Cutting) -> bool {
    let (chunks, bytes) = (end.outputs.len() as u64, end.bytes.len() as u64);
    let Some(size) = chunk_size(cutting) else {
        return false;
    };
    if size < LEAST_CHUNK || bytes / 2 < chunks.saturating_mul(size / 4) {
        return false;
    }
    is_dense(end.noted as u64, records, bytes)
}

impl Pace {
    /// The pace of a run before its first piece, which is run in chunks.
    pub(crate) fn new() -> Pace {
        Pace { pieces_in_turn: 0 }
    }

    /// Whether the next piece is run in chunks, where the program allows it and there are several workers.
    pub(crate) fn is_in_chunks(self) -> bool {
        self.pieces_in_turn == 0
    }

    /// The pace after a piece of so many records, which ended so.
    pub(crate) fn after(self, end: &PieceEnd, records: u64, cutting: &Cutting) -> Pace {
        if self.pieces_in_turn > 0 {
            return Pace {
                pieces_in_turn: self.pieces_in_turn - 1,
            };
        }
        if notes_too_much(end, records, cutting) {
            return Pace {
                pieces_in_turn: PIECES_IN_TURN,
            };
        }
        self
    }
}
