//! What a run wrote.

ghost use Rattle.std.specs.Prelude.{◌≡◌, IfOk};
ghost use Rattle.pawk_store.specs.Outputs.{in_a_row};

use std::alloc::{AllocError, Global};
use std::marker::Model;

/// What a run wrote, in parts that are never joined.
#[derive(Drop)]
pub struct Output {
    parts: Vec<Vec<u8>>,
}

impl Model for Output {
    ghost use Rattle.std.specs.Prelude.{List, ℕ};

    ghost Value = { List ℕ };

    ghost use Rattle.pawk_store.specs.Outputs.{in_a_row};

    ghost view = { λ o. in_a_row o.parts.items };
}

impl Output {
    /// An output of one part. An error comes where memory for the list of parts was refused.
    pub fn whole(alloc: Global, bytes: Vec<u8>) -> Result<Output, AllocError>
        ensures { IfOk result (λ output. output ≡ bytes.items) }
    {
        let mut parts = Vec::with_capacity(alloc, 1)?;
        parts.push_reserved(bytes);
        Ok(Output { parts })
    }

    /// What these parts are together.
    pub fn of(parts: Vec<Vec<u8>>) -> Output
        ensures { result ≡ in_a_row parts.items }
    {
        Output { parts }
    }

    /// The parts of the output, in their order.
    pub fn parts(&self) -> &[Vec<u8>]
        ensures { in_a_row result.now ≡ self.now }
    {
        self.parts.as_slice()
    }

    /// The parts, in order, and their space.
    pub fn into_parts(self) -> Vec<Vec<u8>>
        ensures { in_a_row result.items ≡ self }
    {
        self.parts
    }
}
