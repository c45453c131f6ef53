//! Where calls are nested.

use crate::context::Context;

/// What a part of a run looks at, and how many calls may be nested in it.
#[derive(Clone, Copy)]
pub struct Layer<'p> {
    pub context: Context<'p>,
    pub depth: u64,
}
