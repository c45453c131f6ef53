//! Runs from feeds to a sink: which reads come when, and what a read, a write or a flush leaves that fails.
//!
//! What such runs show otherwise is in `tests/programs/files` and `operands` at the top of the repository.

mod failures;
mod trials;
mod turns;
