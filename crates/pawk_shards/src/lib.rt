//! Laws of chunks that were run apart: each over the globals that `BEGIN` left, wherever and whenever, and
//! merged at a later point of the run, with records between them that are run in order.
#![tactic(auto)]

pub mod law;
