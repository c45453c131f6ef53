//! A run in pieces: BEGIN, assignments among the operands, what a piece begins with and leaves, END.
#![tactic(auto)]

mod begin;
mod finish;
mod flow;
mod law;
mod operands;
mod piece;
mod plan;
mod refusal;

pub use begin::{Begun, Start, begin_flow};
pub use finish::finish_flow;
pub use flow::Flow;
pub use law::{PlainStore, results_merge_far};
pub use operands::{assign, assignments_follow, assignments_keep_ready, plain_operands_run};
pub use pawk_sequential::{Job, Left, Run, run_records};
pub use piece::{Piece, PieceEnd};
pub use plan::{bytes_of, input_of, plan_after, plan_of_one};
pub use refusal::PieceRefusal;
