//! A run piece by piece: each in threads where the program allows it, or in turn.
#![tactic(auto)]

mod noting;
mod stage;
mod turn;
mod window;

pub use noting::run_piece_noting;
pub use pawk_pieces::{
    Begun, Flow, Piece, PieceEnd, PieceRefusal, Start, assign, assignments_follow,
    assignments_keep_ready, begin_flow, bytes_of, finish_flow, input_of, plain_operands_run,
    plan_after, results_merge_far,
};
pub use turn::run_piece_in_turn;
pub use window::run_piece_in_chunks;
