//! Runs whose input flows: from a list of feeds to a sink, of every program, the records in threads where it allows it.
#![tactic(auto)]

mod flowed;
mod law;
mod order;
mod pace;
mod reading;
mod run;
mod stream;
mod write;

pub use flowed::{Flowed, LastPiece};
pub use order::Order;
pub use pawk_window::Feed;
pub use run::run_feeds;
