//! Tables of neighbouring shards, joined to one table of them all: parts that follow each other are composed, and a record that a
//! table keeps is run as a part of its own where another record follows it.
#![tactic(auto)]

mod draft;
mod held;
mod order;
mod part;
mod refusal;
mod run;
mod section;
mod setting;
mod table;

pub use order::{JoinOrder, Neighbour};
pub use refusal::{JoinRefusal, JoinStop};
pub use run::join;
