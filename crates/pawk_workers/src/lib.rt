//! Work at the seats of a board, in threads, and the records of an input counted so by blocks.
#![tactic(auto)]

mod gate;
mod gathering;
mod labour;
mod place;
mod shifts;
mod size;
mod task;
mod worker;

pub use gate::{Gate, Open};
pub use gathering::count_records;
pub use labour::{CrewRefusal, Labour, all_labour};
pub use size::block_size;
