//! Windows of whole records out of the bytes of a source, and the files that such bytes are of.
#![tactic(auto)]

mod buffer;
mod cut;
mod feed;
mod window;

pub use cut::whole_length;
pub use feed::Feed;
pub use window::{FillError, Window};
