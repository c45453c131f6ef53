//! Devices that bytes come from and go to.
#![tactic(auto)]

mod count;
mod device;
mod transfer;

pub use device::{Failed, Reader, Sink, Source, Writer};
pub use transfer::{ReadStop, read_all, write_all};
