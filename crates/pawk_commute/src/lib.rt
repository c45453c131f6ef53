//! The law that chunks of records commute.
#![tactic(auto)]

pub mod law;
