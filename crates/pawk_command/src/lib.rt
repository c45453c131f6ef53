//! What a command line asks for, the files and devices that it names, and what is reported.
#![tactic(auto)]

mod ahead;
pub mod base64_line;
pub mod checked_table;
pub mod coming_tables;
pub mod command_line;
pub mod deep;
pub mod device;
pub mod files;
pub mod first_table;
pub mod held;
pub mod host;
pub mod listing;
pub mod operands;
mod options;
pub mod outlet;
pub mod reports;
pub mod script;
pub mod sequence;
pub mod statistics;
mod stripes;
pub mod table_failure;
pub mod table_listing;
pub mod words;
