//! The checks on an awk program that was read: what its items mention, which names are arrays and
//! which are scalars, and whether targets, calls, words and names fit.
#![tactic(auto)]

pub mod check;
pub mod demand;
pub mod demands;
pub mod expression;
pub mod fault;
pub mod functions;
pub mod heads;
pub mod item;
pub mod kinds;
pub mod links;
pub mod marks;
pub mod mention;
pub mod names;
pub mod places;
pub mod role;
pub mod rules;
pub mod statement;
pub mod variables;
