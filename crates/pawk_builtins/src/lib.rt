//! The built-in functions of awk, on what their operands were converted to.
//!
//! `inline(always)` marks what every record or byte passes through, `inline(never)` what is rare, so that the locals of
//! rare arms are not cleared in hot functions (counted by bench/).
#![tactic(auto)]

mod between;
mod conversions;
mod expression;
mod formats;
pub mod laws;
mod letters;
mod matchers;
mod occurrence;
mod operators;
mod replace;
mod replacement;
mod slot;
mod substrings;
mod values;

pub use conversions::{both, exit_status, field_index, within_limit};
pub use expression::EreReference;
pub use formats::format_values;
pub use letters::push_letters;
pub use matchers::Matchers;
pub use occurrence::index;
pub use operators::{holds_for, related, same_truth, step_side, step_sign};
pub use substrings::{substring, suffix};
pub use values::Values;
