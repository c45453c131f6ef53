//! Values of awk in whole numbers: numerals, conversion, comparison and arithmetic without memory, and their
//! texts, copies and formats, which take memory.
//!
//! `inline(always)` marks what every record or byte passes through and `inline` what other crates call for each number,
//! `inline(never)` what is rare, so that the locals of rare arms are not cleared in hot functions (counted by bench/).
#![tactic(auto)]

mod arguments;
mod arithmetic;
mod bytes;
mod comparison;
mod conversion;
mod copies;
mod directive;
mod faults;
mod formats;
mod held;
mod layout;
mod limits;
mod look;
mod numeral;
mod output;
mod pieces;
mod radix;
mod range;
mod template;
mod texts;
mod values;

pub use arithmetic::{Op, arith, arithmetic_law};
pub use bytes::{is_blank_byte, is_digit_byte};
pub use comparison::{compare, compare_lent, compare_texts, text_order_law};
pub use conversion::{candidate_truth, text_in, to_num, to_num_lent, truth, truth_lent};
pub use copies::{assign, copy_lent, copy_value};
pub use directive::{Conversion, Directive, Flags, directive_law};
pub use faults::{Fault, Stop};
pub use formats::{format, format_into, format_law};
pub use held::{Held, hold, lend_held};
pub use limits::{LENGTH_LIMIT, NUMBER_LIMIT, limits_law};
pub use look::{candidate_number, look_law};
pub use numeral::{Digits, leading_digits, number_of, numeral_law};
pub use range::whole_number;
pub use template::{Template, read_template, template_into};
pub use texts::{push_text, push_text_lent, to_text};
pub use values::{Value, ValueRef, lend};
