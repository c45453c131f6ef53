//! Where the places of a running program are, and how they are read and changed.
//!
//! `inline(always)` marks what every record or byte passes through, `inline(never)` what is rare, so that the locals of
//! rare arms are not cleared in hot functions (counted by bench/).
#![tactic(auto)]

mod append;
mod arithmetic;
mod arrays;
mod at_once;
mod conditions;
mod leaves;
mod letters;
mod locals;
mod operations;
mod outputs;
mod plain;
mod quick;
mod reading;
mod run;
mod scalars;
mod shapes;
mod substrings;
mod target;
mod texts;
mod writing;

pub use append::assign_in_place;
pub use arithmetic::result_of;
pub use arrays::{
    SplitSeparator, array_keys, clear_array, element_exists, field_exists, number_exists,
    remove_element, split_into,
};
pub use at_once::{
    leaf_add, leaf_find, leaf_function, leaf_member, leaf_read, leaf_read_number, leaf_read_text,
    leaf_set, leaf_tally,
};
pub use conditions::{quick_match, quick_test};
pub use leaves::{
    arithmetic_after, compare_leaves, compare_number, leaf_copy, leaf_length, leaf_number,
    leaf_text, leaf_truth, leaf_value, lent_number, place_in, place_in_leaf, plain_number,
    related_numbers,
};
pub use operations::{
    array_parameter, combine, fill_format, find_first, find_in_field, matches_field, set_key,
    substitute,
};
pub use outputs::{key_of_texts, print_alone, print_bytes, print_line, tick};
pub use plain::{are_plain, print_plain};
pub use quick::{LEVELS, plain_test, plain_value, quick_field, quick_number, quick_numeric};
pub use reading::{
    field_element_number, push_field_element, push_place_text, read_field_element, read_number,
    read_place,
};
pub use run::{
    Parameter, Run, close_arrays, give_back, give_back_frame, give_back_value, parameters,
    take_buffer, take_frame, take_texts, take_values, value_with,
};
pub use shapes::{field_element, leaf_element, numeric_element};
pub use target::{
    ArrayReference, Target, element_target, give_back_target, table_of, variable_target,
};
pub use texts::quick_text;
pub use writing::{
    add_leaf_at_field, add_to_field_key, add_to_key, add_to_number, add_to_parameter, add_to_place,
    change_place, put_text, set_at_number, set_match_place, tally_at_field, write_place,
};
