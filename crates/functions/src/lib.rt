//! The forty functions that formulas call: their names, their counts of arguments, and their answers.
#![tactic(auto)]

mod applying;
mod areas;
mod arguments;
mod arithmetic;
mod counting;
mod functions;
mod gathering;
mod kinds;
mod laws;
mod limits;
mod logic;
mod powers;
mod tallies;
#[cfg(test)]
mod tests;
mod text_answers;
mod text_laws;
mod text_parts;
mod text_search;
#[cfg(test)]
mod text_tests;
mod text_writing;
mod truths;

pub use applying::apply;
pub use arguments::{Arg, Values, are_in_form};
pub use functions::{Function, arity};
pub use laws::{
    a_modulus_is_what_the_floor_leaves, a_quotient_leaves_less_than_the_divisor,
    a_sum_is_the_sum_of_its_parts,
};
pub use limits::{MOST_ARGUMENTS, MOST_VALUES};
pub use text_laws::{
    find_gives_the_least_place, left_and_mid_join_to_the_text, trim_is_idempotent,
};
