//! The values of cells: texts, errors, coercions, operators, and value words.
#![tactic(auto)]

mod coercions;
mod comparison;
mod digits;
mod errors;
mod events;
mod limits;
mod memory;
mod names;
mod numbers;
mod operators;
#[cfg(test)]
mod tests;
mod texts;
mod topics;
mod values;
mod words;

pub use coercions::{join, to_bool, to_number, to_text};
pub use comparison::{CompareOp, compare};
pub use digits::{has_number_form, read_digits, read_number_word};
pub use errors::ErrorKind;
pub use events::Event;
pub use limits::{LARGEST_NUMBER, LONGEST_NAME, LONGEST_TEXT};
pub use memory::Memory;
pub use names::{Name, NameFault};
pub use numbers::{exact_product, is_in_magnitude, number_value, quotient_toward_zero, remainder};
pub use operators::{add, div, mul, negate, sub};
pub use texts::{Text, TextFault};
pub use topics::{Texts, Topic};
pub use values::Value;
pub use words::{ValueFault, print_value, read_error_word, read_value};
