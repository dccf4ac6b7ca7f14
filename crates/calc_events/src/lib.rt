//! The events that recalculations end with, for listeners that fetch them by name.
#![tactic(auto)]

mod listening;
#[cfg(test)]
mod tests;

pub use cell_values::{Event, Memory, Name};
pub use listening::Events;
