//! The open asynchronous calls: each has a handle until its value comes back or its recalculation ends.
#![tactic(auto)]

mod handles;
mod open_calls;
#[cfg(test)]
mod tests;
mod tree;

pub use addin_types::Call;
pub use cell_refs::{Cell, Handle};
pub use cell_values::Memory;
pub use handles::Handles;
