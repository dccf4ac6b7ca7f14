//! The connected topics of real-time data, and the cells that read them.
#![tactic(auto)]

mod cell_lists;
mod links;
mod places;
mod readers;
mod rows;
mod tables;
#[cfg(test)]
mod tests;
mod topic_ids;
mod topic_keys;

pub use cell_refs::Cell;
pub use cell_values::{Memory, Topic, Value};
pub use tables::Topics;
