//! The dependency table: which areas each formula cell names, and which formula cells name a cell.
#![tactic(auto)]

mod area_lists;
mod laws;
mod tables;
#[cfg(test)]
mod tests;

pub use cell_refs::Memory;
pub use laws::readers_of_one_row;
pub use tables::DepTable;
