//! The calculation chain: the order in which formula cells are looked at, and which of them are due.
#![tactic(auto)]

mod chains;
mod due;
mod linking;
mod orders;
mod renewal;
mod slots;
#[cfg(test)]
mod tests;

pub use cell_refs::Memory;
pub use chains::Chain;
