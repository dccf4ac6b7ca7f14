//! The calculation chain over cells: each formula cell has a small number while it is in the chain, and the chain
//! orders the numbers.
#![tactic(auto)]

mod chains;
mod numbering;
#[cfg(test)]
mod tests;

pub use cell_refs::Memory;
pub use chains::CellChain;
