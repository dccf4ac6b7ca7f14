//! A book that recalculates: edits are noted as they come, and a recalculation brings what follows the book in step with
//! it and evaluates what is stale.
#![tactic(auto)]

mod beginning;
mod calc_books;
mod calling;
mod edits;
mod evaluating;
mod noting;
#[cfg(test)]
mod tests;

pub use async_handles::{Call, Handle};
pub use calc_books::CalcBook;
pub use cell_values::Memory;
