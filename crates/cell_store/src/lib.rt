//! The values of cells: what each cell has at present, and what the sheet shows of it.
#![tactic(auto)]

mod gathering;
mod laws;
mod scanning;
mod sheets;
mod stores;
#[cfg(test)]
mod tests;
mod unknowns;
mod updates;

pub use cell_values::Memory;
pub use laws::{an_untouched_cell_shows_what_is_present, entries_that_look_up_alike_are_equal};
pub use stores::CellStore;
