//! Brings what a host keeps beside its book in step with the book: the dependency table, the marks of stale cells and
//! the values of cells.
#![tactic(auto)]

mod anew;
mod changes;
mod following;
mod formulas;
mod laws;
mod stale;
#[cfg(test)]
mod tests;
mod values;

pub use anew::follow_anew;
pub use cell_values::Memory;
pub use following::follow;
pub use laws::what_follows_a_book_still_does_after_an_edit;
