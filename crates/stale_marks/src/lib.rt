//! The marks of stale cells, which are closed under readers.
#![tactic(auto)]

mod laws;
mod marks;
mod spreading;
#[cfg(test)]
mod tests;

pub use cell_refs::Memory;
pub use laws::{
    a_constant_needs_no_mark, a_mark_follows_an_edit, an_edit_leaves_marks_closed_but_for_one,
};
pub use marks::Marks;
