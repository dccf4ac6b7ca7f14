//! The index of areas: which cells name an area that has a given cell.
#![tactic(auto)]

mod area_indexes;
mod indexes;
mod nodes;
mod pairs;
mod stores;
mod trees;

pub use area_indexes::AreaIndex;
pub use cell_refs::Memory;
pub use nodes::{LEVELS, Node};
pub use pairs::Pair;
