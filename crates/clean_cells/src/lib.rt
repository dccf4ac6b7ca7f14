//! A law of every history: a formula cell that isn't stale means what it meant at the last
//! completed recalculation.
#![tactic(auto)]

mod clean_laws;

pub use clean_laws::{a_clean_cell_keeps_its_meaning, every_state_is_alike};
