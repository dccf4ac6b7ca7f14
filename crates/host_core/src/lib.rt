//! The host as one machine: it answers commands, keeps their history, and recalculates.
#![tactic(auto)]

mod desks;
mod edits;
mod hosts;
mod listeners;
mod pulls;
mod returns;
mod round_books;
mod rounds;
mod servers;

pub use cell_values::Memory;
pub use desks::PlainDesk;
pub use hosts::{ActFault, Host};
