//! The servers that a host knows, and the news that they gave.
#![tactic(auto)]

mod news;
mod servers;
#[cfg(test)]
mod tests;

pub use cell_values::Memory;
pub use servers::{KnownServer, place_of};
